//! An empty tree without memory, copies of errors, and error messages.

use crate::helpers::{holds, is_message};
use gixobj_base::tree::Tree;
use gixobj_base::{Kind, OutOfMemory, decode, kind, stream_hash};

#[test]
fn cloned_errors_have_same_kind(rt: HostRuntime) {
    let malformed = decode::Error::Malformed;
    let unknown = Kind::from_bytes(rt.alloc(), b"x");
    assert!(rt; holds!(malformed.clone(), Ok(decode::Error::Malformed) => true));
    assert!(rt;
        holds!(
            &unknown,
            Err(error) => holds!(error.clone(), Ok(kind::Error::InvalidObjectKind { .. }) => true)
        )
    );
}

/// The empty tree holds no allocation.
#[test]
fn empty_tree_allocates_nothing(rt: HostRuntime) {
    let empty = Tree::empty(rt.alloc());
    assert!(rt; empty.entries.is_empty());
    assert!(rt; empty.entries.capacity() == 0);
}

#[test]
fn errors_print_their_messages(rt: HostRuntime) {
    let malformed = decode::Error::Malformed.to_string(rt.alloc());
    assert!(rt; is_message(malformed, "malformed object"));
    let ended = stream_hash::Error::UnexpectedEof.to_string(rt.alloc());
    assert!(rt; is_message(ended, "the stream ended before the content did"));
    assert!(rt; is_message(OutOfMemory.to_string(rt.alloc()), "out of memory"));
}
