//! The content of loose objects (gitformat-loose): `<kind> <size>`, a zero byte, and `size` bytes.

use crate::helpers::{holds, is_message};
use gixobj_base::Kind;
use gixobj_base::decode::{LooseContentError, LooseHeaderDecodeError, loose_content};
use std::alloc::Global;

/// Loose objects, with their kinds and contents.
const ROWS: &[(&[u8], Kind, &[u8])] = &[
    (b"blob 6\0hello\n", Kind::Blob, b"hello\n"),
    (b"blob 6\0hello\nand more", Kind::Blob, b"hello\n"),
    (b"tree 0\0", Kind::Tree, b""),
];

#[test]
fn decodes_kind_and_content(rt: HostRuntime) {
    for &(input, kind, content) in ROWS {
        let decoded = loose_content(rt.alloc(), input).ok();
        assert!(rt; decoded == Some((kind, content)), "{input:?}");
    }
}

/// Returns whether an error has this message.
fn has_message(alloc: Global, error: LooseContentError, message: &str) -> bool {
    is_message(error.to_string(alloc), message)
}

/// The message for content that is one byte short.
const SHORT: &str = "the content is shorter than the 7 bytes of its header";

#[test]
fn errors_print_their_messages(rt: HostRuntime) {
    let of_memory = LooseContentError::from(LooseHeaderDecodeError::OutOfMemory);
    assert!(rt; has_message(rt.alloc(), of_memory, "out of memory"));
    let short = loose_content(rt.alloc(), b"blob 7\0hello\n").err();
    assert!(rt; holds!(short, Some(error) => has_message(rt.alloc(), error, SHORT)));
}
