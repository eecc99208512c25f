//! Blobs: borrowed and owned forms, and a failing writer.

use crate::helpers::owned_blob;
use crate::limited::Limited;
use gixobj_base::{BlobRef, WriteTo};

#[test]
fn converts_between_borrowed_and_owned(rt: HostRuntime) {
    let borrowed = BlobRef::from_bytes(b"hello");
    let mut owned = owned_blob(rt.alloc(), borrowed);
    let copy = owned_blob(rt.alloc(), owned.to_ref());
    assert!(rt; owned.to_ref() == borrowed);
    assert!(rt; copy == owned);
    assert!(rt; owned.bytes.extend_from_slice(b" world").is_ok());
    assert!(rt; owned.to_ref().bytes == b"hello world".as_slice());
}

#[test]
fn returns_writer_error_after_prefix(rt: HostRuntime) {
    let owned = owned_blob(rt.alloc(), BlobRef::from_bytes(b"hello"));
    let (held, room) = (Vec::new(rt.alloc()), 4);
    let mut writer = Limited { held, room };
    let outcome = owned.write_to(rt.alloc(), &mut writer);
    assert!(rt; writer.stopped_at(&outcome, b"hello", 4));
}
