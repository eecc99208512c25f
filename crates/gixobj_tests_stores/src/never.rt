//! The store without objects.

use crate::samples::{HELLO, id, id_of_bytes, is_id};
use crate::stores::has_none;
use crate::written::{CALLS, returns_id};
use gixobj_encode::stream_hash;
use gixobj_hash::Kind;
use gixobj_hash::hash::{Kind as HashKind, ObjectId};
use gixobj_store_find::find::Never;
use gixobj_store_find::{Write, write};
use gixobj_tests_base::limited::Stepping;
use std::alloc::Global;

#[test]
fn finds_nothing(rt: HostRuntime) {
    let empty_tree = ObjectId::empty_tree(HashKind::Sha1);
    assert!(rt; has_none(rt.alloc(), &Never, empty_tree));
    assert!(rt; has_none(rt.alloc(), &Never, id(HELLO)));
}

#[test]
fn returns_ids(rt: HostRuntime) {
    for call in CALLS {
        assert!(rt; returns_id(rt.alloc(), &Never, call), "{:?}", call.bytes);
    }
}

/// The last stream is of no bytes, and the id is that of an object of the stated kind.
#[test]
fn reads_no_byte_after_size(rt: HostRuntime) {
    let (alloc, known) = (rt.alloc(), id_of_bytes(1));
    let mut stream = b"hello\nhello\nrest".as_slice();
    let answer = Never.write_stream(alloc, Kind::Blob, 6, &mut stream);
    assert!(rt; is_id(answer, id(HELLO)) && stream == b"hello\nrest".as_slice());
    let answer = Never.write_stream_with_known_id(alloc, Kind::Blob, 6, &mut stream, known);
    assert!(rt; is_id(answer, known) && stream == b"rest".as_slice());
    let empty_tree = ObjectId::empty_tree(HashKind::Sha1);
    let answer = Never.write_stream(alloc, Kind::Tree, 0, &mut stream);
    assert!(rt; is_id(answer, empty_tree) && stream == b"rest".as_slice());
}

/// Returns whether a stream of a known id fails with the error for its reader, which fails or ends after
/// `count` of six bytes.
fn is_failed_after(alloc: Global, count: usize, fails: bool) -> bool {
    let mut stream = Stepping {
        rest: &b"hello\n"[..count.min(6)],
        step: 1,
        fails,
    };
    match Never.write_stream_with_known_id(alloc, Kind::Blob, 6, &mut stream, id_of_bytes(1)) {
        Err(write::Error::Read(stream_hash::Error::Io(_))) => fails,
        Err(write::Error::Read(stream_hash::Error::UnexpectedEof)) => !fails,
        _ => false,
    }
}

#[test]
fn fails_if_reader_fails_or_ends(rt: HostRuntime) {
    for count in 0..6usize {
        assert!(rt; is_failed_after(rt.alloc(), count, true), "{count}");
        assert!(rt; is_failed_after(rt.alloc(), count, false), "{count}");
    }
}
