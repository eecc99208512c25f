//! Writes to a store in memory, and to one in a cell.

use crate::samples::{HELLO, id, is_id};
use crate::written::{CALLS, returns_id};
use gixobj_encode::stream_hash;
use gixobj_hash::Kind;
use gixobj_hash::hash::Kind as HashKind;
use gixobj_store::Exists;
use gixobj_store_find::{Write, write};
use gixobj_store_keep::Memory;
use gixobj_tree::Tree;
use std::alloc::Global;
use std::cell::RefCell;

/// Id that `git hash-object --stdin` prints for 20,000 zero bytes.
const ZEROS: &[u8] = b"91cb84fdfbc2a39b865e91949aca505b5c847d90";

/// Id that `git hash-object -t tree --stdin` prints for no bytes.
const EMPTY_TREE: &[u8] = b"4b825dc642cb6eb9a060e54bf8d69288fbee4904";

/// Returns whether the next `size` bytes of a stream are stored as a blob of this id, and `rest` remains.
fn is_streamed(alloc: Global, bytes: &[u8], size: u64, rest: &[u8], hex: &[u8]) -> bool {
    let mut store = Memory::new(alloc);
    let mut stream = bytes;
    let written = store.write_stream(HashKind::Sha1, Kind::Blob, size, &mut stream);
    is_id(written, id(hex)) && stream == rest && store.len() == 1 && store.exists(id(hex).as_oid())
}

/// A content of several reads is stored, and nothing if the stream ends early.
#[test]
fn writes_streams_to_memory(rt: HostRuntime) {
    let zeros = [0; 20_000];
    assert!(rt; is_streamed(rt.alloc(), b"hello\nmore", 6, b"more", HELLO));
    assert!(rt; is_streamed(rt.alloc(), &zeros, 20_000, b"", ZEROS));
    let mut store = Memory::new(rt.alloc());
    let short = store.write_stream(HashKind::Sha1, Kind::Blob, 7, &mut b"hello\n".as_slice());
    assert!(rt;
        matches!(
            &short,
            Err(write::Error::Read(stream_hash::Error::UnexpectedEof))
        )
    );
    assert!(rt; store.is_empty());
}

/// The ids of a blob and of the empty tree are listed in order.
#[test]
fn lists_ids_in_order(rt: HostRuntime) {
    let mut store = Memory::new(rt.alloc());
    let blob = store.insert(Kind::Blob, HashKind::Sha1, b"hello\n").ok();
    let tree = store.write(HashKind::Sha1, &Tree::empty(rt.alloc())).ok();
    assert!(rt; blob == Some(id(HELLO)) && tree == Some(id(EMPTY_TREE)));
    let mut ids = store.ids();
    assert!(rt; ids.next() == tree && ids.next() == blob);
    assert!(rt; ids.next().is_none());
}

/// Returns whether a write fails while the cell is borrowed.
fn is_in_use(alloc: Global, store: &RefCell<Memory>) -> bool {
    let Ok(borrowed) = store.try_borrow() else {
        return false;
    };
    match store.write_buf(alloc, Kind::Blob, b"hello\n") {
        Err(write::Error::Store(message)) => {
            borrowed.is_empty() && message.as_bytes() == b"the store is in use".as_slice()
        }
        _ => false,
    }
}

/// The store has one object for each id.
#[test]
fn writes_to_store_in_cell(rt: HostRuntime) {
    let alloc = rt.alloc();
    let store = RefCell::new(Memory::new(alloc));
    assert!(rt; is_in_use(alloc, &store));
    for call in CALLS {
        assert!(rt; returns_id(alloc, &store, call), "{:?}", call.bytes);
    }
    let mut stream = b"hello\n".as_slice();
    assert!(rt; is_id(store.write(alloc, &Tree::empty(alloc)), id(EMPTY_TREE)));
    assert!(rt; is_id(store.write_buf(alloc, Kind::Blob, b"hello\n"), id(HELLO)));
    assert!(rt;
        is_id(
            store.write_stream(alloc, Kind::Blob, 6, &mut stream),
            id(HELLO)
        )
    );
    assert!(rt; store.into_inner().len() == 7);
}
