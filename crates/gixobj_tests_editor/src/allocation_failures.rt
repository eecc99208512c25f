//! Four scenarios in which any allocation may fail: after the failed call is repeated, the result is that
//! with ample memory. Ids are those that `git mktree --missing` prints.

use crate::samples::{
    NOT_CALLED, OUT_OF_MEMORY, cursor_of, empty_editor, has_id_and_count, number_of, or_empty,
    removed, stored_file, upserted, upserted_by, written,
};
use crate::writes::{ALL_THREE, stops_at};
use gixobj_editor::editor::Editor;
use gixobj_store_keep::Memory;
use std::alloc::Global;

/// Returns an editor of one file whose directories below the root are stored; tries again if an allocation
/// fails.
fn stored_again(alloc: Global, names: &[&[u8]]) -> Editor<Memory> {
    match stored_file(alloc, names) {
        Some(editor) => editor,
        None => or_empty(alloc, stored_file(alloc, names)),
    }
}

/// Inserts the file, again after a failed allocation, and returns whether that succeeds.
fn is_inserted(alloc: Global, editor: &mut Editor<Memory>, path: &[u8]) -> bool {
    match upserted(alloc, editor, path) {
        NOT_CALLED | OUT_OF_MEMORY => upserted(alloc, editor, path) == 0,
        number => number == 0,
    }
}

/// Removes the entry at a path in a single attempt, and returns whether that succeeds.
fn is_removed(alloc: Global, editor: &mut Editor<Memory>, path: &[u8]) -> bool {
    match removed(alloc, editor, path) {
        NOT_CALLED => removed(alloc, editor, path) == 0,
        number => number == 0,
    }
}

/// Writes the editor, again after an error. Returns whether that emits `count` trees, the last of the id
/// `root`, and counts `saved` unchanged directories.
fn is_written(
    alloc: Global,
    editor: &mut Editor<Memory>,
    saved: usize,
    count: usize,
    root: &str,
) -> bool {
    let answer = match written(alloc, editor) {
        Ok(written) => Ok(written),
        Err(_) => written(alloc, editor),
    };
    match answer {
        Ok(written) => written.saved == saved && has_id_and_count(&written, root, count),
        Err(_) => false,
    }
}

/// A directory that was removed and made again has only its new file.
#[test]
fn remove_then_again_whatever_allocation_fails(rt: HostRuntime) {
    let alloc = rt.alloc();
    let mut editor = empty_editor(alloc);
    assert!(rt; is_inserted(alloc, &mut editor, b"a b"));
    assert!(rt; is_removed(alloc, &mut editor, b"a"));
    assert!(rt; is_inserted(alloc, &mut editor, b"a c"));
    let root = "f80f23b9ec7e1c6321e5ec3c2551a24e9c7afab2";
    assert!(rt; is_written(alloc, &mut editor, 0, 2, root));
}

/// Returns whether the first or the second write stops at its second tree.
fn is_stopped(alloc: Global, editor: &mut Editor<Memory>) -> bool {
    stops_at(alloc, editor, 2, ALL_THREE) || stops_at(alloc, editor, 2, ALL_THREE)
}

/// A write emits all trees after one that failed at its second tree.
#[test]
fn failed_out_whatever_allocation_fails(rt: HostRuntime) {
    let alloc = rt.alloc();
    let mut editor = empty_editor(alloc);
    assert!(rt; is_inserted(alloc, &mut editor, b"a x"));
    assert!(rt; is_inserted(alloc, &mut editor, b"b y"));
    assert!(rt; is_stopped(alloc, &mut editor));
    let root = "77bbb40fde4f7afc2609858ec55da053db6ba24f";
    assert!(rt; is_written(alloc, &mut editor, 0, 3, root));
}

/// Inserts the file `c` by a cursor at the directory `a`, then removes the empty path. Returns the number of
/// the error, or 0.
fn inserted_at(alloc: Global, editor: &mut Editor<Memory>) -> u8 {
    let mut cursor = match cursor_of(alloc, editor, b"a") {
        Ok(cursor) => cursor,
        Err(number) => return number,
    };
    match upserted_by(alloc, &mut cursor, b"c") {
        0 => number_of(&cursor.try_remove(&[])),
        number => number,
    }
}

/// Inserts the file `c` by a cursor, again after a failed allocation, and returns whether that succeeds.
fn is_inserted_at(alloc: Global, editor: &mut Editor<Memory>) -> bool {
    match inserted_at(alloc, editor) {
        NOT_CALLED | OUT_OF_MEMORY => inserted_at(alloc, editor) == 0,
        number => number == 0,
    }
}

/// A cursor at a stored directory keeps its file when it inserts another.
#[test]
fn cursor_keeps_whatever_allocation_fails(rt: HostRuntime) {
    let mut editor = stored_again(rt.alloc(), &[b"a", b"b"]);
    assert!(rt; is_inserted_at(rt.alloc(), &mut editor));
    let root = "d79ed5c1e2ff97a59beb0fc1a1b79b68aa0be74a";
    assert!(rt; is_written(rt.alloc(), &mut editor, 0, 2, root));
}

/// Only the root is emitted after a file was inserted into a stored directory and removed.
#[test]
fn emits_only_root_whatever_allocation_fails(rt: HostRuntime) {
    let alloc = rt.alloc();
    let mut editor = stored_again(alloc, &[b"a", b"b", b"c"]);
    assert!(rt; is_inserted(alloc, &mut editor, b"a b d"));
    assert!(rt; is_removed(alloc, &mut editor, b"a b d"));
    let root = "0777f611c446507a3c6fa4a976a7a8d5f0eaed6d";
    assert!(rt; is_written(alloc, &mut editor, 2, 1, root));
}
