//! Calls of a cursor that return the cursor, and its store. Ids are those that `git mktree --missing` prints.

use crate::samples::{
    FILE, TREE_OF_B, cursor_of, empty_editor, or_empty, path_of, stored_file, upserted_by, writes,
};
use bstr::BString;
use gixobj_base::Kind;
use gixobj_base::hash::Kind as HashKind;
use gixobj_base::tree::EntryKind;
use gixobj_editor::editor::{Cursor, Editor, Error};
use gixobj_store_keep::Memory;
use std::alloc::Global;

/// Makes chained edits after which only the second of three files remains.
fn edit_all<'c, 'e>(
    cursor: &'c mut Cursor<'e, Memory>,
    first: &[BString],
    second: &[BString],
    third: &[BString],
) -> Result<&'c mut Cursor<'e, Memory>, Error> {
    cursor
        .upsert(second, EntryKind::Blob, FILE)?
        .upsert(third, EntryKind::Blob, FILE)?
        .remove(first)?
        .remove_leaf(third)
}

/// Makes chained edits after a use of the store, and returns whether they succeed: only the file `c` remains.
/// The cursor holds no borrow of the path that it was made at.
fn is_edited(alloc: Global, editor: &mut Editor<Memory>) -> bool {
    let Ok(mut cursor) = cursor_of(alloc, editor, b"a") else {
        return false;
    };
    let _ = cursor.store_mut();
    match (
        path_of(alloc, b"b"),
        path_of(alloc, b"c"),
        path_of(alloc, b"d"),
    ) {
        (Ok(b), Ok(c), Ok(d)) => edit_all(&mut cursor, &b, &c, &d).is_ok(),
        _ => false,
    }
}

/// The ids of the tree of the file `c`, and of the root with this tree at `a`.
const C_AND_ROOT: &[&[u8]] = &[
    b"6d2d932c1fe444535ef3f0316634b59cfde9c945",
    b"f80f23b9ec7e1c6321e5ec3c2551a24e9c7afab2",
];

#[test]
fn makes_chained_edits_after_use_of_store(rt: HostRuntime) {
    let mut editor = or_empty(rt.alloc(), stored_file(rt.alloc(), &[b"a", b"b"]));
    assert!(rt; is_edited(rt.alloc(), &mut editor));
    assert!(rt; writes(rt.alloc(), &mut editor, 0, C_AND_ROOT));
}

/// The ids of the tree of the files `b` and `c`, and of the root with this tree at `a`.
const BOTH: &[&[u8]] = &[
    b"902b8b41da66fef3bfdbf578a9b45304b9114c0e",
    b"d79ed5c1e2ff97a59beb0fc1a1b79b68aa0be74a",
];

/// Stores a directory of the file `b`, and inserts it at `a` and the file `a/c`, all by a cursor. Returns
/// whether that succeeds.
fn is_stored(alloc: Global, editor: &mut Editor<Memory>) -> bool {
    let mut cursor = editor.to_cursor();
    let Ok(id) = cursor
        .store_mut()
        .insert(Kind::Tree, HashKind::Sha1, TREE_OF_B)
    else {
        return false;
    };
    match path_of(alloc, b"a") {
        Ok(directory) => {
            cursor.try_upsert(&directory, EntryKind::Tree, id).is_ok()
                && upserted_by(alloc, &mut cursor, b"a c") == 0
        }
        Err(_) => false,
    }
}

#[test]
fn edits_in_directory_stored_by_cursor(rt: HostRuntime) {
    let mut editor = empty_editor(rt.alloc());
    assert!(rt; is_stored(rt.alloc(), &mut editor));
    assert!(rt; editor.lookups() == 1);
    assert!(rt; writes(rt.alloc(), &mut editor, 0, BOTH));
}
