//! Writes over open directories that are unchanged since they were opened: these keep the ids of their
//! entries and aren't emitted. Ids are those that `git mktree --missing` prints.

use crate::samples::{
    FILE, NULL, cursor_of, emits, empty_editor, is_run, or_empty, stored_file, tree_of, upserted,
    writes,
};
use gixobj_base::Tree;
use gixobj_base::hash::{Kind as HashKind, ObjectId};
use gixobj_base::tree::EntryKind;
use gixobj_editor::editor::Editor;
use gixobj_store_keep::{Keep, Memory};
use std::alloc::Global;

/// The id of the tree of the file `c`.
const C: &[u8] = b"6d2d932c1fe444535ef3f0316634b59cfde9c945";

/// The ids of the tree of the directory `a` with the file `b/c`, and of the root that has it.
const A: &[u8] = b"708f683ce235f6e3b367a0d6fc2780c3ad22547e";

const ROOT: &[u8] = b"0777f611c446507a3c6fa4a976a7a8d5f0eaed6d";

/// The ids of the tree of the directory `a` with the files `b/c` and `d`, and of the root that has it.
const A_WITH_D: &[u8] = b"cd6ccc3dd14a018ceba3ecf6f471bc693c0f31d3";

const ROOT_WITH_D: &[u8] = b"9e93a904d3f6460c336f65230b296e4a27948f8e";

/// The ids of the tree of the files `b` and `c`, and of the root that has it at `a`.
const B_AND_C: &[u8] = b"902b8b41da66fef3bfdbf578a9b45304b9114c0e";

const ROOT_OF_BOTH: &[u8] = b"d79ed5c1e2ff97a59beb0fc1a1b79b68aa0be74a";

/// The number of unchanged directories that a write counts, and the trees that it emits.
type Saved = (usize, &'static [&'static [u8]]);

/// An editor of one stored file, and a script. After it a cursor at the directory `a` writes, if the row has
/// such a write, and then the editor.
struct Row {
    name: &'static str,
    stored: &'static [&'static [u8]],
    script: &'static str,
    by_a_cursor: Option<Saved>,
    by_the_editor: Saved,
}

/// The path of the stored file of most rows.
const ABC: &[&[u8]] = &[b"a", b"b", b"c"];

const ROWS: &[Row] = &[
    Row {
        name: "files-put-in-and-taken-out-1",
        stored: ABC,
        script: "upsert blob 0101010101010101010101010101010101010101 a/b/d
remove a/b/d
",
        by_a_cursor: None,
        by_the_editor: (2, &[ROOT]),
    },
    Row {
        name: "files-put-in-and-taken-out-2",
        stored: ABC,
        script: "upsert blob 0101010101010101010101010101010101010101 a/b/c
upsert blob 0101010101010101010101010101010101010101 a/d
remove a/b/none
",
        by_a_cursor: None,
        by_the_editor: (1, &[A_WITH_D, ROOT_WITH_D]),
    },
    Row {
        name: "files-put-in-and-taken-out-3",
        stored: ABC,
        script: "remove a/none
",
        by_a_cursor: None,
        by_the_editor: (1, &[ROOT]),
    },
    Row {
        name: "files-put-in-and-taken-out-4",
        stored: ABC,
        script: "upsert blob 0101010101010101010101010101010101010101 q
remove a/b/c
",
        by_a_cursor: None,
        by_the_editor: (0, &[b"0985bd2d2ac8c9c494f52be5d806e790f4fca759"]),
    },
    Row {
        name: "files-put-in-and-taken-out-5",
        stored: ABC,
        script: "upsert blob 0101010101010101010101010101010101010101 a/b/d
remove a/b/c/d
",
        by_a_cursor: None,
        by_the_editor: (
            0,
            &[
                b"913a84bc4f5451d6f909bed48c12f6c8f0f111fd",
                b"7206ab6af4e031c645838a14c5f30885db43df5e",
                b"2025f53f15ab6f7cfc8e9b8c993ff8dc56aa50aa",
            ],
        ),
    },
    // The directory of a cursor is compared with its base also after a write by the cursor.
    Row {
        name: "a-cursors-write-and-then-the-root-1",
        stored: ABC,
        script: "at a upsert blob 0101010101010101010101010101010101010101 b/c
",
        by_a_cursor: Some((1, &[A])),
        by_the_editor: (1, &[ROOT]),
    },
    Row {
        name: "a-cursors-write-and-then-the-root-2",
        stored: &[b"a", b"b"],
        script: "at a upsert blob 0101010101010101010101010101010101010101 c
",
        by_a_cursor: Some((0, &[B_AND_C])),
        by_the_editor: (0, &[B_AND_C, ROOT_OF_BOTH]),
    },
];

/// Returns whether a write by a cursor at the directory `a` is the expected one, if any is expected.
fn is_written_at_a(alloc: Global, editor: &mut Editor<Memory>, wanted: Option<Saved>) -> bool {
    let Some((saved, ids)) = wanted else {
        return true;
    };
    match cursor_of(alloc, editor, b"a") {
        Ok(mut cursor) => emits(alloc, &mut cursor, saved, ids),
        Err(_) => false,
    }
}

/// Returns whether the script of a row is run, and the writes after it are the expected ones.
fn are_written(alloc: Global, row: &Row) -> bool {
    let mut editor = or_empty(alloc, stored_file(alloc, row.stored));
    is_run(alloc, &mut editor, row.script.as_bytes())
        && is_written_at_a(alloc, &mut editor, row.by_a_cursor)
        && writes(alloc, &mut editor, row.by_the_editor.0, row.by_the_editor.1)
}

#[test]
fn emits_no_unchanged_directory(rt: HostRuntime) {
    for row in ROWS {
        assert!(rt; are_written(rt.alloc(), row), "{}", row.name);
    }
}

/// Returns whether a write emits a tree of two files by the id of the tree of the file `c`, then the unchanged
/// root, and counts one unchanged directory, if trees of two entries get that id.
fn writes_by_an_old_id(alloc: Global, editor: &mut Editor<Memory>) -> bool {
    let Some(old) = ObjectId::from_hex(C) else {
        return false;
    };
    let out = |tree: &Tree| {
        if tree.entries.len() == 2 {
            return Ok(old);
        }
        tree.compute_id(alloc, HashKind::Sha1)
    };
    let Ok(written) = editor.write(out) else {
        return false;
    };
    match written.trees.as_slice() {
        [(first, tree), (last, _)] => {
            tree.entries.len() == 2
                && *first == old
                && Some(*last) == ObjectId::from_hex(ROOT)
                && written.saved == 1
        }
        _ => false,
    }
}

/// A changed directory gets the id that its entry had, so the directory above it is unchanged.
#[test]
fn parent_is_unchanged_if_directory_gets_previous_id(rt: HostRuntime) {
    let mut editor = or_empty(rt.alloc(), stored_file(rt.alloc(), ABC));
    assert!(rt; upserted(rt.alloc(), &mut editor, b"a b d") == 0);
    assert!(rt; writes_by_an_old_id(rt.alloc(), &mut editor));
}

/// An id that isn't the digest of the tree that a store has by it.
const NO_DIGEST: ObjectId = ObjectId::Sha1([5; 20]);

/// A script that inserts the directory `a` by the id [`NO_DIGEST`].
const BY_NO_DIGEST: &[u8] = b"upsert tree 0505050505050505050505050505050505050505 a";

/// Keeps a tree of these entries by the id [`NO_DIGEST`] as the directory `a`, and inserts its file `b` again.
/// Returns whether the write after it emits these trees and counts `saved` directories.
fn saves_the_same(
    alloc: Global,
    entries: &[(EntryKind, &[u8], ObjectId)],
    saved: usize,
    ids: &[&[u8]],
) -> bool {
    let mut editor = empty_editor(alloc);
    let Ok(tree) = tree_of(alloc, entries) else {
        return false;
    };
    editor.store_mut().keep(NO_DIGEST, &tree).is_ok()
        && is_run(alloc, &mut editor, BY_NO_DIGEST)
        && upserted(alloc, &mut editor, b"a b") == 0
        && writes(alloc, &mut editor, saved, ids)
}

/// The tree of only the file `b`, and the tree that also has an entry of the null id.
const B: &[(EntryKind, &[u8], ObjectId)] = &[(EntryKind::Blob, b"b", FILE)];

const B_AND_NULL: &[(EntryKind, &[u8], ObjectId)] = &[
    (EntryKind::Blob, b"b", FILE),
    (EntryKind::Blob, b"n", NULL),
];

/// The id of the root that has the directory by [`NO_DIGEST`], and the ids of the trees that are emitted for
/// a changed directory.
const ROOT_BY_NO_DIGEST: &[u8] = b"035bbd9cefbc1db75d8da45646228e21988488fe";

const BY_DIGESTS: &[&[u8]] = &[
    b"ba0ec9c341e1d7e56243006b86ff39209e431800",
    b"c046873eb0a8741fe7a4842297bb773a1fa3198b",
];

/// A write compares trees, and not their ids. A tree with an entry of the null id is changed, since such an
/// entry is never written.
#[test]
fn compares_trees_and_not_ids(rt: HostRuntime) {
    assert!(rt; saves_the_same(rt.alloc(), B, 1, &[ROOT_BY_NO_DIGEST]));
    assert!(rt; saves_the_same(rt.alloc(), B_AND_NULL, 0, BY_DIGESTS));
}
