//! Writes after a failed one, and writes in which a tree gets the null id; copies of an editor. Ids are those
//! that `git mktree --missing` prints.

use crate::entries::{Got, gets_all};
use crate::samples::{
    FILE, NULL, TREE_OF_B, are_upserted, cursor_of, empty_editor, has_emitted, inserts_directory,
    removed, upserted, writes,
};
use gixobj_base::hash::{Kind as HashKind, ObjectId};
use gixobj_base::tree::EntryKind;
use gixobj_base::{Kind, Tree};
use gixobj_editor::editor::{Editor, WriteError};
use gixobj_store_keep::Memory;
use std::alloc::Global;

/// Counts a call, and answers with the id of the tree if it is the next of `ids`. Fails with the number of the
/// call if it is `last`, and with 0 for another tree or after an error.
pub(crate) fn answer(
    alloc: Global,
    calls: &mut usize,
    last: usize,
    ids: &[&[u8]],
    tree: &Tree,
) -> Result<ObjectId, usize> {
    let wanted: &[u8] = ids.get(*calls).copied().unwrap_or(b"");
    *calls = calls.saturating_add(1);
    if *calls == last {
        return Err(last);
    }
    match tree.compute_id(alloc, HashKind::Sha1) {
        Ok(id) if ObjectId::from_hex(wanted) == Some(id) => Ok(id),
        _ => Err(0),
    }
}

/// Returns whether a write fails with the closure's error in the call of this number, after calls for trees
/// of the first of these ids.
pub(crate) fn stops_at(
    alloc: Global,
    editor: &mut Editor<Memory>,
    number: usize,
    ids: &[&[u8]],
) -> bool {
    let mut calls = 0usize;
    let out = |tree: &Tree| answer(alloc, &mut calls, number, ids, tree);
    let stopped = match editor.write(out) {
        Err(WriteError::Out(call)) => call == number,
        _ => false,
    };
    stopped && calls == number
}

/// The ids of the trees of the directories `a` with the file `x` and `b` with the file `y`, and of the root.
pub(crate) const ALL_THREE: &[&[u8]] = &[
    b"0d4cdcf5c3ac13df9449741710134272e11df12e",
    b"aa7e47cc94511f4ca50a7faa60726b87e790837c",
    b"77bbb40fde4f7afc2609858ec55da053db6ba24f",
];

#[test]
fn failed_out(rt: HostRuntime) {
    let alloc = rt.alloc();
    let mut editor = empty_editor(alloc);
    assert!(rt; are_upserted(alloc, &mut editor, &[b"a x", b"b y"]));
    assert!(rt; stops_at(alloc, &mut editor, 2, ALL_THREE));
    let written = editor.try_write(&mut |tree: &Tree| tree.compute_id(alloc, HashKind::Sha1));
    assert!(rt; matches!(&written, Ok(it) if has_emitted(alloc, it, 0, ALL_THREE)));
}

/// The ids of the trees of the directories `a` with the file `x`, `b` with `y`, `c/d` with `z` and `c`, and of
/// the root.
pub(crate) const ALL_FIVE: &[&[u8]] = &[
    b"0d4cdcf5c3ac13df9449741710134272e11df12e",
    b"aa7e47cc94511f4ca50a7faa60726b87e790837c",
    b"454696ff9405b4937895f817649e1c760a885202",
    b"3906cb5db1f32691b79896648a123b2f66f57291",
    b"dee52efe74bd45860056702d892862bedc390b1b",
];

/// The open directories and the files before the write.
const UNWRITTEN: &[(&[u8], Got)] = &[
    (b"a", Got::Entry(EntryKind::Tree, NULL)),
    (b"a x", Got::Entry(EntryKind::Blob, FILE)),
    (b"b", Got::Entry(EntryKind::Tree, NULL)),
    (b"b y", Got::Entry(EntryKind::Blob, FILE)),
    (b"c", Got::Entry(EntryKind::Tree, NULL)),
    (b"c d", Got::Entry(EntryKind::Tree, NULL)),
    (b"c d z", Got::Entry(EntryKind::Blob, FILE)),
];

/// Returns whether a write that fails in the call of this number leaves the editor unchanged, and the next
/// write emits all five trees.
fn loses_nothing(alloc: Global, number: usize) -> bool {
    let mut editor = empty_editor(alloc);
    are_upserted(alloc, &mut editor, &[b"a x", b"b y", b"c d z"])
        && stops_at(alloc, &mut editor, number, ALL_FIVE)
        && gets_all(alloc, &editor, UNWRITTEN)
        && editor.lookups() == 0
        && writes(alloc, &mut editor, 0, ALL_FIVE)
}

#[test]
fn failed_out_at_each_of_five_trees(rt: HostRuntime) {
    for number in 1..=5usize {
        assert!(rt; loses_nothing(rt.alloc(), number), "{number}");
    }
}

/// Returns whether a write through a borrowed closure emits two trees, the second of them empty, if each gets
/// the null id.
fn omits_directory(editor: &mut Editor<Memory>) -> bool {
    match editor.try_write(&mut |_: &Tree| Ok::<ObjectId, u8>(NULL)) {
        Ok(written) => match written.trees.as_slice() {
            [_, (_, root)] => root.entries.is_empty(),
            _ => false,
        },
        Err(_) => false,
    }
}

#[test]
fn omits_directory_with_null_id(rt: HostRuntime) {
    let mut editor = empty_editor(rt.alloc());
    assert!(rt; upserted(rt.alloc(), &mut editor, b"a b") == 0);
    assert!(rt; omits_directory(&mut editor));
}

/// Returns whether the store of an editor is still 1 after the store of its copy is set to 2.
fn is_unchanged_after_copy(editor: &mut Editor<u8>) -> bool {
    match editor.clone() {
        Ok(mut copied) => {
            *copied.store_mut() = 2;
            *editor.store_mut() == 1 && *copied.store_mut() == 2
        }
        Err(_) => false,
    }
}

#[test]
fn store_is_unchanged_after_change_of_copy(rt: HostRuntime) {
    let mut editor = Editor::new(Tree::empty(rt.alloc()), 1u8, HashKind::Sha1);
    assert!(rt; is_unchanged_after_copy(&mut editor));
}

/// The ids of the tree of the file `e`, and of the root with the files `a/b` and `d/e`.
const OF_BOTH_DIRECTORIES: &[&[u8]] = &[
    b"f0365b6252cddd93422699165f04a60d28a3779f",
    b"5c622c7b15c7f2057a2b6842e32d963f07e3d235",
];

/// Returns whether a copy and then the editor emit the same trees, and each counts one unchanged directory
/// and one lookup.
fn save_in_both(alloc: Global, editor: &mut Editor<&Memory>) -> bool {
    match editor.clone() {
        Ok(mut copied) => {
            writes(alloc, &mut copied, 1, OF_BOTH_DIRECTORIES)
                && writes(alloc, editor, 1, OF_BOTH_DIRECTORIES)
                && copied.lookups() == 1
                && editor.lookups() == 1
        }
        Err(_) => false,
    }
}

/// Inserts the stored directory of the file `b` at `a`, opens it and leaves it unchanged, and makes the
/// directory `d` of the file `e`. Then a cursor is made at `a`. Returns whether a copy and its editor write the
/// same.
fn copies_directories(alloc: Global, store: &Memory, id: ObjectId) -> bool {
    let mut editor = Editor::new(Tree::empty(alloc), store, HashKind::Sha1);
    inserts_directory(alloc, &mut editor, b"a", id)
        && are_upserted(alloc, &mut editor, &[b"a c", b"d e"])
        && removed(alloc, &mut editor, b"a c") == 0
        && cursor_of(alloc, &mut editor, b"a").is_ok()
        && save_in_both(alloc, &mut editor)
}

/// Returns whether a copy and its editor write the same over a store of the directory of the file `b`.
fn copies_stored_directories(alloc: Global) -> bool {
    let mut store = Memory::new(alloc);
    match store.insert(Kind::Tree, HashKind::Sha1, TREE_OF_B) {
        Ok(id) => copies_directories(alloc, &store, id),
        Err(_) => false,
    }
}

/// A copy has the open directories, each with its base.
#[test]
fn copies_open_directories(rt: HostRuntime) {
    assert!(rt; copies_stored_directories(rt.alloc()));
}
