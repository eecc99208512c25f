//! Functions that several tests call: paths, trees and editors, and results reduced to a value.

use bstr::BString;
use gixobj_base::hash::{Kind as HashKind, ObjectId};
use gixobj_base::tree::{Entry, EntryKind};
use gixobj_base::{Kind, Tree, WriteTo, encode};
use gixobj_cli_edit::edit_on;
use gixobj_editor::editor::{Cursor, Editor, Error, WriteError, Written};
use gixobj_store::Find;
use gixobj_store_keep::{Keep, Memory};
use std::alloc::{AllocError, Global};

pub(crate) const FILE: ObjectId = ObjectId::Sha1([1; 20]);

pub(crate) const NULL: ObjectId = ObjectId::Sha1([0; 20]);

/// The encoding of the tree of only the file `b`.
pub(crate) const TREE_OF_B: &[u8] =
    b"100644 b\0\x01\x01\x01\x01\x01\x01\x01\x01\x01\x01\x01\x01\x01\x01\x01\x01\x01\x01\x01\x01";

/// The number of [`Error::OutOfMemory`].
pub(crate) const OUT_OF_MEMORY: u8 = 6;

/// The number for a call that isn't made, since the allocation of its path failed.
pub(crate) const NOT_CALLED: u8 = 9;

/// Builds a path of the names between spaces; `.` alone is the empty path.
pub(crate) fn path_of(alloc: Global, names: &[u8]) -> Result<Vec<BString>, AllocError> {
    let mut path = Vec::new(alloc);
    if names == b".".as_slice() {
        return Ok(path);
    }
    for name in names.split(|byte| *byte == b' ') {
        path.push(BString::from_slice(alloc, name)?)?;
    }
    Ok(path)
}

/// Builds a tree of these entries.
pub(crate) fn tree_of(
    alloc: Global,
    entries: &[(EntryKind, &[u8], ObjectId)],
) -> Result<Tree, AllocError> {
    let mut tree = Tree::empty(alloc);
    for (kind, name, oid) in entries {
        let filename = BString::from_slice(alloc, name)?;
        tree.entries.push(Entry {
            mode: (*kind).into(),
            filename,
            oid: *oid,
        })?;
    }
    Ok(tree)
}

/// Stores a tree, and returns its id, or `None` if that fails.
pub(crate) fn stored(alloc: Global, store: &mut Memory, tree: &Tree) -> Option<ObjectId> {
    let mut encoding = Vec::new(alloc);
    match tree.write_to(alloc, &mut encoding) {
        Ok(()) => store.insert(Kind::Tree, HashKind::Sha1, &encoding).ok(),
        Err(_) => None,
    }
}

pub(crate) fn empty_editor(alloc: Global) -> Editor<Memory> {
    Editor::new(Tree::empty(alloc), Memory::new(alloc), HashKind::Sha1)
}

/// Returns the editor, or an empty one if it can't be allocated.
pub(crate) fn or_empty(alloc: Global, editor: Option<Editor<Memory>>) -> Editor<Memory> {
    match editor {
        Some(editor) => editor,
        None => empty_editor(alloc),
    }
}

/// Stores each tree on the path of these names to one file, and returns the root.
fn stored_path(alloc: Global, store: &mut Memory, names: &[&[u8]]) -> Option<Tree> {
    let (mut kind, mut id) = (EntryKind::Blob, FILE);
    let mut root = Tree::empty(alloc);
    for name in names.iter().rev() {
        root = tree_of(alloc, &[(kind, *name, id)]).ok()?;
        id = stored(alloc, store, &root)?;
        kind = EntryKind::Tree;
    }
    Some(root)
}

/// Returns an editor of only one file at the path of these names, with stored directories; `None` if an
/// allocation fails.
pub(crate) fn stored_file(alloc: Global, names: &[&[u8]]) -> Option<Editor<Memory>> {
    let mut store = Memory::new(alloc);
    let root = stored_path(alloc, &mut store, names)?;
    if !root.is_well_formed() {
        return None;
    }
    Some(Editor::new(root, store, HashKind::Sha1))
}

/// Returns the number of an error.
fn number(error: &Error) -> u8 {
    match error {
        Error::EmptyPathComponent => 1,
        Error::SlashInPathComponent => 2,
        Error::FindExistingObject(_) => 3,
        Error::CannotRemoveNonLeaf { .. } => 4,
        Error::MalformedTree => 5,
        Error::OutOfMemory => OUT_OF_MEMORY,
    }
}

/// Returns the number of the error of a call, or 0 for success.
pub(crate) fn number_of(answer: &Result<(), Error>) -> u8 {
    match answer {
        Ok(()) => 0,
        Err(error) => number(error),
    }
}

/// Inserts the file at a path, and returns the number of the error or 0.
pub(crate) fn upserted<S: Find>(alloc: Global, editor: &mut Editor<S>, path: &[u8]) -> u8 {
    match path_of(alloc, path) {
        Ok(path) => number_of(&editor.try_upsert(&path, EntryKind::Blob, FILE)),
        Err(_) => NOT_CALLED,
    }
}

/// Inserts a directory by its id, and returns whether that succeeds.
pub(crate) fn inserts_directory<S: Find>(
    alloc: Global,
    editor: &mut Editor<S>,
    path: &[u8],
    id: ObjectId,
) -> bool {
    match path_of(alloc, path) {
        Ok(path) => editor.try_upsert(&path, EntryKind::Tree, id).is_ok(),
        Err(_) => false,
    }
}

/// Removes the entry at a path, and returns the number of the error or 0.
pub(crate) fn removed<S: Find>(alloc: Global, editor: &mut Editor<S>, path: &[u8]) -> u8 {
    match path_of(alloc, path) {
        Ok(path) => number_of(&editor.try_remove(&path)),
        Err(_) => NOT_CALLED,
    }
}

/// Inserts the file at each of these paths, and returns whether that succeeds.
pub(crate) fn are_upserted<S: Find>(
    alloc: Global,
    editor: &mut Editor<S>,
    paths: &[&[u8]],
) -> bool {
    for path in paths {
        if upserted(alloc, editor, path) != 0 {
            return false;
        }
    }
    true
}

/// Returns a cursor at a directory, or the number of the error.
pub(crate) fn cursor_of<'a, S: Find>(
    alloc: Global,
    editor: &'a mut Editor<S>,
    directory: &[u8],
) -> Result<Cursor<'a, S>, u8> {
    let Ok(directory) = path_of(alloc, directory) else {
        return Err(NOT_CALLED);
    };
    match editor.cursor_at(&directory) {
        Ok(cursor) => Ok(cursor),
        Err(error) => Err(number(&error)),
    }
}

/// Inserts the file at a path from a cursor, and returns the number of the error or 0.
pub(crate) fn upserted_by<S: Find>(alloc: Global, cursor: &mut Cursor<'_, S>, path: &[u8]) -> u8 {
    match path_of(alloc, path) {
        Ok(path) => number_of(&cursor.try_upsert(&path, EntryKind::Blob, FILE)),
        Err(_) => NOT_CALLED,
    }
}

/// Runs a script on an editor, and returns whether it has a report.
pub(crate) fn is_run<S: Keep>(alloc: Global, editor: &mut Editor<S>, script: &[u8]) -> bool {
    let out = |tree: &Tree| tree.compute_id(alloc, HashKind::Sha1);
    edit_on(alloc, editor, script, HashKind::Sha1, out).is_ok()
}

/// Returns whether each tree was emitted with the id at its position, and the id is that of its encoding.
fn are_named(alloc: Global, trees: &[(ObjectId, Tree)], ids: &[&[u8]]) -> bool {
    for ((id, tree), hex) in trees.iter().zip(ids) {
        let computed = tree.compute_id(alloc, HashKind::Sha1).ok();
        if computed != Some(*id) || computed != ObjectId::from_hex(hex) {
            return false;
        }
    }
    true
}

/// Returns whether trees of these ids were emitted in this order, the last has the id of the write, and
/// `saved` unchanged directories were counted.
pub(crate) fn has_emitted(alloc: Global, written: &Written, saved: usize, ids: &[&[u8]]) -> bool {
    let is_last = match written.trees.last() {
        Some((id, _)) => *id == written.id,
        None => false,
    };
    is_last
        && written.saved == saved
        && written.trees.len() == ids.len()
        && are_named(alloc, written.trees.as_slice(), ids)
}

/// Writes the editor.
pub(crate) fn written<S>(
    alloc: Global,
    editor: &mut Editor<S>,
) -> Result<Written, WriteError<encode::Error>> {
    editor.write(|tree: &Tree| tree.compute_id(alloc, HashKind::Sha1))
}

/// Returns whether a write calls the closure for trees of these ids only, emits them, and counts `saved`
/// unchanged directories.
pub(crate) fn writes<S>(
    alloc: Global,
    editor: &mut Editor<S>,
    saved: usize,
    ids: &[&[u8]],
) -> bool {
    let mut calls = 0usize;
    let out = |tree: &Tree| {
        calls = calls.saturating_add(1);
        tree.compute_id(alloc, HashKind::Sha1)
    };
    let is_reported = match editor.write(out) {
        Ok(written) => has_emitted(alloc, &written, saved, ids),
        Err(_) => false,
    };
    is_reported && calls == ids.len()
}

/// Returns whether a write by a cursor emits trees of these ids in this order, its written tree last, and
/// counts `saved` unchanged directories.
pub(crate) fn emits<S>(
    alloc: Global,
    cursor: &mut Cursor<'_, S>,
    saved: usize,
    ids: &[&[u8]],
) -> bool {
    match cursor.write(|tree: &Tree| tree.compute_id(alloc, HashKind::Sha1)) {
        Ok(written) => has_emitted(alloc, &written, saved, ids),
        Err(_) => false,
    }
}

/// Returns whether a write emitted `count` trees, the last of this id.
pub(crate) fn has_id_and_count(written: &Written, id: &str, count: usize) -> bool {
    ObjectId::from_hex(id.as_bytes()) == Some(written.id) && written.trees.len() == count
}
