//! Calls examples of docs/GUIDE.md over stores once. That document prints the files without their head comments.

pub mod batches;
pub mod checks;
pub mod commit_edits;
pub mod depths;
pub mod differences;
mod editors;
mod edits;
pub mod histories;
mod imports;
pub mod memories;
pub mod names;
pub mod one_error;
mod paths;
pub mod prints;
pub mod programs;
pub mod records;
mod runs;
mod stores;
pub mod tips;
mod walks;
pub mod writes;

use gix_object::hash::{Kind as HashKind, ObjectId};
use gix_object::tree::editor::{Editor, Error};
use gix_object::{Data, Exists, Kind, Memory, OutOfMemory, Tree};
use gixobj_tests_api::objects::{BLOB, FIRST, FIRST_BYTES, SECOND, SECOND_BYTES, TREE, TREE_BYTES};
use gixobj_tests_api::samples::{Row, edits_of, id, path_of, step_by};
use std::alloc::Global;

/// A store of the first commit and of the tree.
fn store(alloc: Global) -> Result<Memory, OutOfMemory> {
    let mut store = Memory::new(alloc);
    store.insert(Kind::Tree, HashKind::Sha1, TREE_BYTES)?;
    store.insert(Kind::Commit, HashKind::Sha1, FIRST_BYTES)?;
    Ok(store)
}

/// The same store. Empty if memory runs out.
fn stored(alloc: Global) -> Memory {
    store(alloc).unwrap_or(Memory::new(alloc))
}

/// A store of both commits and of the tree. It lacks objects if memory runs out.
pub fn stored_commits(alloc: Global) -> Memory {
    let mut store = stored(alloc);
    let _ = store.insert(Kind::Commit, HashKind::Sha1, SECOND_BYTES);
    store
}

/// Whether the second commit has this ancestor, or none, `generations` commits before it.
fn is_ancestor(
    alloc: Global,
    store: &stores::Overlay<'_, Memory>,
    generations: u32,
    wanted: Option<ObjectId>,
) -> bool {
    walks::ancestor(alloc, store, id(SECOND), generations).ok() == Some(wanted)
}

/// Whether the tree has the script.
fn has_script(alloc: Global, store: &stores::Overlay<'_, Memory>) -> bool {
    match paths::entry_at(alloc, store, id(TREE), b"run.sh") {
        Ok(found) => found.is_some(),
        Err(_) => false,
    }
}

/// Walks and lookups succeed in the store with the second commit added.
#[test]
fn finds_objects_in_own_store(rt: HostRuntime) {
    let alloc = rt.alloc();
    let store = stores::Overlay {
        store: stored(alloc),
        id: id(SECOND),
        object: Data::new(SECOND_BYTES, Kind::Commit, HashKind::Sha1),
    };
    assert!(rt; is_ancestor(alloc, &store, 1, Some(id(FIRST))));
    assert!(rt; is_ancestor(alloc, &store, 2, None));
    assert!(rt; has_script(alloc, &store));
}

/// Whether the editor moves a file.
fn renames(alloc: Global, editor: &mut Editor<&Memory>, from: &[&str], to: &[&str]) -> bool {
    let from = path_of(alloc, from);
    let to = path_of(alloc, to);
    edits::rename(editor, &from, &to, id(BLOB)).is_ok()
}

/// Whether the editor inserts a file into a directory.
fn fills(alloc: Global, editor: &mut Editor<&Memory>, names: &[&str], name: &[&str]) -> bool {
    let directory = path_of(alloc, names);
    let file = (path_of(alloc, name), id(BLOB));
    edits::fill(editor, &directory, &[file]).is_ok()
}

/// Whether a write returns this root and emits `count` trees.
fn writes_root(alloc: Global, editor: &mut Editor<&Memory>, root: &[u8], count: usize) -> bool {
    writes::write(alloc, editor).ok() == Some((id(root), count))
}

/// Id that `git mktree` prints for `b.txt`, `docs` and `run.sh`.
const EDITED: &[u8] = b"cb60b5d33be5a9a5d719af0c303354a83d95214a";

/// Whether the editor moves a file, inserts one into a directory, and writes the tree.
fn is_edited(alloc: Global, editor: &mut Editor<&Memory>) -> bool {
    renames(alloc, editor, &["a.txt"], &["b.txt"])
        && fills(alloc, editor, &["docs"], &["c.txt"])
        && writes_root(alloc, editor, EDITED, 2)
}

/// Whether the edits succeed on a tree of the store.
fn is_edited_in(alloc: Global, store: &Memory) -> bool {
    match editors::editor_of(alloc, store, id(TREE)) {
        Ok(mut editor) => is_edited(alloc, &mut editor),
        Err(_) => false,
    }
}

/// Whether an editor of the blob fails: the store has no such tree.
fn is_unknown_in(alloc: Global, store: &Memory) -> bool {
    match editors::editor_of(alloc, store, id(BLOB)) {
        Err(Error::FindExistingObject(_)) => true,
        _ => false,
    }
}

#[test]
fn edits_stored_tree(rt: HostRuntime) {
    let alloc = rt.alloc();
    let store = stored(alloc);
    assert!(rt; is_edited_in(alloc, &store));
    assert!(rt; is_unknown_in(alloc, &store));
}

/// Whether the edits of the rows and a write have `count` replies.
fn keeps(alloc: Global, editor: &mut Editor<Memory>, rows: &[Row], count: usize) -> bool {
    match runs::keep_edits(alloc, editor, edits_of(alloc, rows)) {
        Ok(replies) => replies.len() == count,
        Err(_) => false,
    }
}

/// A file in a directory.
const DOCS: &[Row] = &[Row::File(&["docs", "c.txt"], BLOB)];

#[test]
fn keeps_trees_of_edits(rt: HostRuntime) {
    let alloc = rt.alloc();
    let mut editor = Editor::new(Tree::empty(alloc), Memory::new(alloc), HashKind::Sha1);
    assert!(rt; keeps(alloc, &mut editor, DOCS, 2));
    let docs = id(b"2bcada35da78a7011b5497fcf851bb11e2353a39");
    assert!(rt; editor.store_mut().exists(docs.as_oid()));
}

/// Whether the tip after one step of these rows is the commit with this id.
fn is_tip_of(alloc: Global, rows: &[Row], hex: &[u8]) -> bool {
    match step_by(alloc, "A", rows) {
        Ok(step) => imports::tip(alloc, &[step]).ok() == Some(Some(id(hex))),
        Err(_) => false,
    }
}

/// `git commit-tree` prints the id of the commit.
#[test]
fn imports_step_as_commit(rt: HostRuntime) {
    let tip = b"dc974f0edc684fa3ce8096d4ba7b1bc74c83d4cf";
    assert!(rt; is_tip_of(rt.alloc(), &[Row::File(&["a.txt"], BLOB)], tip));
}
