//! A commit, made from another one by an edit of its tree.

use super::editors::editor_of;
use bstr::BString;
use gix_object::actor::Signature;
use gix_object::hash::ObjectId;
use gix_object::tree::editor::Written;
use gix_object::tree::{EntryKind, path_names};
use gix_object::{Commit, Error, Find, FindExt, Keep, Memory, Tree};
use smallvec::SmallVec;
use std::alloc::Global;

/// Commits a file on top of `parent`. The store keeps the new trees and the commit, whose id is returned.
pub fn commit_file(
    alloc: Global,
    store: &mut Memory,
    parent: ObjectId,
    path: &[u8],
    blob: ObjectId,
    author: Signature,
    message: BString,
) -> Result<ObjectId, Error> {
    let written = edited_tree(alloc, store, parent, path, blob)?;
    for (id, tree) in &written.trees {
        store.keep(*id, tree)?;
    }
    let commit = Commit {
        tree: written.id,
        parents: SmallVec::from_array(alloc, [parent])?,
        committer: author.clone()?,
        author,
        encoding: None,
        message,
        extra_headers: Vec::new(alloc),
    };
    Ok(store.write(parent.kind(), &commit)?)
}

/// Inserts a file into the tree of a commit, and writes the edited tree.
fn edited_tree<S: Find>(
    alloc: Global,
    store: &S,
    commit: ObjectId,
    path: &[u8],
    blob: ObjectId,
) -> Result<Written, Error> {
    let mut buffer = Vec::new(alloc);
    let root = store
        .find_commit(alloc, commit.as_oid(), &mut buffer)?
        .tree();
    let mut editor = editor_of(alloc, store, root)?;
    editor.try_upsert(&path_names(alloc, path)?, EntryKind::Blob, blob)?;
    Ok(editor.write(|tree: &Tree| tree.compute_id(alloc, root.kind()))?)
}
