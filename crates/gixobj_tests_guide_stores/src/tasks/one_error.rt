//! One error type for a tool.

use super::editors::editor_of;
use gix_object::hash::{Kind as HashKind, ObjectId};
use gix_object::tree::{EntryKind, path_names};
use gix_object::{Error, Find, FindExt, Tree};
use std::alloc::Global;

/// Inserts a file into the tree of a commit. Returns the id of the written tree.
pub fn tree_with<S: Find>(
    alloc: Global,
    store: &S,
    commit: ObjectId,
    path: &[u8],
    blob: ObjectId,
) -> Result<ObjectId, Error> {
    let mut buffer = Vec::new(alloc);
    let mut tokens = store.find_commit_iter(alloc, commit.as_oid(), &mut buffer)?;
    let mut editor = editor_of(alloc, store, tokens.tree_id()?)?;
    editor.try_upsert(&path_names(alloc, path)?, EntryKind::Blob, blob)?;
    let out = |tree: &Tree| tree.compute_id(alloc, HashKind::Sha1);
    Ok(editor.write(out)?.id)
}

/// An error of the tool: one of the crate, or its own.
#[derive(Debug, Drop, thiserror::Error)]
pub enum ToolError {
    #[error("{0}")]
    Object(#[from] Error),
    #[error("the file has no name")]
    NoName,
}

/// Inserts a file as [`tree_with`] does. Fails if its path ends with a slash.
pub fn tree_with_named<S: Find>(
    alloc: Global,
    store: &S,
    commit: ObjectId,
    path: &[u8],
    blob: ObjectId,
) -> Result<ObjectId, ToolError> {
    match path.last() {
        Some(b'/') | None => Err(ToolError::NoName),
        Some(_) => Ok(tree_with(alloc, store, commit, path, blob)?),
    }
}
