//! Decodes a part of a commit, and no more of it than needed.

use gix_object::commit::ref_iter::Token;
use gix_object::hash::{Kind as HashKind, ObjectId};
use gix_object::{CommitRefIter, decode};
use std::alloc::Global;

/// Returns the tree of a commit. Only its first line is decoded.
pub fn tree_of(alloc: Global, bytes: &[u8]) -> Result<ObjectId, decode::Error> {
    CommitRefIter::from_bytes(alloc, bytes, HashKind::Sha1).tree_id()
}

/// Returns the first parent of a commit, if it has one.
pub fn first_parent(alloc: Global, bytes: &[u8]) -> Result<Option<ObjectId>, decode::Error> {
    for token in CommitRefIter::from_bytes(alloc, bytes, HashKind::Sha1) {
        match token? {
            Token::Parent { id } => return Ok(Some(id)),
            Token::Author { .. } => break,
            _ => {}
        }
    }
    Ok(None)
}
