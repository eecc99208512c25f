//! Decodes a loose object.

use gix_object::decode::{LooseContentError, loose_content};
use gix_object::hash::{Kind as HashKind, ObjectId};
use gix_object::{Kind, LooseDecodeError, ObjectRef, compute_hash};
use std::alloc::Global;

/// Returns the kind, the size and the id of a loose object: `Blob`, 6 and `ce013625..` of `blob 6\0hello\n`.
pub fn shown(alloc: Global, loose: &[u8]) -> Result<(Kind, usize, ObjectId), LooseContentError> {
    let (kind, content) = loose_content(alloc, loose)?;
    Ok((
        kind,
        content.len(),
        compute_hash(HashKind::Sha1, kind, content),
    ))
}

/// Returns the tree of a loose commit or the target of a loose tag. `None` for a tree or a blob.
pub fn first_link(alloc: Global, loose: &[u8]) -> Result<Option<ObjectId>, LooseDecodeError> {
    match ObjectRef::from_loose(alloc, loose, HashKind::Sha1)? {
        ObjectRef::Commit(commit) => Ok(Some(commit.tree())),
        ObjectRef::Tag(tag) => Ok(Some(tag.target())),
        _ => Ok(None),
    }
}
