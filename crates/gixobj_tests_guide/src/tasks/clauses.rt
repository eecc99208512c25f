//! A clause of a caller's own contract.
ghost use Rattle.std.specs.Prelude.{IfOk};
ghost use Rattle.gix_object.specs.Commit.{CommitLines, DecodesToCommit};
ghost use Rattle.gix_object.specs.Hash.{DecodesToId};

use gix_object::hash::{Kind as HashKind, ObjectId};
use gix_object::{CommitRef, decode};
use std::alloc::Global;

/// Decodes the tree of a commit. The contract says that `bytes` encodes a commit whose tree has this id.
pub fn tree_of(alloc: Global, bytes: &[u8], kind: HashKind) -> Result<ObjectId, decode::Error>
    ensures { IfOk result (λ id. (commit : CommitLines) × DecodesToCommit kind bytes.now commit
        × DecodesToId commit.tree id) }
{
    let commit = CommitRef::from_bytes(alloc, bytes, kind)?;
    Ok(commit.tree())
}
