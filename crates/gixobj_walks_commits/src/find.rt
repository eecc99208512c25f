//! Lookups of commits in an object store.
ghost use Rattle.std.specs.Prelude.{IfErr, IfOk};
ghost use Rattle.gixobj_hash.specs.Hash.Borrowed.{borrowed_id};
ghost use Rattle.gixobj_walks_commits.specs.Nodes.{CommitGraph, IsFindNodeError};

use crate::error::NodeError;
use crate::node::{CommitNode, commit_node};
use gixobj_hash::Kind;
use gixobj_hash::hash::oid;
use gixobj_store::Find;
use std::alloc::Global;

/// Looks up the commit that `id` names, and decodes its parents and its committer's seconds.
///
/// The object's bytes are written to `buffer`, which may hold any bytes afterwards. Allocates the parents, and
/// what the store allocates.
///
/// # Errors
///
/// Each error has the id.
///
/// - [`NodeError::Find`] with the error of the lookup if it fails.
/// - [`NodeError::NotFound`] if `id` names no object.
/// - [`NodeError::ObjectKind`] with the kind of the object if it is not a commit.
/// - [`NodeError::Decode`] if the object is a malformed commit, or if its parents can't be allocated.
pub fn find_node<S: Find>(
    alloc: Global,
    store: &S,
    id: oid<'_>,
    buffer: &mut Vec<u8>,
) -> Result<CommitNode, NodeError>
    ensures found { IfOk result (λ node. CommitGraph (S.objects store.now) (borrowed_id id.entry)
        node) }
    ensures error { IfErr result (IsFindNodeError (S.objects store.now) (S.may_fail store.now)
        (borrowed_id id.entry)) }
{
    let oid = id.to_owned();
    let it = match store.try_find(id, buffer) {
        Ok(Some(it)) => it,
        Ok(None) => return Err(NodeError::NotFound { oid }),
        Err(source) => return Err(NodeError::Find { oid, source }),
    };
    match it.kind {
        Kind::Commit => match commit_node(alloc, it.object_hash, it.bytes) {
            Ok(node) => Ok(node),
            Err(source) => Err(NodeError::Decode { oid, source }),
        },
        actual => Err(NodeError::ObjectKind { oid, actual }),
    }
}
