//! Commits that are decoded for walks (gitdatamodel, "commits").
ghost use Rattle.std.specs.Prelude.{ℕ, IfErr, IfOk, List};
ghost use Rattle.gixobj_walks_commits.specs.Nodes.{BeginsWithActors, IsCommitNodeError, IsNodeOf};
ghost use Rattle.gixobj_walks_commits.specs.Seconds.{HasSeconds};

use crate::seconds::seconds_of;
use gixobj_grammar::commits::is_commit;
use gixobj_hash::decode::Error;
use gixobj_hash::hash::{Kind, ObjectId};
use gixobj_hash::parse::id_of_hex;
use gixobj_parse::parse::{header_field, header_id};
use std::alloc::Global;
use std::marker::Model;

/// What a walk reads of a commit. [`commit_node`] decodes it, and [`find_node`](crate::find_node) looks it up.
#[derive(Debug, Drop)]
pub struct CommitNode {
    /// The ids of its parents, in the order of its lines.
    pub parents: Vec<ObjectId>,
    /// The seconds of its committer, as [`seconds_of`] says.
    pub seconds: u64,
}

impl Model for CommitNode {
    ghost use Rattle.gixobj_hash.specs.declared.hash.object_id.ObjectId.{ObjectId};
    ghost use Rattle.gixobj_walks_graph.specs.Graph.{NodeView};

    ghost Value = { NodeView ObjectId };

    ghost view = { λ node. record {
      parents = node.parents.items;
      seconds = node.seconds;
    } };
}

/// Decodes the parents and the committer's seconds of a commit with ids of this kind.
///
/// Each line of the commit is checked. Allocates the parents.
///
/// # Errors
///
/// - [`Error::Malformed`] if the bytes are not the encoding of a commit.
/// - [`Error::OutOfMemory`] if the parents can't be allocated.
pub fn commit_node(alloc: Global, hash_kind: Kind, bytes: &[u8]) -> Result<CommitNode, Error>
    ensures found { IfOk result (λ node. IsNodeOf hash_kind bytes.now node) }
    ensures error { IfErr result (IsCommitNodeError hash_kind bytes.now) }
{
    if !is_commit(bytes, hash_kind) {
        return Err(Error::Malformed);
    }
    let Some((_, mut rest)) = header_id(bytes, b"tree", hash_kind) else {
        unreachable!()
    };
    let mut parents = Vec::new(alloc);
    while let Some((hex, after)) = header_id(rest, b"parent", hash_kind) {
        parents.push(id_of_hex(hex))?;
        rest = after;
    }
    Ok(CommitNode {
        parents,
        seconds: committer_seconds(rest),
    })
}

/// Returns the seconds of the committer. Its line comes after the author's, at the beginning of the input.
fn committer_seconds(input: &[u8]) -> u64
    requires { (committer : List ℕ) × BeginsWithActors input.now committer }
    ensures { (committer : List ℕ) → BeginsWithActors input.now committer
        → HasSeconds committer result }
{
    let Some((_, rest)) = header_field(input, b"author") else {
        unreachable!()
    };
    let Some((line, _)) = header_field(rest, b"committer") else {
        unreachable!()
    };
    seconds_of(line)
}
