//! Lists of the commits of an object store.
ghost use Rattle.std.specs.Prelude.{◌≡◌, [], IfErr, IfOk};
ghost use Rattle.gixobj_walks_graph.specs.Graph.{IsAcyclic};
ghost use Rattle.gixobj_walks_graph.specs.Walks.{IsWalk};
ghost use Rattle.gixobj_walks_commits.specs.Nodes.{CommitGraph};
ghost use Rattle.gixobj_walks_store.specs.Errors.{IsWalkError};

use crate::error::WalkError;
use gixobj_hash::hash::ObjectId;
use gixobj_store::Find;
use gixobj_walks::Walk;
use gixobj_walks_commits::find_node;
use gixobj_walks_graph::Order;
use std::alloc::Global;

/// Lists the commits that some tips reach and no hidden commit reaches, in this order (git-rev-list,
/// `TIP.. ^HIDDEN..`, `--date-order`, `--topo-order`).
///
/// The tips and the hidden commits are ids of commits, and may repeat; [`peel_to_commits`](crate::peel_to_commits)
/// makes commits of tags. Each commit that the walk needs is looked up once. With hidden commits the list is exact if
/// no commit is an ancestor of itself, which the digests of ids rule out.
///
/// A hidden commit that the walk needs must be readable too. Git goes on without the parents of one that it can't read.
///
/// Allocates space for each commit that is looked up and for its parents, and what the store allocates.
///
/// # Errors
///
/// - [`WalkError::Node`] with the error of the lookup of a commit that the tips or the hidden commits reach
/// - [`WalkError::Cycle`] if a commit that they reach is an ancestor of itself
/// - [`WalkError::OutOfMemory`] if an allocation fails
pub fn list_commits<S: Find>(
    alloc: Global,
    store: &S,
    tips: &[ObjectId],
    hidden: &[ObjectId],
    order: Order,
) -> Result<Vec<ObjectId>, WalkError>
    ensures walk { IfOk result (λ ids. IsAcyclic (CommitGraph (S.objects store.now))
        → IsWalk (CommitGraph (S.objects store.now)) order tips.now hidden.now ids.items) }
    ensures unhidden { IfOk result (λ ids. hidden.now ≡ []
        → IsWalk (CommitGraph (S.objects store.now)) order tips.now hidden.now ids.items) }
    ensures error { IfErr result (IsWalkError (S.objects store.now) (S.may_fail store.now)
        tips.now hidden.now) }
{
    let mut walk = Walk::new(alloc, tips, hidden)?;
    let mut buffer = Vec::new(alloc);
    'commits: while let Some(id) = walk.next_wanted() {
        let node = find_node(alloc, store, id.as_oid(), &mut buffer)?;
        walk = walk.insert(alloc, &node.parents, node.seconds)?;
    }
    let ids = walk.list(alloc, order)?;
    Ok(ids)
}
