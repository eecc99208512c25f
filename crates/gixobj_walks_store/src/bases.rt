//! Merge bases of the commits of an object store, and which commits are ancestors.
ghost use Rattle.std.specs.Prelude.{◌↔◌, ◌∷◌, [], Contains, IfErr, IfOk, IsTrue};
ghost use Rattle.gixobj_walks_graph.specs.Bases.{AreMergeBases};
ghost use Rattle.gixobj_walks_graph.specs.Graph.{IsAcyclic, Reaches};
ghost use Rattle.gixobj_walks_commits.specs.Nodes.{CommitGraph};
ghost use Rattle.gixobj_walks.specs.Newest.{AreNewestFirst};
ghost use Rattle.gixobj_walks_store.specs.Errors.{IsWalkError};

use crate::error::WalkError;
use gixobj_hash::hash::ObjectId;
use gixobj_store::Find;
use gixobj_walks::MergeBases;
use gixobj_walks_commits::find_node;
use std::alloc::Global;

/// Lists the merge bases of two commits of a store: their best common ancestors (git-merge-base, `--all`). The newest
/// one comes first, and those of equal seconds come by their ids.
///
/// Each commit that the search needs is looked up once. No commit may be an ancestor of itself.
///
/// Allocates space for each commit that is looked up and for its parents, and what the store allocates.
///
/// # Errors
///
/// - [`WalkError::Node`] with the error of the lookup of a commit that one of the two reaches
/// - [`WalkError::OutOfMemory`] if an allocation fails
pub fn merge_bases<S: Find>(
    alloc: Global,
    store: &S,
    one: ObjectId,
    other: ObjectId,
) -> Result<Vec<ObjectId>, WalkError>
    ensures bases { IfOk result (λ ids. IsAcyclic (CommitGraph (S.objects store.now))
        → AreMergeBases (CommitGraph (S.objects store.now)) one other ids.items) }
    ensures order { IfOk result (λ ids.
        AreNewestFirst (CommitGraph (S.objects store.now)) ids.items) }
    ensures error { IfErr result (IsWalkError (S.objects store.now) (S.may_fail store.now)
        (one ∷ []) (other ∷ [])) }
{
    let mut search = MergeBases::new(alloc, one, other)?;
    let mut buffer = Vec::new(alloc);
    'commits: while let Some(id) = search.next_wanted() {
        let node = find_node(alloc, store, id.as_oid(), &mut buffer)?;
        search = search.insert(alloc, &node.parents, node.seconds)?;
    }
    let ids = search.list(alloc)?;
    Ok(ids)
}

/// Tests whether a commit reaches another one, or is it (git-merge-base, `--is-ancestor`).
///
/// The other one is then the merge base of both. Looks up and allocates as [`merge_bases`].
///
/// # Errors
///
/// Those of [`merge_bases`].
pub fn is_ancestor<S: Find>(
    alloc: Global,
    store: &S,
    ancestor: ObjectId,
    commit: ObjectId,
) -> Result<bool, WalkError>
    ensures reached { IfOk result (λ is. IsAcyclic (CommitGraph (S.objects store.now))
        → IsTrue is ↔ Reaches (CommitGraph (S.objects store.now)) commit ancestor) }
    ensures error { IfErr result (IsWalkError (S.objects store.now) (S.may_fail store.now)
        (ancestor ∷ []) (commit ∷ [])) }
{
    let bases = merge_bases(alloc, store, ancestor, commit)?;
    Ok(is_listed(&bases, ancestor))
}

/// Tests whether a list has an id.
fn is_listed(ids: &[ObjectId], id: ObjectId) -> bool
    ensures { IsTrue result ↔ Contains ids.now id }
{
    ids.contains(&id)
}
