//! Merge bases, and which commits are ancestors.
ghost use Rattle.std.specs.Prelude.{◌<◌, ◌↔◌, IfOk, IsTrue, length};
ghost use Rattle.std.specs.List.Sorted.{IsStrictlyIncreasing};
ghost use Rattle.gixobj_walks_graph.specs.Bases.{AreMergeBases};
ghost use Rattle.gixobj_walks_graph.specs.Graph.{Reaches};
ghost use Rattle.gixobj_walks_graph.specs.Numbered.{AreParentsKnown, graph_at};
ghost use Rattle.gixobj_walks_known.specs.Known.{IsKnownGraph};

use gixobj_walks_graph::Node;
use gixobj_walks_marks::{candidates, reachable};
use std::alloc::{AllocError, Global};

/// Lists the merge bases of two commits, ascending: the best common ancestors (git-merge-base, `--all`).
///
/// Takes time linear in the commits and their parents. Allocates some marks for each commit, and the list.
///
/// # Errors
///
/// [`AllocError`] if an allocation fails.
pub fn merge_bases(
    alloc: Global,
    nodes: &[Option<Node>],
    one: usize,
    other: usize,
) -> Result<Vec<usize>, AllocError>
    requires known { IsKnownGraph nodes.now }
    requires one { one < length nodes.now }
    requires other { other < length nodes.now }
    ensures bases { IfOk result
        (λ ids. AreMergeBases (graph_at nodes.now) one other ids.items) }
    ensures ascending { IfOk result (λ ids. IsStrictlyIncreasing ids.items) }
{
    let left = reachable(alloc, nodes, &[one])?;
    let right = reachable(alloc, nodes, &[other])?;
    candidates(alloc, nodes, &left, &right)
}

/// Tests whether a commit reaches another one, or is it (git-merge-base, `--is-ancestor`).
///
/// Takes time linear in the commits and their parents. Allocates a mark for each commit, and a stack.
///
/// # Errors
///
/// [`AllocError`] if an allocation fails.
pub fn is_ancestor(
    alloc: Global,
    nodes: &[Option<Node>],
    ancestor: usize,
    commit: usize,
) -> Result<bool, AllocError>
    requires known { AreParentsKnown nodes.now }
    requires ancestor { ancestor < length nodes.now }
    requires commit { commit < length nodes.now }
    ensures { IfOk result (λ is. IsTrue is ↔ Reaches (graph_at nodes.now) commit ancestor) }
{
    let marks = reachable(alloc, nodes, &[commit])?;
    Ok(marks[ancestor])
}
