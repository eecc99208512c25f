//! Lists of selected commits.
ghost use Rattle.std.specs.Prelude.{◌<◌, IfErr, IfOk, length};
ghost use Rattle.std.specs.List.{AllByRecursion};
ghost use Rattle.gixobj_walks_graph.specs.Numbered.{graph_at};
ghost use Rattle.gixobj_walks_graph.specs.Walks.{IsWalk};
ghost use Rattle.gixobj_walks_known.specs.Known.{IsKnownGraph, IsWalkError};

use gixobj_walks_graph::{Node, Order};
use gixobj_walks_marks::{reachable, selected};
use gixobj_walks_order::{ListError, list_in_order};
use std::alloc::Global;

/// Lists the commits that a tip reaches and no hidden commit reaches, in this order (git-rev-list, `TIP.. ^HIDDEN..`,
/// `--date-order`, `--topo-order`).
///
/// Takes time linear in the commits and their parents, and for the order by date `n log n`. Allocates some numbers and
/// marks for each commit.
///
/// # Errors
///
/// - [`ListError::Cycle`] if a selected commit is an ancestor of itself
/// - [`ListError::OutOfMemory`] if an allocation fails, only where there is a commit
pub fn walk(
    alloc: Global,
    nodes: &[Option<Node>],
    tips: &[usize],
    hidden: &[usize],
    order: Order,
) -> Result<Vec<usize>, ListError>
    requires known { IsKnownGraph nodes.now }
    requires tips { AllByRecursion (λ tip. tip < length nodes.now) tips.now }
    requires hidden { AllByRecursion (λ id. id < length nodes.now) hidden.now }
    ensures walk { IfOk result
        (λ ids. IsWalk (graph_at nodes.now) order tips.now hidden.now ids.items) }
    ensures error { IfErr result (IsWalkError nodes.now tips.now hidden.now) }
{
    let left = reachable(alloc, nodes, tips)?;
    let right = reachable(alloc, nodes, hidden)?;
    let chosen = selected(alloc, &left, &right)?;
    list_in_order(alloc, nodes, &chosen, tips, order)
}
