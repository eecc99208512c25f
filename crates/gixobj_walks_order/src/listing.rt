//! The list of selected commits.
ghost use Rattle.std.specs.Prelude.{◌≡◌, ◌<◌, ◌↔◌, ℕ, IfOk, IfErr, Contains, length};
ghost use Rattle.gixobj_walks_graph.specs.Listing.{IsListing};
ghost use Rattle.gixobj_walks_graph.specs.Numbered.{AreParentsKnown, IsMarked, graph_at};
ghost use Rattle.gixobj_walks_order.specs.Counts.{AreBelow};
ghost use Rattle.gixobj_walks_order.specs.Listed.{AreMarkedRead, AreReached, IsListError};

use crate::error::ListError;
use crate::known::is_any_marked;
use crate::state::{begin, list_next};
use gixobj_walks_graph::{Node, Order};
use std::alloc::Global;

/// Lists the selected commits in this order, from the tips on: a commit once each selected child of it is listed
/// (git-rev-list, "Commit Ordering"). Of several such commits the newest is next (`--date-order`), or a parent of the
/// commit before, if one is ready (`--topo-order`): see [`laws`](crate::laws).
///
/// Reads each commit and each mention of a parent twice. Allocates three numbers and a mark for each commit, briefly
/// one number more, and a key for each commit that waits by its date.
///
/// # Errors
///
/// - [`ListError::Cycle`] if a selected commit is an ancestor of itself
/// - [`ListError::OutOfMemory`] if an allocation failed
pub fn list_in_order(
    alloc: Global,
    nodes: &[Option<Node>],
    selected: &[bool],
    tips: &[usize],
    order: Order,
) -> Result<Vec<usize>, ListError>
    requires known { AreParentsKnown nodes.now }
    requires lengths { length selected.now ≡ length nodes.now }
    requires tips { AreBelow (length nodes.now) tips.now }
    requires read { AreMarkedRead nodes.now selected.now }
    requires reached { AreReached nodes.now selected.now tips.now }
    ensures listing { IfOk result
        (λ ids. IsListing (graph_at nodes.now) order (IsMarked selected.now) tips.now ids.items) }
    ensures exact { IfOk result (λ ids. (number : ℕ)
        → Contains ids.items number ↔ IsMarked selected.now number) }
    ensures error { IfErr result (IsListError nodes.now selected.now) }
{
    if !is_any_marked(selected) {
        return Ok(Vec::new(alloc));
    }
    let mut state = begin(alloc, nodes, selected, tips)?;
    while list_next(alloc, nodes, selected, order, &mut state)? {}
    if is_any_marked(&state.pending) {
        return Err(ListError::Cycle);
    }
    Ok(state.ids)
}
