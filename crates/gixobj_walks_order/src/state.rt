//! A list that is being made.
ghost use Rattle.std.specs.Prelude.{◌≡◌, ◌<◌, IfOk, OnOk, MatchBool, length};
ghost use Rattle.gixobj_walks_graph.specs.Numbered.{AreParentsKnown};
ghost use Rattle.gixobj_walks_order.specs.Counts.{AreBelow};
ghost use Rattle.gixobj_walks_order.specs.Listed.{AreMarkedRead, AreReached};
ghost use Rattle.gixobj_walks_order.specs.Progress.{IsFirst, IsLast, IsState, ListsNext};

use crate::children::{count_children, first_ready, release_parents};
use crate::known::parents_of;
use crate::queue::{Queue, count, insert_all_by_date, join, take_next};
use gixobj_walks_graph::{Node, Order};
use std::alloc::{AllocError, Global};
use std::collections::BTreeSet;

/// A list that is being made of selected commits.
#[derive(Drop)]
pub(crate) struct State {
    /// Of each commit, how many selected children aren't listed.
    pub(crate) counts: Vec<usize>,
    /// For each commit the position of its last listed child, counted from 1.
    pub(crate) stamps: Vec<usize>,
    /// Which commits are selected and not listed.
    pub(crate) pending: Vec<bool>,
    /// The commits that are ready and not listed.
    pub(crate) queue: Queue,
    /// The list.
    pub(crate) ids: Vec<usize>,
}

/// Begins a list: no commit is listed, and the tips that are ready wait.
pub(crate) fn begin(
    alloc: Global,
    nodes: &[Option<Node>],
    selected: &[bool],
    tips: &[usize],
) -> Result<State, AllocError>
    requires known { AreParentsKnown nodes.now }
    requires lengths { length selected.now ≡ length nodes.now }
    requires tips { AreBelow (length nodes.now) tips.now }
    requires read { AreMarkedRead nodes.now selected.now }
    requires reached { AreReached nodes.now selected.now tips.now }
    ensures state { IfOk result (IsState nodes.now selected.now) }
    ensures first { IfOk result (λ state. IsFirst nodes.now selected.now tips.now state) }
{
    let counts = count_children(alloc, nodes, selected)?;
    let ready = first_ready(alloc, selected, &counts, tips)?;
    let mut dated = BTreeSet::new(alloc);
    insert_all_by_date(&mut dated, nodes, &ready, 0)?;
    Ok(State {
        counts,
        stamps: vec![in alloc; 0usize; nodes.len()]?,
        pending: Vec::from_slice(alloc, selected)?,
        queue: Queue {
            dated,
            found: Vec::new(alloc),
        },
        ids: Vec::new(alloc),
    })
}

/// Lists the next commit, if one waits.
pub(crate) fn list_next(
    alloc: Global,
    nodes: &[Option<Node>],
    selected: &[bool],
    order: Order,
    state: &mut State,
) -> Result<bool, AllocError>
    requires known { AreParentsKnown nodes.now }
    requires lengths { length selected.now ≡ length nodes.now }
    requires read { AreMarkedRead nodes.now selected.now }
    requires state { IsState nodes.now selected.now state.old }
    ensures state { OnOk result (IsState nodes.now selected.now state.new) }
    ensures listed { IfOk result (λ more. MatchBool more
        (ListsNext nodes.now selected.now order state.old state.new) (IsLast state.old state.new)) }
{
    let Some(number) = take_next(&mut state.queue) else {
        return Ok(false);
    };
    state.ids.push(number)?;
    state.pending[number] = false;
    let stamp = state.ids.len();
    let parents = parents_of(nodes, number);
    let ready = release_parents(
        alloc,
        selected,
        &mut state.counts,
        &mut state.stamps,
        parents,
        stamp,
    )?;
    let joined = count(&state.ids) + state.queue.dated.len() + count(&state.queue.found);
    join(&mut state.queue, nodes, order, &ready, joined)?;
    Ok(true)
}
