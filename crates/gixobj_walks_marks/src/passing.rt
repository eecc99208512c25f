//! Marks that pass from a commit to its parents.
ghost use Rattle.std.specs.Prelude.{◌≡◌, ◌<◌, OnErr, OnOk, length};
ghost use Rattle.std.specs.List.{AllByRecursion};
ghost use Rattle.gixobj_walks_graph.specs.Numbered.{AreParentsKnown, IsClosed, IsMarked};
ghost use Rattle.gixobj_walks_marks.specs.Readings.{AddsStart, PassesMark};
ghost use Rattle.gixobj_walks_marks.specs.Spreading.{MarksReached};

use crate::marking::mark_reached;
use gixobj_walks_graph::Node;
use std::alloc::{AllocError, Global};

/// Marks a start and what it reaches.
pub(crate) fn mark_start(
    alloc: Global,
    nodes: &[Option<Node>],
    marked: &mut Vec<bool>,
    start: usize,
) -> Result<(), AllocError>
    requires known { AreParentsKnown nodes.now }
    requires lengths { length marked.old.items ≡ length nodes.now }
    requires start { start < length nodes.now }
    requires closed { IsClosed nodes.now marked.old.items }
    ensures added { OnOk result (AddsStart nodes.now start marked.old.items marked.new.items) }
    ensures closed { OnOk result (IsClosed nodes.now marked.new.items) }
    ensures lengths { OnOk result (length marked.new.items ≡ length marked.old.items) }
    ensures allocates { OnErr result (¬ IsMarked marked.old.items start) }
{
    mark_reached(alloc, nodes, marked, start)
}

/// Passes the mark of a commit that is being read, if it has one, to its parents and what they reach.
pub(crate) fn pass_mark(
    alloc: Global,
    nodes: &[Option<Node>],
    marked: &mut Vec<bool>,
    number: usize,
    parents: &[usize],
) -> Result<(), AllocError>
    requires known { AreParentsKnown nodes.now }
    requires lengths { length marked.old.items ≡ length nodes.now }
    requires number { number < length nodes.now }
    requires parents { AllByRecursion (λ parent. parent < length nodes.now) parents.now }
    requires closed { IsClosed nodes.now marked.old.items }
    ensures marks { OnOk result (PassesMark nodes.now number parents.now
        marked.old.items marked.new.items) }
    ensures lengths { OnOk result (length marked.new.items ≡ length marked.old.items) }
    ensures allocates { OnErr result (0 < length parents.now) }
{
    if marked[number] {
        mark_all_reached(alloc, nodes, marked, parents)
    } else {
        Ok(())
    }
}

/// Marks several commits, and what they reach.
fn mark_all_reached(
    alloc: Global,
    nodes: &[Option<Node>],
    marked: &mut [bool],
    starts: &[usize],
) -> Result<(), AllocError>
    requires known { AreParentsKnown nodes.now }
    requires lengths { length marked.old ≡ length nodes.now }
    requires starts { AllByRecursion (λ start. start < length nodes.now) starts.now }
    requires closed { IsClosed nodes.now marked.old }
    ensures reached { OnOk result (MarksReached nodes.now starts.now marked.old marked.new) }
    ensures allocates { OnErr result (0 < length starts.now) }
{
    for start in starts {
        mark_reached(alloc, nodes, marked, *start)?;
    }
    Ok(())
}
