//! Marks of what a commit reaches.
ghost use Rattle.std.specs.Prelude.{◌≡◌, ◌<◌, ◌↔◌, ◌⊎◌, ℕ, OnErr, OnOk, length, ◌∷◌, []};
ghost use Rattle.std.specs.List.{AllByRecursion};
ghost use Rattle.gixobj_walks_graph.specs.Graph.{Reaches};
ghost use Rattle.gixobj_walks_graph.specs.Numbered.{AreParentsKnown, IsClosed, IsMarked, graph_at, parents_at};
ghost use Rattle.gixobj_walks_marks.specs.Spreading.{Spreads};

use gixobj_walks_graph::Node;
use std::alloc::{AllocError, Global};

/// Marks a commit and its ancestors, as far as they are read.
///
/// The marks must be closed: each parent of a marked commit that is read is marked. They are closed after the call too.
/// Each commit is entered once, in time linear in the commits that become marked and their parents.
///
/// Allocates a stack of at most as many numbers as become marked, and nothing for a commit that is marked already.
///
/// # Errors
///
/// [`AllocError`] if an allocation fails. Then some of the commits are marked.
pub fn mark_reached(
    alloc: Global,
    nodes: &[Option<Node>],
    marked: &mut [bool],
    from: usize,
) -> Result<(), AllocError>
    requires known { AreParentsKnown nodes.now }
    requires lengths { length marked.old ≡ length nodes.now }
    requires from { from < length nodes.now }
    requires closed { IsClosed nodes.now marked.old }
    ensures reached { OnOk result ((number : ℕ) → IsMarked marked.new number
        ↔ (IsMarked marked.old number ⊎ Reaches (graph_at nodes.now) from number)) }
    ensures closed { OnOk result (IsClosed nodes.now marked.new) }
    ensures allocates { OnErr result (¬ IsMarked marked.old from) }
{
    if marked[from] {
        return Ok(());
    }
    let mut stack = Vec::new(alloc);
    mark(marked, &mut stack, from)?;
    while let Some(number) = stack.pop() {
        mark_parents(nodes, marked, &mut stack, number)?;
    }
    Ok(())
}

/// Marks the parents of a commit, if it is read.
fn mark_parents(
    nodes: &[Option<Node>],
    marked: &mut [bool],
    stack: &mut Vec<usize>,
    number: usize,
) -> Result<(), AllocError>
    requires known { AreParentsKnown nodes.now }
    requires lengths { length marked.old ≡ length nodes.now }
    requires number { number < length nodes.now }
    ensures { OnOk result (Spreads (parents_at nodes.now number) marked.old marked.new
        stack.old.items stack.new.items) }
{
    match &nodes[number] {
        Some(node) => mark_each(marked, stack, &node.parents),
        None => Ok(()),
    }
}

/// Marks commits, and pushes those that were not marked on the stack.
fn mark_each(
    marked: &mut [bool],
    stack: &mut Vec<usize>,
    numbers: &[usize],
) -> Result<(), AllocError>
    requires { AllByRecursion (λ number. number < length marked.old) numbers.now }
    ensures { OnOk result (Spreads numbers.now marked.old marked.new
        stack.old.items stack.new.items) }
{
    for number in numbers {
        mark(marked, stack, *number)?;
    }
    Ok(())
}

/// Marks a commit, and pushes it on the stack if it was not marked.
fn mark(marked: &mut [bool], stack: &mut Vec<usize>, number: usize) -> Result<(), AllocError>
    requires { number < length marked.old }
    ensures { OnOk result (Spreads (number ∷ []) marked.old marked.new
        stack.old.items stack.new.items) }
{
    if !marked[number] {
        marked[number] = true;
        stack.push(number)?;
    }
    Ok(())
}
