//! Which commits are selected, and which are candidates for merge bases.
ghost use Rattle.std.specs.Prelude.{◌≡◌, ◌<◌, ◌↔◌, ◌∷◌, [], ℕ, Contains, IfOk, IsTrue, List, OnErr, length};
ghost use Rattle.std.specs.List.{AllByRecursion};
ghost use Rattle.std.specs.List.Sorted.{IsStrictlyIncreasing};
ghost use Rattle.gixobj_walks_graph.specs.Graph.{HasParent};
ghost use Rattle.gixobj_walks_graph.specs.Numbered.{AreParentsKnown, IsMarked, Nodes, graph_at, parents_at};
ghost use Rattle.gixobj_walks_graph.specs.Walks.{IsSelected};
ghost use Rattle.gixobj_walks_marks.specs.Chosen.{AddsMarks, HasMarkedChild, IsCandidateAt};
ghost use Rattle.gixobj_walks_marks.specs.Chosen.{IsChosen, IsShared, ListsBelow, MarksBelow};
ghost use Rattle.gixobj_walks_marks.specs.Marks.{HasMarks};
ghost use Rattle.gixobj_walks_marks.specs.Settled.{IsCandidate};

use crate::chosen::{is_chosen, push_if};
use crate::settled::no_marks;
use gixobj_walks_graph::Node;
use std::alloc::{AllocError, Global};

/// Marks the selected commits: those that the left side has, and the right side doesn't.
///
/// Allocates the marks.
///
/// # Errors
///
/// [`AllocError`] if an allocation fails.
pub fn selected(alloc: Global, left: &[bool], right: &[bool]) -> Result<Vec<bool>, AllocError>
    requires { length right.now ≡ length left.now }
    ensures length { IfOk result (λ chosen. length chosen.items ≡ length left.now) }
    ensures selected { IfOk result (λ chosen. (nodes : Nodes) (tips hidden : List ℕ)
        → HasMarks nodes tips left.now → HasMarks nodes hidden right.now
        → (number : ℕ) → IsMarked chosen.items number
        ↔ IsSelected (graph_at nodes) tips hidden number) }
    ensures allocates { OnErr result (0 < length left.now) }
{
    chosen_marks(alloc, left, right)
}

/// Marks the commits that the left side has, and the right side doesn't.
fn chosen_marks(alloc: Global, left: &[bool], right: &[bool]) -> Result<Vec<bool>, AllocError>
    requires { length right.now ≡ length left.now }
    ensures marks { IfOk result (λ chosen.
        MarksBelow (IsChosen left.now right.now) (length left.now) chosen.items) }
    ensures allocates { OnErr result (0 < length left.now) }
{
    let mut chosen = Vec::new(alloc);
    for number in 0..left.len() {
        let is = is_chosen(left, right, number);
        chosen.push(is)?;
    }
    Ok(chosen)
}

/// Lists the candidates for merge bases, ascending: the commits that both sides have, and that are no parent of another
/// such commit.
///
/// Takes time linear in the commits and their parents.
///
/// Allocates two marks for each commit, and the list.
///
/// # Errors
///
/// [`AllocError`] if an allocation fails.
pub fn candidates(
    alloc: Global,
    nodes: &[Option<Node>],
    left: &[bool],
    right: &[bool],
) -> Result<Vec<usize>, AllocError>
    requires known { AreParentsKnown nodes.now }
    requires left { length left.now ≡ length nodes.now }
    requires right { length right.now ≡ length nodes.now }
    ensures exact { IfOk result (λ found. (one other : ℕ) → HasMarks nodes.now (one ∷ []) left.now
        → HasMarks nodes.now (other ∷ []) right.now
        → (number : ℕ) → Contains found.items number
        ↔ IsCandidate (graph_at nodes.now) one other number) }
    ensures ascending { IfOk result (λ found. IsStrictlyIncreasing found.items) }
    ensures listed { IfOk result (λ found. ListsBelow (IsCandidateAt nodes.now left.now right.now)
        (length nodes.now) found.items) }
    ensures allocates { OnErr result (0 < length nodes.now) }
{
    let shared = shared_marks(alloc, left, right)?;
    let mut blocked = no_marks(alloc, nodes.len())?;
    mark_parents_of_all(nodes, &shared, &mut blocked);
    list_chosen(alloc, &shared, &blocked)
}

/// Marks the commits that both sides have.
fn shared_marks(alloc: Global, left: &[bool], right: &[bool]) -> Result<Vec<bool>, AllocError>
    requires { length right.now ≡ length left.now }
    ensures marks { IfOk result (λ shared.
        MarksBelow (IsShared left.now right.now) (length left.now) shared.items) }
    ensures allocates { OnErr result (0 < length left.now) }
{
    let mut shared = Vec::new(alloc);
    for number in 0..left.len() {
        let is = is_shared(left, right, number);
        shared.push(is)?;
    }
    Ok(shared)
}

/// Tests whether both sides have a commit.
fn is_shared(left: &[bool], right: &[bool], number: usize) -> bool
    requires left { number < length left.now }
    requires right { number < length right.now }
    ensures { IsTrue result ↔ IsShared left.now right.now number }
{
    left[number] && right[number]
}

/// Lists the commits that the left side has, and the right side doesn't, ascending.
fn list_chosen(alloc: Global, left: &[bool], right: &[bool]) -> Result<Vec<usize>, AllocError>
    requires { length right.now ≡ length left.now }
    ensures listed { IfOk result (λ found.
        ListsBelow (IsChosen left.now right.now) (length left.now) found.items) }
    ensures allocates { OnErr result (0 < length left.now) }
{
    let mut found = Vec::new(alloc);
    for number in 0..left.len() {
        let is = is_chosen(left, right, number);
        push_if(&mut found, number, is)?;
    }
    Ok(found)
}

/// Marks the parents of the commits of a side.
fn mark_parents_of_all(nodes: &[Option<Node>], side: &[bool], marked: &mut Vec<bool>)
    requires known { AreParentsKnown nodes.now }
    requires side { length side.now ≡ length nodes.now }
    requires marked { length marked.old.items ≡ length nodes.now }
    ensures { AddsMarks (HasMarkedChild nodes.now side.now (length nodes.now)) marked.old.items
        marked.new.items }
{
    for number in 0..nodes.len() {
        mark_parents_of(nodes, side, marked, number);
    }
}

/// Marks the parents of a commit, if the side has it.
fn mark_parents_of(nodes: &[Option<Node>], side: &[bool], marked: &mut Vec<bool>, number: usize)
    requires known { AreParentsKnown nodes.now }
    requires number { number < length nodes.now }
    requires side { length side.now ≡ length nodes.now }
    requires marked { length marked.old.items ≡ length nodes.now }
    ensures { AddsMarks
        (λ parent. IsMarked side.now number × HasParent (graph_at nodes.now) number parent)
        marked.old.items marked.new.items }
{
    if !side[number] {
        return;
    }
    mark_known_parents(nodes, marked, number);
}

/// Marks the parents of a commit, if it is read.
fn mark_known_parents(nodes: &[Option<Node>], marked: &mut Vec<bool>, number: usize)
    requires known { AreParentsKnown nodes.now }
    requires number { number < length nodes.now }
    requires marked { length marked.old.items ≡ length nodes.now }
    ensures { AddsMarks (Contains (parents_at nodes.now number)) marked.old.items marked.new.items }
{
    match &nodes[number] {
        Some(node) => mark_numbers(marked, &node.parents),
        None => {}
    }
}

/// Marks these numbers.
fn mark_numbers(marked: &mut Vec<bool>, numbers: &[usize])
    requires { AllByRecursion (λ number. number < length marked.old.items) numbers.now }
    ensures { AddsMarks (Contains numbers.now) marked.old.items marked.new.items }
{
    for number in numbers {
        marked[*number] = true;
    }
}
