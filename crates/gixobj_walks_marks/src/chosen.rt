//! What marks of two sides say of commits.
ghost use Rattle.std.specs.Prelude.{◌≡◌, ◌<◌, ◌↔◌, ◌++◌, ◌∷◌, [], ℕ, Contains, IfOk, IsTrue, OnErr, OnOk};
ghost use Rattle.std.specs.Prelude.{if◌then◌else◌, length};
ghost use Rattle.std.specs.List.{AllByRecursion};
ghost use Rattle.gixobj_walks_graph.specs.Numbered.{AreParentsKnown, IsMarked};
ghost use Rattle.gixobj_walks_marks.specs.Chosen.{AreWantedMarked, IsBottomAt, IsChosen, IsWantedAt, ListsBelow};

use gixobj_walks_graph::Node;
use std::alloc::{AllocError, Global};

/// Tests whether the left side has a commit, and the right side doesn't. Allocates nothing.
pub fn is_chosen(left: &[bool], right: &[bool], number: usize) -> bool
    requires left { number < length left.now }
    requires right { number < length right.now }
    ensures { IsTrue result ↔ IsChosen left.now right.now number }
{
    left[number] && !right[number]
}

/// Tests whether one of the sides has a commit that is not read.
fn is_wanted(nodes: &[Option<Node>], left: &[bool], right: &[bool], number: usize) -> bool
    requires number { number < length nodes.now }
    requires left { length left.now ≡ length nodes.now }
    requires right { length right.now ≡ length nodes.now }
    ensures { IsTrue result ↔ IsWantedAt nodes.now left.now right.now number }
{
    match &nodes[number] {
        Some(_) => false,
        None => left[number] || right[number],
    }
}

/// Tests whether each unread commit that either side has is marked.
pub(crate) fn are_wanted_marked(
    nodes: &[Option<Node>],
    left: &[bool],
    right: &[bool],
    marked: &[bool],
) -> bool
    requires left { length left.now ≡ length nodes.now }
    requires right { length right.now ≡ length nodes.now }
    requires marked { length marked.now ≡ length nodes.now }
    ensures { IsTrue result ↔ AreWantedMarked nodes.now left.now right.now marked.now }
{
    for number in 0..nodes.len() {
        if is_missed(nodes, left, right, marked, number) {
            return false;
        }
    }
    true
}

/// Tests whether one of the sides has a commit that is neither read nor marked.
fn is_missed(
    nodes: &[Option<Node>],
    left: &[bool],
    right: &[bool],
    marked: &[bool],
    number: usize,
) -> bool
    requires number { number < length nodes.now }
    requires left { length left.now ≡ length nodes.now }
    requires right { length right.now ≡ length nodes.now }
    requires marked { length marked.now ≡ length nodes.now }
    ensures { IsTrue result
        ↔ (IsWantedAt nodes.now left.now right.now number × (¬ IsMarked marked.now number)) }
{
    is_wanted(nodes, left, right, number) && !marked[number]
}

/// Tests whether a chosen commit is read and has no chosen parent.
fn is_bottom(nodes: &[Option<Node>], left: &[bool], right: &[bool], number: usize) -> bool
    requires known { AreParentsKnown nodes.now }
    requires number { number < length nodes.now }
    requires left { length left.now ≡ length nodes.now }
    requires right { length right.now ≡ length nodes.now }
    ensures { IsTrue result ↔ IsBottomAt nodes.now left.now right.now number }
{
    match &nodes[number] {
        Some(node) => is_last(left, right, number, &node.parents),
        None => false,
    }
}

/// Tests whether a commit is chosen, and none of its parents is.
fn is_last(left: &[bool], right: &[bool], number: usize, parents: &[usize]) -> bool
    requires number { number < length left.now }
    requires right { length right.now ≡ length left.now }
    requires parents { AllByRecursion (λ parent. parent < length left.now) parents.now }
    ensures { IsTrue result ↔ (IsChosen left.now right.now number
        × ((parent : ℕ) → Contains parents.now parent → ¬ IsChosen left.now right.now parent)) }
{
    is_chosen(left, right, number) && is_none_chosen(left, right, parents)
}

/// Tests whether none of the commits is chosen.
fn is_none_chosen(left: &[bool], right: &[bool], numbers: &[usize]) -> bool
    requires right { length right.now ≡ length left.now }
    requires numbers { AllByRecursion (λ number. number < length left.now) numbers.now }
    ensures { IsTrue result ↔ ((number : ℕ) → Contains numbers.now number
        → ¬ IsChosen left.now right.now number) }
{
    for number in numbers {
        if is_chosen(left, right, *number) {
            return false;
        }
    }
    true
}

/// Lists the bottoms, ascending.
pub(crate) fn bottoms(
    alloc: Global,
    nodes: &[Option<Node>],
    left: &[bool],
    right: &[bool],
) -> Result<Vec<usize>, AllocError>
    requires known { AreParentsKnown nodes.now }
    requires left { length left.now ≡ length nodes.now }
    requires right { length right.now ≡ length nodes.now }
    ensures listed { IfOk result (λ found. ListsBelow (IsBottomAt nodes.now left.now right.now)
        (length nodes.now) found.items) }
    ensures allocates { OnErr result (0 < length nodes.now) }
{
    let mut found = Vec::new(alloc);
    for number in 0..nodes.len() {
        let is = is_bottom(nodes, left, right, number);
        push_if(&mut found, number, is)?;
    }
    Ok(found)
}

/// Appends a number if a test is true.
pub(crate) fn push_if(found: &mut Vec<usize>, number: usize, is: bool) -> Result<(), AllocError>
    ensures { OnOk result (found.new.items
        ≡ (if is then (found.old.items ++ number ∷ []) else found.old.items)) }
{
    if is {
        found.push(number)?;
    }
    Ok(())
}
