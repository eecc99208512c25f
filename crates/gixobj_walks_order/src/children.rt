//! Counts of the children that aren't listed yet.
ghost use Rattle.std.specs.Prelude.{◌≡◌, ◌+◌, ◌<◌, ◌≤◌, ℕ, true, IfOk, OnOk, length, slice_index, if◌then◌else◌, []};
ghost use Rattle.gixobj_walks_graph.specs.Numbered.{AreParentsKnown};
ghost use Rattle.gixobj_walks_order.specs.Counts.{AreBelow, first_tips, freed_parents, is_named, pending_children};

use crate::known::parents_of;
use gixobj_walks_graph::Node;
use std::alloc::{AllocError, Global};

/// Counts one more child for each of these parents, once for a repeated one: its stamp says that it is counted.
pub(crate) fn count_child(
    counts: &mut [usize],
    stamps: &mut [usize],
    parents: &[usize],
    stamp: usize,
)
    requires lengths { length stamps.old ≡ length counts.old }
    requires known { AreBelow (length counts.old) parents.now }
    requires unseen { AreBelow stamp stamps.old }
    requires small { AreBelow stamp counts.old }
    ensures counted { (number : ℕ) → number < length counts.old → slice_index counts.new number
        ≡ slice_index counts.old number + (if is_named number parents.now then 1 else 0) }
    ensures seen { AreBelow (stamp + 1) stamps.new }
    ensures small { AreBelow (stamp + 1) counts.new }
{
    for parent in parents {
        let parent = *parent;
        if stamps[parent] != stamp {
            stamps[parent] = stamp;
            counts[parent] += 1;
        }
    }
}

/// Counts the pending children of each commit.
pub(crate) fn count_children(
    alloc: Global,
    nodes: &[Option<Node>],
    pending: &[bool],
) -> Result<Vec<usize>, AllocError>
    requires known { AreParentsKnown nodes.now }
    requires lengths { length pending.now ≡ length nodes.now }
    ensures len { IfOk result (λ counts. length counts.items ≡ length nodes.now) }
    ensures counted { IfOk result (λ counts. (number : ℕ) → number < length nodes.now
        → slice_index counts.items number
        ≡ pending_children nodes.now pending.now number (length nodes.now)) }
{
    let mut counts = vec![in alloc; 0usize; nodes.len()]?;
    let mut stamps = vec![in alloc; 0usize; nodes.len()]?;
    for number in 0..nodes.len() {
        if pending[number] {
            count_child(
                &mut counts,
                &mut stamps,
                parents_of(nodes, number),
                number + 1,
            );
        }
    }
    Ok(counts)
}

/// Takes one child from the count of each of these parents. Returns the selected ones that have no other, in the order
/// of their last mentions.
pub(crate) fn release_parents(
    alloc: Global,
    selected: &[bool],
    counts: &mut [usize],
    stamps: &mut [usize],
    parents: &[usize],
    stamp: usize,
) -> Result<Vec<usize>, AllocError>
    requires lengths { length stamps.old ≡ length counts.old }
    requires selected { length selected.now ≡ length counts.old }
    requires known { AreBelow (length counts.old) parents.now }
    requires unseen { AreBelow stamp stamps.old }
    requires counted { (number : ℕ) → is_named number parents.now ≡ true
        → 0 < slice_index counts.old number }
    ensures counts { OnOk result ((number : ℕ) → number < length counts.old
        → slice_index counts.new number + (if is_named number parents.now then 1 else 0)
        ≡ slice_index counts.old number) }
    ensures seen { OnOk result (AreBelow (stamp + 1) stamps.new) }
    ensures ready { IfOk result (λ ready. ready.items
        ≡ freed_parents selected.now counts.old parents.now) }
{
    let mut ready = Vec::new(alloc);
    let mut left = parents.len();
    while left > 0 {
        left -= 1;
        let parent = parents[left];
        if stamps[parent] != stamp {
            stamps[parent] = stamp;
            counts[parent] -= 1;
            if counts[parent] == 0 && selected[parent] {
                ready.push(parent)?;
            }
        }
    }
    ready.reverse();
    Ok(ready)
}

/// Returns the selected tips without a pending child, each at its first mention.
pub(crate) fn first_ready(
    alloc: Global,
    selected: &[bool],
    counts: &[usize],
    tips: &[usize],
) -> Result<Vec<usize>, AllocError>
    requires lengths { length selected.now ≡ length counts.now }
    requires known { AreBelow (length counts.now) tips.now }
    ensures { IfOk result (λ ready. ready.items
        ≡ first_tips selected.now counts.now [] tips.now) }
{
    let mut ready = Vec::new(alloc);
    let mut seen = vec![in alloc; false; counts.len()]?;
    for tip in tips {
        let tip = *tip;
        if counts[tip] == 0 && selected[tip] && !seen[tip] {
            ready.push(tip)?;
        }
        seen[tip] = true;
    }
    Ok(ready)
}
