//! Whether a walk has read enough.
ghost use Rattle.std.specs.Prelude.{◌≡◌, ◌<◌, ◌↔◌, ◌⊎◌, ℕ, Contains, IfOk, IsTrue, List, OnErr, length};
ghost use Rattle.std.specs.List.{AllByRecursion};
ghost use Rattle.gixobj_walks_graph.specs.Numbered.{AreParentsKnown, IsMarked, graph_at};
ghost use Rattle.gixobj_walks_marks.specs.Chosen.{HasManyBottoms, ReachesWanted};
ghost use Rattle.gixobj_walks_marks.specs.Marks.{HasMarks};
ghost use Rattle.gixobj_walks_marks.specs.Settled.{IsSettledWalk};

use crate::chosen::{are_wanted_marked, bottoms};
use crate::passing::mark_start;
use gixobj_walks_graph::Node;
use std::alloc::{AllocError, Global};

/// The most bottoms or candidates that a test looks at.
pub(crate) const MOST: usize = 16;

/// Tests whether a walk has read enough: what is not read changes nothing of what is selected.
///
/// The left side has the tips and what they reach, the right side the hidden commits and what they reach. A bottom is a
/// selected commit without a selected parent. A walk is settled if each commit that is not read is hidden, and each
/// bottom reaches it.
///
/// Returns `false` for a walk with more than 16 bottoms. For each bottom it takes time linear in the commits and their
/// parents.
///
/// Allocates a mark for each commit, the bottoms, and as [`mark_reached`](crate::mark_reached).
///
/// # Errors
///
/// [`AllocError`] if an allocation fails.
pub fn is_settled_walk(
    alloc: Global,
    nodes: &[Option<Node>],
    left: &[bool],
    right: &[bool],
) -> Result<bool, AllocError>
    requires known { AreParentsKnown nodes.now }
    requires left { length left.now ≡ length nodes.now }
    requires right { length right.now ≡ length nodes.now }
    ensures settled { IfOk result (λ is. (tips hidden : List ℕ) → HasMarks nodes.now tips left.now
        → HasMarks nodes.now hidden right.now → IsTrue is
        → IsSettledWalk (graph_at nodes.now) tips hidden) }
    ensures unsettled { IfOk result (λ is. (tips hidden : List ℕ) → HasMarks nodes.now tips left.now
        → HasMarks nodes.now hidden right.now → IsSettledWalk (graph_at nodes.now) tips hidden
        → IsTrue is ⊎ HasManyBottoms (graph_at nodes.now) tips hidden) }
    ensures allocates { OnErr result (0 < length nodes.now) }
{
    if !are_wanted_marked(nodes, left, right, right) {
        return Ok(false);
    }
    let found = bottoms(alloc, nodes, left, right)?;
    if found.len() > MOST {
        return Ok(false);
    }
    all_reach_wanted(alloc, nodes, left, right, &found)
}

/// Tests whether each of these commits reaches each unread one that either side has.
pub(crate) fn all_reach_wanted(
    alloc: Global,
    nodes: &[Option<Node>],
    left: &[bool],
    right: &[bool],
    starts: &[usize],
) -> Result<bool, AllocError>
    requires known { AreParentsKnown nodes.now }
    requires left { length left.now ≡ length nodes.now }
    requires right { length right.now ≡ length nodes.now }
    requires starts { AllByRecursion (λ start. start < length nodes.now) starts.now }
    ensures exact { IfOk result (λ is. IsTrue is ↔ ((start : ℕ) → Contains starts.now start
        → ReachesWanted nodes.now left.now right.now start)) }
    ensures allocates { OnErr result (0 < length nodes.now) }
{
    for start in starts {
        if !reaches_wanted(alloc, nodes, left, right, *start)? {
            return Ok(false);
        }
    }
    Ok(true)
}

/// Tests whether a commit reaches each unread one that either side has.
fn reaches_wanted(
    alloc: Global,
    nodes: &[Option<Node>],
    left: &[bool],
    right: &[bool],
    start: usize,
) -> Result<bool, AllocError>
    requires known { AreParentsKnown nodes.now }
    requires left { length left.now ≡ length nodes.now }
    requires right { length right.now ≡ length nodes.now }
    requires start { start < length nodes.now }
    ensures exact { IfOk result (λ is. IsTrue is
        ↔ ReachesWanted nodes.now left.now right.now start) }
    ensures allocates { OnErr result (0 < length nodes.now) }
{
    let mut marked = no_marks(alloc, nodes.len())?;
    mark_start(alloc, nodes, &mut marked, start)?;
    Ok(are_wanted_marked(nodes, left, right, &marked))
}

/// Makes marks of `count` commits, none of them marked. Allocates nothing for no commit.
pub(crate) fn no_marks(alloc: Global, count: usize) -> Result<Vec<bool>, AllocError>
    ensures length { IfOk result (λ marked. length marked.items ≡ count) }
    ensures none { IfOk result (λ marked. (number : ℕ) → ¬ IsMarked marked.items number) }
    ensures allocates { OnErr result (0 < count) }
{
    if count == 0 {
        return Ok(Vec::new(alloc));
    }
    vec![in alloc; false; count]
}
