//! Whether a search for merge bases has read enough.
ghost use Rattle.std.specs.Prelude.{◌≡◌, ◌<◌, ◌↔◌, ◌⊎◌, ◌∷◌, [], ℕ, Contains, IfOk, IsTrue, OnErr, length};
ghost use Rattle.std.specs.List.{AllByRecursion};
ghost use Rattle.gixobj_walks_graph.specs.Graph.{IsRead};
ghost use Rattle.gixobj_walks_graph.specs.Numbered.{AreParentsKnown, graph_at};
ghost use Rattle.gixobj_walks_marks.specs.Chosen.{AreWantedMarked, HasManyCandidates};
ghost use Rattle.gixobj_walks_marks.specs.Marks.{HasMarks};
ghost use Rattle.gixobj_walks_marks.specs.Settled.{IsSettledBases};

use crate::bases::candidates;
use crate::chosen::are_wanted_marked;
use crate::settled::{MOST, all_reach_wanted};
use gixobj_walks_graph::Node;
use std::alloc::{AllocError, Global};

/// Tests whether a search for merge bases has read enough: what is not read changes nothing of what they are.
///
/// The left side has the one commit and what it reaches, the right side the other. The search is settled if both reach
/// each commit that is not read, and each candidate reaches it and is read itself ([`candidates`]).
///
/// Returns `false` for more than 16 candidates. For each candidate it takes time linear in the commits and their
/// parents.
///
/// Allocates as [`candidates`], a mark for each commit, and as [`mark_reached`](crate::mark_reached).
///
/// # Errors
///
/// [`AllocError`] if an allocation fails.
pub fn is_settled_bases(
    alloc: Global,
    nodes: &[Option<Node>],
    left: &[bool],
    right: &[bool],
) -> Result<bool, AllocError>
    requires known { AreParentsKnown nodes.now }
    requires left { length left.now ≡ length nodes.now }
    requires right { length right.now ≡ length nodes.now }
    ensures settled { IfOk result (λ is. (one other : ℕ) → HasMarks nodes.now (one ∷ []) left.now
        → HasMarks nodes.now (other ∷ []) right.now → IsTrue is
        → IsSettledBases (graph_at nodes.now) one other) }
    ensures unsettled { IfOk result (λ is. (one other : ℕ) → HasMarks nodes.now (one ∷ []) left.now
        → HasMarks nodes.now (other ∷ []) right.now → IsSettledBases (graph_at nodes.now) one other
        → IsTrue is ⊎ HasManyCandidates (graph_at nodes.now) one other) }
    ensures allocates { OnErr result (0 < length nodes.now) }
{
    if !are_wanted_shared(nodes, left, right) {
        return Ok(false);
    }
    let found = candidates(alloc, nodes, left, right)?;
    if found.len() > MOST {
        return Ok(false);
    }
    if !are_read(nodes, &found) {
        return Ok(false);
    }
    all_reach_wanted(alloc, nodes, left, right, &found)
}

/// Tests whether both sides have each unread commit that either side has.
fn are_wanted_shared(nodes: &[Option<Node>], left: &[bool], right: &[bool]) -> bool
    requires left { length left.now ≡ length nodes.now }
    requires right { length right.now ≡ length nodes.now }
    ensures { IsTrue result ↔ (AreWantedMarked nodes.now left.now right.now left.now
        × AreWantedMarked nodes.now left.now right.now right.now) }
{
    are_wanted_marked(nodes, left, right, left) && are_wanted_marked(nodes, left, right, right)
}

/// Tests whether each of these commits is read.
fn are_read(nodes: &[Option<Node>], numbers: &[usize]) -> bool
    requires { AllByRecursion (λ number. number < length nodes.now) numbers.now }
    ensures { IsTrue result
        ↔ ((number : ℕ) → Contains numbers.now number → IsRead (graph_at nodes.now) number) }
{
    for number in numbers {
        if !is_read(nodes, *number) {
            return false;
        }
    }
    true
}

/// Tests whether a commit is read.
fn is_read(nodes: &[Option<Node>], number: usize) -> bool
    requires { number < length nodes.now }
    ensures { IsTrue result ↔ IsRead (graph_at nodes.now) number }
{
    nodes[number].is_some()
}
