//! Counts of commits that only one of two commits reaches.
ghost use Rattle.std.specs.Prelude.{◌≡◌, ◌<◌, ◌∷◌, [], ℕ, List, IfOk, count_by, length};
ghost use Rattle.gixobj_walks_graph.specs.Graph.{HasCount};
ghost use Rattle.gixobj_walks_graph.specs.Numbered.{AreParentsKnown, Nodes, graph_at};
ghost use Rattle.gixobj_walks_graph.specs.Walks.{IsSelected};
ghost use Rattle.gixobj_walks_marks.specs.Marks.{HasMarks};

use gixobj_walks_graph::{LeftRightCount, Node};
use gixobj_walks_marks::{reachable, selected};
use std::alloc::{AllocError, Global};

/// Counts the commits that only one of two commits reaches (git-rev-list, `--left-right --count ONE...OTHER`).
///
/// A branch with the one commit is `left` commits ahead of a branch with the other one.
///
/// Takes time linear in the commits and their parents. Allocates some marks for each commit, and a stack.
///
/// # Errors
///
/// [`AllocError`] if an allocation fails.
pub fn left_right_count(
    alloc: Global,
    nodes: &[Option<Node>],
    one: usize,
    other: usize,
) -> Result<LeftRightCount, AllocError>
    requires known { AreParentsKnown nodes.now }
    requires one { one < length nodes.now }
    requires other { other < length nodes.now }
    ensures left { IfOk result (λ counts.
        HasCount (IsSelected (graph_at nodes.now) (one ∷ []) (other ∷ [])) counts.left) }
    ensures right { IfOk result (λ counts.
        HasCount (IsSelected (graph_at nodes.now) (other ∷ []) (one ∷ [])) counts.right) }
{
    let left = reachable(alloc, nodes, &[one])?;
    let right = reachable(alloc, nodes, &[other])?;
    Ok(LeftRightCount {
        left: count_selected(alloc, &left, &right)?,
        right: count_selected(alloc, &right, &left)?,
    })
}

/// Counts the commits that the left side has, and the right side doesn't.
fn count_selected(alloc: Global, left: &[bool], right: &[bool]) -> Result<usize, AllocError>
    requires { length right.now ≡ length left.now }
    ensures { IfOk result (λ count. (nodes : Nodes) (tips hidden : List ℕ)
        → HasMarks nodes tips left.now → HasMarks nodes hidden right.now
        → HasCount (IsSelected (graph_at nodes) tips hidden) count) }
{
    let chosen = selected(alloc, left, right)?;
    Ok(count(&chosen))
}

/// Counts the marks.
fn count(marks: &[bool]) -> usize
    ensures { result ≡ count_by (λ mark. mark) marks.now }
{
    marks.iter().filter(|mark| **mark).count()
}
