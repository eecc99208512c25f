//! Marks of what starts reach.
ghost use Rattle.std.specs.Prelude.{◌≡◌, ◌<◌, IfOk, OnErr, length};
ghost use Rattle.std.specs.List.{AllByRecursion};
ghost use Rattle.gixobj_walks_graph.specs.Numbered.{AreParentsKnown};
ghost use Rattle.gixobj_walks_marks.specs.Marks.{HasMarks};

use crate::passing::mark_start;
use crate::settled::no_marks;
use gixobj_walks_graph::Node;
use std::alloc::{AllocError, Global};

/// Marks the commits that these starts reach, and the starts.
///
/// Takes time linear in the commits and their parents. Allocates a mark for each commit, and a stack.
///
/// # Errors
///
/// [`AllocError`] if an allocation fails, only where there is a commit.
pub fn reachable(
    alloc: Global,
    nodes: &[Option<Node>],
    starts: &[usize],
) -> Result<Vec<bool>, AllocError>
    requires known { AreParentsKnown nodes.now }
    requires starts { AllByRecursion (λ start. start < length nodes.now) starts.now }
    ensures marks { IfOk result (λ marks. HasMarks nodes.now starts.now marks.items) }
    ensures length { IfOk result (λ marks. length marks.items ≡ length nodes.now) }
    ensures allocates { OnErr result (0 < length nodes.now) }
{
    let mut marks = no_marks(alloc, nodes.len())?;
    let mut index = starts.len();
    while index > 0 {
        index -= 1;
        mark_start(alloc, nodes, &mut marks, starts[index])?;
    }
    Ok(marks)
}
