//! Graphs that are known.
ghost use Rattle.std.specs.Prelude.{◌<◌, ◌↔◌, All, IsTrue};
ghost use Rattle.std.specs.List.{AllByRecursion};
ghost use Rattle.gixobj_walks_known.specs.Known.{IsKnownEntry, IsKnownGraph};

use gixobj_walks_graph::Node;

/// Tests whether each commit is read, and each parent is the number of a commit. Allocates nothing.
///
/// The other calls need a known graph.
pub fn is_known_graph(nodes: &[Option<Node>]) -> bool
    ensures { IsTrue result ↔ IsKnownGraph nodes.now }
{
    are_known(nodes, nodes.len())
}

/// Tests whether each of these commits is read, and their parents are numbers below `count`.
fn are_known(nodes: &[Option<Node>], count: usize) -> bool
    ensures { IsTrue result ↔ All (IsKnownEntry count) nodes.now }
{
    for node in nodes {
        if !is_known(node, count) {
            return false;
        }
    }
    true
}

/// Tests whether a commit is read, and its parents are numbers below `count`.
fn is_known(node: &Option<Node>, count: usize) -> bool
    ensures { IsTrue result ↔ IsKnownEntry count node.now }
{
    match node {
        Some(node) => are_below(&node.parents, count),
        None => false,
    }
}

/// Tests whether these numbers are below a bound.
fn are_below(numbers: &[usize], bound: usize) -> bool
    ensures { IsTrue result ↔ AllByRecursion (λ number. number < bound) numbers.now }
{
    numbers.iter().all(|number| *number < bound)
}
