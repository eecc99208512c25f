//! What is known of a commit by its number.
ghost use Rattle.std.specs.Prelude.{◌≡◌, ◌<◌, ◌↔◌, ℕ, IsTrue, length};
ghost use Rattle.gixobj_walks_graph.specs.Numbered.{IsMarked, parents_at};
ghost use Rattle.gixobj_walks_order.specs.Counts.{seconds_at};

use gixobj_walks_graph::Node;

/// Returns the parents of a commit, none if it isn't read.
pub(crate) fn parents_of(nodes: &[Option<Node>], number: usize) -> &[usize]
    requires { number < length nodes.now }
    ensures { result.now ≡ parents_at nodes.now number }
{
    match &nodes[number] {
        Some(node) => node.parents.as_slice(),
        None => &[],
    }
}

/// Returns the seconds of a commit, 0 if it isn't read.
pub(crate) fn seconds_of(nodes: &[Option<Node>], number: usize) -> u64
    requires { number < length nodes.now }
    ensures { result ≡ seconds_at nodes.now number }
{
    match &nodes[number] {
        Some(node) => node.seconds,
        None => 0,
    }
}

/// Tests whether some commit is marked.
pub(crate) fn is_any_marked(marked: &[bool]) -> bool
    ensures { IsTrue result ↔ ((number : ℕ) × IsMarked marked.now number) }
{
    marked.iter().any(|is_marked| *is_marked)
}
