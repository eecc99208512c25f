//! Each call over a known graph, `two-lines-and-merge` of the table. The results are those that git prints for it.
ghost use Rattle.std.specs.Prelude.{◌≤◌, length};
ghost use Rattle.gixobj_walks_known.specs.Known.{IsKnownGraph};

use gixobj_walks_graph::{LeftRightCount, Node, Order};
use gixobj_walks_known::{
    is_ancestor, is_known_graph, left_right_count, merge_bases, reachable, walk,
};
use std::alloc::{AllocError, Global};

/// The seconds and the parents of the commits `r`, `A`, `B`, `C`, `D` and `M`, whose numbers are 0 to 5.
const ROWS: [(u64, &[usize]); 6] = [
    (1, &[]),
    (2, &[0]),
    (3, &[0]),
    (4, &[1]),
    (5, &[2]),
    (6, &[3, 4]),
];

/// The graph of the rows.
fn graph(alloc: Global) -> Result<Vec<Option<Node>>, AllocError> {
    let mut nodes = Vec::new(alloc);
    for (seconds, parents) in ROWS {
        let parents = Vec::from_slice(alloc, parents)?;
        nodes.push(Some(Node { parents, seconds }))?;
    }
    Ok(nodes)
}

/// Whether `M ^C` are `M`, `D` and `B`.
fn is_listed(alloc: Global, nodes: &[Option<Node>]) -> bool
    requires known { IsKnownGraph nodes.now }
    requires six { 6 ≤ length nodes.now }
{
    match walk(alloc, nodes, &[5], &[3], Order::Topological) {
        Ok(ids) => ids.as_slice() == [5, 4, 2].as_slice(),
        Err(_) => false,
    }
}

/// Whether `C` and `D` have the merge base `r` alone.
fn has_base(alloc: Global, nodes: &[Option<Node>]) -> bool
    requires known { IsKnownGraph nodes.now }
    requires six { 6 ≤ length nodes.now }
{
    match merge_bases(alloc, nodes, 3, 4) {
        Ok(ids) => ids.as_slice() == [0].as_slice(),
        Err(_) => false,
    }
}

/// Whether `A` is an ancestor of `M`, and `D` none of `C`.
fn are_ancestors(alloc: Global, nodes: &[Option<Node>]) -> bool
    requires known { IsKnownGraph nodes.now }
    requires six { 6 ≤ length nodes.now }
{
    is_ancestor(alloc, nodes, 1, 5) == Ok(true) && is_ancestor(alloc, nodes, 4, 3) == Ok(false)
}

/// Whether `M` has three commits that `C` lacks, and `C` none.
fn are_counted(alloc: Global, nodes: &[Option<Node>]) -> bool
    requires known { IsKnownGraph nodes.now }
    requires six { 6 ≤ length nodes.now }
{
    left_right_count(alloc, nodes, 5, 3) == Ok(LeftRightCount { left: 3, right: 0 })
}

/// Whether `C` reaches itself, `A` and `r`.
fn are_reached(alloc: Global, nodes: &[Option<Node>]) -> bool
    requires known { IsKnownGraph nodes.now }
    requires six { 6 ≤ length nodes.now }
{
    match reachable(alloc, nodes, &[3]) {
        Ok(marks) => marks.as_slice() == [true, true, false, true, false, false].as_slice(),
        Err(_) => false,
    }
}

#[test]
fn calls_over_known_graph(rt: HostRuntime) {
    let alloc = rt.alloc();
    let Ok(nodes) = graph(alloc) else {
        assert!(rt; false, "out of memory");
        return;
    };
    if !is_known_graph(&nodes) || nodes.len() < 6 {
        assert!(rt; false, "the graph isn't known");
        return;
    }
    assert!(rt; is_listed(alloc, &nodes));
    assert!(rt; has_base(alloc, &nodes));
    assert!(rt; are_ancestors(alloc, &nodes));
    assert!(rt; are_counted(alloc, &nodes));
    assert!(rt; are_reached(alloc, &nodes));
}

/// A commit that isn't read, or a parent that isn't there, makes no known graph.
#[test]
fn rejects_unknown_commits(rt: HostRuntime) {
    assert!(rt; !is_known_graph(&[None]));
    assert!(rt; is_known_graph(&[]));
}
