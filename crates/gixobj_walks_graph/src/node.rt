//! Commits that are read.
use std::marker::Model;

/// A commit that a walk has read: the numbers of its parents, and when it was committed.
#[derive(Debug, Drop)]
pub struct Node {
    /// The numbers of its parents, in the order of its lines.
    pub parents: Vec<usize>,
    /// The seconds of its committer.
    pub seconds: u64,
}

impl Model for Node {
    ghost use Rattle.std.specs.Prelude.{ℕ};
    ghost use Rattle.gixobj_walks_graph.specs.Graph.{NodeView};

    ghost Value = { NodeView ℕ };

    ghost view = { λ node. record {
      parents = node.parents.items;
      seconds = node.seconds;
    } };
}
