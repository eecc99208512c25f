//! Walks over a known graph: each commit has a number, and is read (git-rev-list, git-merge-base).
#![tactic(auto)]

pub mod bases;
pub mod difference;
pub mod graph;
pub mod lists;

pub use bases::{is_ancestor, merge_bases};
pub use difference::left_right_count;
pub use gixobj_walks_graph::LeftRightCount;
pub use gixobj_walks_marks::reachable;
pub use graph::is_known_graph;
pub use lists::walk;
