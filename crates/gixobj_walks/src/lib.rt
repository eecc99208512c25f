//! Walks over the commits of a history (git-rev-list, git-merge-base).
//!
//! A walk has no store: it requests commits until it needs no more. Then its list is that of each acyclic graph with
//! these commits. Likewise for a search for merge bases or for an ancestor, and for a count of a symmetric difference.
#![tactic(auto)]

pub mod ancestor;
pub mod bases;
pub mod difference;
mod known;
pub mod laws;
pub mod names;
mod newest;
pub mod walk;

pub use ancestor::AncestorSearch;
pub use bases::MergeBases;
pub use difference::SymmetricDifference;
pub use gixobj_walks_graph::LeftRightCount;
pub use walk::Walk;
