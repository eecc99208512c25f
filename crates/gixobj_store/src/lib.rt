//! Object stores, objects that are not decoded yet, and iterators over the entries of a tree.
#![tactic(auto)]

pub mod data;
pub mod find;
pub mod laws;
pub mod traits;
pub mod tree;

pub use data::Data;
pub use traits::{Exists, Find, FindHeader, FindObjectOrHeader, Store};
pub use tree::TreeRefIter;
