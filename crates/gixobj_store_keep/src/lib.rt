//! Stores that keep trees and commits, a store in memory, and the lookup of a tree that has to exist.
#![tactic(auto)]

pub mod find;
pub mod keeping;
pub mod memory;
pub mod write;

pub use keeping::{Keep, KeepCommit, KeepError, keep_all};
pub use memory::{Memory, MemoryIds};
