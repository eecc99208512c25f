//! Writes of open directories: the changed ones are emitted, each after those in it.
#![tactic(auto)]

mod frames;
mod moving;
mod taken_trees;
mod walk;
pub mod write;
