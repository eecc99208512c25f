//! Open directories, each with the open directories in it: lookups, edits by paths, copies and drops.
#![tactic(auto)]

pub mod children;
mod copying;
pub mod descent;
mod dropping;
pub mod ensure_directory;
pub mod leaf_trees;
mod new_directories;
pub mod open;
