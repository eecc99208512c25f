//! Walks over the commits of an object store (git-rev-list).
//!
//! A walk looks up the commits that it needs, and no others.
#![tactic(auto)]

pub mod bases;
pub mod error;
pub mod list;
mod peel;

pub use bases::{is_ancestor, merge_bases};
pub use error::WalkError;
pub use list::list_commits;
pub use peel::peel_to_commits;
