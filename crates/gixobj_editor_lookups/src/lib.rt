//! Open directories and the store: openings of directories whose trees are looked up, for edits and for removals,
//! with the names of their paths and their errors.
#![tactic(auto)]

pub mod below;
pub mod error;
pub mod laws;
pub mod names;
pub mod opening;
pub mod removal;
