//! Listings of the files of stored trees, comparisons of trees, and logs, each proved by public contracts, laws
//! and lemmas.
#![tactic(auto)]

pub mod differences;
pub mod history;
pub mod laws;
pub mod listing;
pub mod roots;
