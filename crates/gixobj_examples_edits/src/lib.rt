//! Callers of the public calls on stores, trees and edits, each proved by their contracts, laws and lemmas.
//!
//! They show what users can rely on:
//!
//! - a store of objects, a reader of history;
//! - planners of checkouts and of uploads;
//! - an importer, an archive, a rebuilder of trees.
#![tactic(auto)]

pub mod archive;
pub mod checkout;
pub mod history;
pub mod importer;
pub mod planner;
pub mod rebuilder;
pub mod shelf;
pub mod upload;
