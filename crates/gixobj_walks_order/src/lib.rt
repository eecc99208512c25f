//! Lists selected commits of a numbered graph in the order of a walk (git-rev-list, "Commit Ordering").
#![tactic(auto)]

mod children;
pub mod error;
mod known;
pub mod laws;
pub mod listing;
mod queue;
mod state;

pub use error::ListError;
pub use listing::list_in_order;
