//! Commits as walks read them: their parents, and the seconds of their committers (gitdatamodel, "commits"). They are
//! decoded from bytes, or looked up in an object store; tags lead to the commits that they name (gitrevisions, `^{}`).
#![tactic(auto)]

pub mod error;
pub mod find;
pub mod node;
mod peel;
pub mod seconds;

pub use error::NodeError;
pub use find::find_node;
pub use node::{CommitNode, commit_node};
pub use peel::peel_to_commit;
