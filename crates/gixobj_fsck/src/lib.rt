//! Git's messages about a commit, and its verdict.
//!
//! [`commit_messages`] returns the messages of `git fsck` as a set, and [`is_commit_accepted`] whether git accepts
//! the commit; [`is_clean_commit`] whether it has no message. All run without git's parser, which rejects some
//! malformed commits before a check.
#![tactic(auto)]

pub mod actors;
pub mod commits;
pub mod dates;
pub mod headers;
pub mod lines;
pub mod spans;

pub use commits::{commit_messages, is_clean_commit, is_commit_accepted};
