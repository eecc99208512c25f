//! The messages of commits (git-commit, "DISCUSSION").

pub mod message;

pub use message::MessageRef;
