//! The bodies of commit messages (git-commit, "DISCUSSION"; git-interpret-trailers, "DESCRIPTION").

pub use gixobj_text::commit::message::{BodyRef, body};
