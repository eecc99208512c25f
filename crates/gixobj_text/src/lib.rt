//! Commit messages with title, body, summary and trailers (git-commit, "DISCUSSION"; git-interpret-trailers).
#![tactic(auto)]

pub mod commit;
