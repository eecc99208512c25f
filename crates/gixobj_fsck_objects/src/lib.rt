//! Git's findings and its verdict about an object of any kind (`git-fsck`; `git-config`, `receive.fsckObjects`).
#![tactic(auto)]

mod objects;

pub use objects::{fsck, is_object_accepted, is_object_received};
