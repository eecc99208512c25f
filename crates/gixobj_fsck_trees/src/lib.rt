//! The messages of `git fsck` about trees (`git-fsck`, "FSCK MESSAGES").
#![tactic(auto)]

pub mod entries;
pub mod entry_messages;
pub mod laws;
mod message_set;
pub mod name_twice;
mod near;
pub mod raw_entry;
pub mod read_tree;
mod sets;

pub use message_set::tree_messages;
