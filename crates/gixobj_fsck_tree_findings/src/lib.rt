//! The findings of `git fsck` about trees: messages, in git's order, with offsets (`git-fsck`, "FSCK MESSAGES").
#![tactic(auto)]

mod faults;
mod fsck;
pub mod laws;
mod links;
mod report;

pub use fsck::fsck_tree;
