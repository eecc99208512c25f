//! Laws of git's messages about commits and tags: what an object without a message has (`git-fsck`, "FSCK MESSAGES").
#![tactic(auto)]

pub mod laws;
