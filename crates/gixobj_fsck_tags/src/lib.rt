//! Git's messages about a tag, and its verdict.
//!
//! [`tag_messages`] returns the messages of `git fsck` as a set, and [`is_tag_accepted`] whether git accepts the tag;
//! [`is_clean_tag`] whether it has no message. All run without git's parser, which rejects some malformed tags before a
//! check.
#![tactic(auto)]

pub mod tags;

pub use tags::{has_extra_header, is_clean_tag, is_tag_accepted, tag_messages};
