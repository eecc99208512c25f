//! Decoding, copying, signing and writing of tags, and the names that tags may have (gitdatamodel, "tag
//! objects"; git-check-ref-format, "DESCRIPTION").
#![tactic(auto)]

pub mod laws;
pub mod name;
pub mod tag;

pub use tag::{Tag, TagRef};
