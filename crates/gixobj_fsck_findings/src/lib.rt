//! Git's messages about a commit or a tag as a list, with offsets and by severities that are overridden.
#![tactic(auto)]

pub mod commits;
pub mod laws;
pub(crate) mod lines;
pub(crate) mod list;
pub mod parser;
pub mod tags;

pub use commits::fsck_commit;
pub use parser::{is_parsed_commit, is_parsed_tag};
pub use tags::fsck_tag;
