//! The lines of commits and tags, the tokens and bodies of tags, and the search for a header of a commit (gitdatamodel,
//! "commits", "tag objects"). The decoders in crates above share them.
//!
//! Two calls report whether bytes are the encoding of a commit or of a tag at all, and allocate nothing.
#![tactic(auto)]

pub mod bodies;
pub mod commits;
pub mod extra_headers;
pub mod headers;
pub mod lines;
pub mod parents;
pub mod tags;
pub mod tokens;
