//! Token iterators over commits and tags, and the signatures in their encodings (gitdatamodel, "commits",
//! "tag objects"). They share the decoders of a commit's line and of a tag's part with the decoders of entire
//! objects.
#![tactic(auto)]

pub mod commit;
pub mod laws;
pub mod tag;

pub use commit::CommitRefIter;
pub use tag::TagRefIter;
