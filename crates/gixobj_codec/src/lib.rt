//! Decoding and encoding of git's trees, commits, tags and objects of any kind, and the interface of object
//! stores (gitdatamodel, "trees", "commits", "tag objects"). Trees, commits and tags are decoded entirely or
//! piece by piece.
//!
//! It re-exports the crates below it under the names that users know. Its own items are laws: those of commits and
//! of messages, and that the payload found in a signed object is the one that the signer got (gitformat-signature).
#![tactic(auto)]

pub mod commit;
pub mod laws;
pub mod messages;
mod one_line;
pub mod received;
pub mod signed;
pub mod tag;
pub mod tree;

pub use gixobj_commit::{Commit, CommitRef};
pub use gixobj_object::{DataExt, LooseDecodeError, Object, ObjectRef};
pub use gixobj_store::{
    Data, Exists, Find, FindHeader, FindObjectOrHeader, Store, TreeRefIter, data, find,
};
pub use gixobj_tag::{Tag, TagRef};
pub use gixobj_tokens::{CommitRefIter, TagRefIter};
pub use gixobj_tree::TreeRef;
