//! Decoding of trees (gitdatamodel, "trees").

pub use gixobj_store::TreeRefIter;
pub use gixobj_store::tree::{next_entry, path_names};
pub use gixobj_tree::tree::{EntryRef, TreeRef};
