//! Trees, their entries and modes (gitdatamodel, "trees").

pub use gixobj_tree::tree::{Entry, Tree, name_order};
pub use gixobj_tree_entries::{EntryKind, EntryMode};
