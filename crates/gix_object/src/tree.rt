//! Trees, with the kinds, modes and order of their entries, and the editor (gitdatamodel, "trees").

pub mod editor;

pub use gixobj_base::tree::{Entry, EntryKind, EntryMode, name_order};
pub use gixobj_codec::tree::{EntryRef, next_entry, path_names};
