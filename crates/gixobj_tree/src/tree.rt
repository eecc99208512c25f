//! Trees and their entries (gitdatamodel, "trees").
ghost use Rattle.std.specs.Prelude.{◌≡◌, []};

mod borrowed;
mod compared;
mod well_formed;
pub mod write;

pub use borrowed::{TreeRef, decode};
pub use gixobj_tree_entries::{Entry, EntryKind, EntryMode, EntryRef, name_order, order};
use std::alloc::Global;
use std::marker::Model;

/// A tree: the entries of a directory, owned. [`TreeRef::into_owned`] makes one of a decoded tree.
#[derive(Clone, Debug, Drop)]
pub struct Tree {
    /// The entries, in any order. Those of a well-formed tree (`is_well_formed`) are in the order of
    /// [`name_order`], with distinct names; decoding doesn't check this.
    pub entries: Vec<Entry>,
}

impl Model for Tree {
    ghost use Rattle.std.specs.Prelude.{List};
    ghost use Rattle.gixobj_tree_entries.specs.Entries.{EntryView};

    ghost Value = { List EntryView };

    ghost view = { λ tree. tree.entries.items };
}

impl Tree {
    /// Creates a tree without entries. Allocates nothing: the list only keeps `alloc`.
    pub fn empty(alloc: Global) -> Tree
        ensures { result ≡ [] }
    {
        Tree {
            entries: Vec::new(alloc),
        }
    }
}
