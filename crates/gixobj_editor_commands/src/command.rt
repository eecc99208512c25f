//! Commands of a run, which are edits, writes and new roots.
use bstr::BString;
use gixobj_hash::hash::ObjectId;
use gixobj_tree::Tree;
use gixobj_tree::tree::EntryKind;

/// An edit, or a write, of a [`Command`]. A path is a list of names.
#[derive(Debug, Drop)]
pub enum Edit {
    /// Inserts an entry of this kind and id at the path, or replaces the entry that is there.
    Upsert {
        /// The path of the entry.
        path: Vec<BString>,
        /// The kind of the entry.
        kind: EntryKind,
        /// The id of the entry. A null id makes the entry a placeholder, which a write leaves out.
        id: ObjectId,
    },
    /// Removes the entry at the path and everything below it.
    Remove {
        /// The path of the removed entry.
        path: Vec<BString>,
    },
    /// Removes the entry at the path. The edit fails if the entry is a directory.
    RemoveLeaf {
        /// The path of the removed entry.
        path: Vec<BString>,
    },
    /// Writes the changed open directories, and last the root or the directory of a [`Command::At`]. The
    /// store then keeps the emitted trees.
    Write,
}

/// A command of a run.
#[derive(Debug, Drop)]
pub enum Command {
    /// An edit at a path from the root, or a write of the root.
    Edit(Edit),
    /// Edits at paths from one directory, and writes of that directory, which is made if it is missing.
    At {
        /// The path of the directory from the root. An empty path and a single empty name mean the root.
        prefix: Vec<BString>,
        /// The edits, in order.
        edits: Vec<Edit>,
    },
    /// Replaces the root of the editor by this tree, if it is well-formed, as `Editor::set_root` does.
    SetRoot(Tree),
}
