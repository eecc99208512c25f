//! Frames: the directories that a write has begun, each with what remains of it.
ghost use Rattle.std.specs.Prelude.{◌≡◌, ◌+◌, [], IfOk};
ghost use Rattle.gixobj_editor_write.specs.Frames.{HasEmitted, HasRoot, frame_weight, held_entries, weight_of};

use gixobj_editor_files::open_entries::Entries;
use gixobj_editor_files::written_tree::WrittenTree;
use gixobj_editor_open::children::Remaining;
use gixobj_editor_open::open::{Open, base_of};
use gixobj_tree::Tree;
use gixobj_tree::tree::Entry;
use std::alloc::{AllocError, Global};

/// The entries of an open directory as a tree: its own, or a copy unless they are one piece.
#[derive(Drop)]
pub(crate) enum HeldTree<'a> {
    /// The tree of the directory.
    Lent(&'a Tree),
    /// A copy of its entries.
    Copied(Tree),
}

/// A directory that a write has begun, with what remains of it.
#[derive(Drop)]
pub(crate) struct Frame<'a> {
    /// The directory.
    pub(crate) node: &'a Open,
    /// The base of the directory.
    pub(crate) base: &'a [Entry],
    /// The entries of the directory.
    pub(crate) tree: HeldTree<'a>,
    /// The position of the next entry.
    pub(crate) next: usize,
    /// The directories that are open in it, from that of the next entry on.
    pub(crate) remaining: Remaining<'a>,
    /// The directory's written tree so far.
    pub(crate) written_tree: WrittenTree,
}

impl HeldTree<'_> {
    /// Returns the entries.
    pub(crate) fn entries(&self) -> &[Entry]
        ensures { result.now ≡ held_entries self.now }
    {
        match self {
            HeldTree::Lent(tree) => &tree.entries,
            HeldTree::Copied(tree) => &tree.entries,
        }
    }
}

/// Returns the entries as a tree.
fn held_tree(alloc: Global, entries: &Entries) -> Result<HeldTree<'_>, AllocError>
    ensures { IfOk result (λ tree. held_entries tree ≡ entries.now) }
{
    if let Some(tree) = entries.as_tree() {
        return Ok(HeldTree::Lent(tree));
    }
    let copy = entries.copied(alloc)?;
    Ok(HeldTree::Copied(copy))
}

/// Begins a directory: no entry is consumed yet.
pub(crate) fn begin(alloc: Global, node: &Open) -> Result<Frame<'_>, AllocError>
    ensures root { HasRoot node.now }
    ensures node { IfOk result (λ frame. frame.node.now ≡ node.now) }
    ensures come { IfOk result (λ frame. HasEmitted frame [] [] 0) }
    ensures weight { IfOk result (λ frame. frame_weight frame + 1 ≡ weight_of node.now) }
{
    let base = base_of(node);
    let tree = held_tree(alloc, &node.entries)?;
    let remaining = node.children.remaining();
    Ok(Frame {
        node,
        base,
        tree,
        next: 0,
        remaining,
        written_tree: WrittenTree::new(),
    })
}
