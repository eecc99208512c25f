//! Leaf trees: trees of directories that a write emits without a copy. The entries of those are one piece.
ghost use Rattle.std.specs.Prelude.{◌≡◌, ◌≢◌, [], IfNone, IfOk, IfSome, IsFalse, IsTrue, List, Some, length, not, true};
ghost use Rattle.std.specs.List.{flat_map, list_all};
ghost use Rattle.gixobj_tree_entries.specs.Entries.{EntryView};
ghost use Rattle.gixobj_editor_files.specs.Files.{is_null};
ghost use Rattle.gixobj_editor_entries.specs.Pieces.{AreNonEmpty};
ghost use Rattle.gixobj_editor_open.specs.Storable.{IsStorable};
ghost use Rattle.gixobj_editor_open.specs.Nested.{AreFilled, child_list, dirs_of, opened, parts};
ghost use Rattle.gixobj_editor_open.specs.LeafTrees.{inside_of, is_leaf_tree, leaf_trees};

use crate::open::{Child, Children, Open, base_of};
use gixobj_editor_files::entries::is_non_null;
use gixobj_tree::Tree;
use gixobj_tree::tree::Entry;
use std::alloc::{AllocError, Global};

impl Open {
    /// Returns the directory's tree if it is a leaf tree, as a copy in `slot` unless it is one piece.
    ///
    /// A leaf tree has entries, none of them with a null id, and isn't the directory's base; no directory in
    /// it is open.
    ///
    /// # Errors
    ///
    /// [`AllocError`] if an allocation fails.
    pub fn leaf_tree<'a>(
        &'a self,
        alloc: Global,
        slot: &'a mut Tree,
    ) -> Result<Option<&'a Tree>, AllocError>
        ensures found { IfOk result (λ leaf. IfSome leaf (λ tree. (base : List EntryView)
            × (self.now ≡ opened tree.now base []) × (is_leaf_tree (tree.now, base) ≡ true))) }
        ensures storable { IfOk result (λ leaf. IfSome leaf (λ tree. IsStorable tree.now)) }
        ensures none { IfOk result (λ leaf. IfNone leaf (leaf_trees self.now
            ≡ leaf_trees (inside_of self.now))) }
        ensures root { (entries : List EntryView) × (dirs_of self.now [] ≡ Some entries) }
    {
        let entries = &self.entries;
        if self.has_open_directory() {
            return Ok(None);
        }
        let tree = entries.tree_in(alloc, slot)?;
        if is_leaf_tree(tree, &self.base) {
            Ok(Some(tree))
        } else {
            Ok(None)
        }
    }

    /// Returns `true` if a directory in it is open.
    pub fn has_open_directory(&self) -> bool
        ensures some { IsTrue result → leaf_trees self.now ≡ leaf_trees (inside_of self.now) }
        ensures non_empty { IsTrue result → inside_of self.now ≢ [] }
        ensures none { IsFalse result → inside_of self.now ≡ [] }
        ensures alone { IsFalse result → length self.now ≡ 1 }
    {
        let Some(child) = self.children.first_child() else {
            return false;
        };
        let _ = base_of(&child.open);
        true
    }
}

/// Settled directories.
impl Open {
    /// Makes one piece of the entries of the directory, and of those open in it, up to `levels` levels below.
    ///
    /// Allocates nothing.
    #[cycle(settling)]
    pub fn settle(&mut self, levels: u32)
        ensures { self.new ≡ self.old }
    {
        self.entries.settle();
        if levels > 0 {
            self.children.settle(levels - 1);
        }
    }
}

impl Children {
    /// Makes one piece of the entries of each of these directories, and of those open up to `levels` levels below.
    #[cycle(settling)]
    fn settle(&mut self, levels: u32)
        ensures list { parts (child_list self.new) ≡ parts (child_list self.old) }
        ensures filled { AreFilled self.old → AreFilled self.new }
    {
        settle_all(&mut self.first, levels);
        settle_pieces(&mut self.more, levels);
    }
}

/// Makes one piece of the entries of each directory in these pieces, and of those open up to `levels` levels below.
#[cycle(settling)]
fn settle_pieces(pieces: &mut [Vec<Child>], levels: u32)
    ensures list { parts (flat_map (λ p. p.items) pieces.new)
        ≡ parts (flat_map (λ p. p.items) pieces.old) }
    ensures filled { AreNonEmpty (λ p. p.items) pieces.old
        → AreNonEmpty (λ p. p.items) pieces.new }
{
    for piece in pieces.iter_mut() {
        settle_all(piece, levels);
    }
}

/// Makes one piece of the entries of each of these directories, and of those open up to `levels` levels below.
#[cycle(settling)]
fn settle_all(children: &mut [Child], levels: u32)
    ensures { parts children.new ≡ parts children.old }
{
    for child in children.iter_mut() {
        child.open.settle(levels);
    }
}

/// Returns `true` if the tree has entries, none of them with a null id, and isn't the base.
pub fn is_leaf_tree(tree: &Tree, base: &Tree) -> bool
    ensures { result ≡ is_leaf_tree (tree.now, base.now) }
{
    !tree.entries.is_empty() && are_non_null(&tree.entries) && tree != base
}

/// Returns `true` if no entry has a null id.
fn are_non_null(entries: &[Entry]) -> bool
    ensures { result ≡ list_all (λ e. not (is_null e.id)) entries.now }
{
    entries.iter().all(|entry| is_non_null(entry))
}
