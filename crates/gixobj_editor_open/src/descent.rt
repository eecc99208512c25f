//! Edits at deep paths: a loop goes down the open directories of the path, and another restores those above.
ghost use Rattle.std.specs.Prelude.{◌≡◌, ◌≢◌, ◌≤◌, ◌++◌, [], IsFalse, IsTrue, List, OnErr, OnOk, Some, length, reverse};
ghost use Rattle.std.specs.Prelude.{take};
ghost use Rattle.std.specs.List.{AllByRecursion};
ghost use Rattle.bstr.specs.Owned.{bstring_bytes};
ghost use Rattle.gixobj_tree_entries.specs.Entries.{EntryView};
ghost use Rattle.gixobj_tree.specs.WellFormed.{IsEntryName};
ghost use Rattle.gixobj_tree_entries.specs.Mode.{mode_bits};
ghost use Rattle.gixobj_editor_files.specs.Bases.{edited_bases};
ghost use Rattle.gixobj_editor_files.specs.Edits.{removed_dirs, upserted_dirs};
ghost use Rattle.gixobj_editor_files.specs.Files.{Path};
ghost use Rattle.gixobj_editor_open.specs.Paths.{names_of};
ghost use Rattle.gixobj_editor_open.specs.Descents.{AreAbove, IsDescended, IsExchanged, has_inner, rebuilt};
ghost use Rattle.gixobj_editor_open.specs.Nested.{bases_of, dirs_of};

use crate::open::Open;
use bstr::BString;
use gixobj_hash::hash::ObjectId;
use gixobj_tree::Tree;
use gixobj_tree::tree::EntryMode;
use std::alloc::{AllocError, Global};
use std::mem;

/// The number of names up to which an edit goes down a path by recursion. It goes down a longer path by a
/// loop, up to this number of its last names.
pub const MAX_RECURSIVE: usize = 64;

/// A descent along a path: the directories above the one that was reached, and the names before and after it.
///
/// The links are reversed until `ascend` restores them: each directory above has the one above it in place of
/// the next one on the path.
#[derive(Drop)]
pub struct Descent<'a> {
    /// The directories above.
    pub above: Open,
    /// The names before the directory that was reached.
    pub consumed: &'a [BString],
    /// The names after it.
    pub rest: &'a [BString],
}

impl Open {
    /// Inserts an entry at a path, in place of any entry that is there.
    ///
    /// Directories that were open at or below the path are closed. A path without names changes nothing.
    ///
    /// Each parent directory of the path is open then. One that isn't open is opened as empty, without a
    /// lookup. Its entry is unchanged if it is of tree mode. Otherwise an entry of kind tree with the id
    /// `null` is inserted, in place of any entry of that name.
    ///
    /// Each name of the path must be a valid name of an entry: not empty, and without `/`.
    ///
    /// Allocates the name of the entry and capacity for it, and those directories with their entries. In a
    /// directory of 128 entries or more it also allocates parts of its lists, and room for a write.
    ///
    /// # Errors
    ///
    /// [`AllocError`] if an allocation fails. Nothing is changed then.
    pub fn insert_entry(
        &mut self,
        alloc: Global,
        path: &[BString],
        mode: EntryMode,
        id: ObjectId,
        null: ObjectId,
    ) -> Result<(), AllocError>
        requires { AllByRecursion IsEntryName (names_of path.now) }
        ensures dirs { OnOk result ((at : Path)
            → dirs_of self.new at ≡ upserted_dirs (names_of path.now) (mode_bits mode) id null
            (dirs_of self.old) at) }
        ensures bases { OnOk result ((at : Path)
            → bases_of self.new at ≡ edited_bases (dirs_of self.old) (dirs_of self.new)
            (bases_of self.old) at) }
        ensures unchanged { OnErr result (self.new ≡ self.old) }
    {
        if path.len() <= MAX_RECURSIVE {
            return self.insert_recursively(alloc, path, mode, id, null);
        }
        let descent = self.descend(path);
        let inserted = self.insert_recursively(alloc, descent.rest, mode, id, null);
        self.ascend(descent);
        inserted
    }

    /// Removes the entry at a path, if the directory of the entry is open.
    ///
    /// Directories that were open at or below the path are closed. Nothing changes if the path has no names
    /// or that directory isn't open. Allocates nothing.
    pub fn take(&mut self, path: &[BString])
        ensures dirs { (at : Path) → dirs_of self.new at
            ≡ removed_dirs (names_of path.now) (dirs_of self.old) at }
        ensures bases { (at : Path) → bases_of self.new at
            ≡ edited_bases (dirs_of self.old) (dirs_of self.new) (bases_of self.old) at }
    {
        if path.len() <= MAX_RECURSIVE {
            self.take_recursively(path);
            return;
        }
        let descent = self.descend(path);
        self.take_recursively(descent.rest);
        self.ascend(descent);
    }

    /// Goes down the open directories of a path, up to its last 64 names. Allocates nothing.
    ///
    /// This directory is the one that was reached then, until [`Open::ascend`] restores those above it.
    pub fn descend<'a>(&mut self, path: &'a [BString]) -> Descent<'a>
        ensures path { path.now ≡ result.consumed.now ++ result.rest.now }
        ensures rest { path.now ≢ [] → result.rest.now ≢ [] }
        ensures descended { IsDescended (names_of result.consumed.now) self.old self.new
            result.above }
    {
        let alloc = *self.base.entries.allocator();
        let mut above = Open::new(alloc, Tree::empty(alloc));
        let upper = &path[..path.len().saturating_sub(MAX_RECURSIVE)];
        let depth = self.enter(&mut above, upper);
        let (consumed, rest) = path.split_at(depth);
        Descent {
            above,
            consumed,
            rest,
        }
    }

    /// Enters the open directories of a path one after the other, and returns their number.
    fn enter(&mut self, above: &mut Open, path: &[BString]) -> usize
        ensures depth { result ≤ length path.now }
        ensures descended { IsDescended (names_of (take result path.now)) self.old
            self.new above.new }
    {
        let mut depth = 0;
        for name in path {
            if !self.exchange(name, above) {
                return depth;
            }
            mem::swap(self, above);
            depth += 1;
        }
        depth
    }

    /// Restores the directories above this one, which is the one at the top then. Allocates nothing.
    pub fn ascend(&mut self, descent: Descent<'_>)
        requires { AreAbove (reverse (names_of descent.consumed.now)) descent.above }
        ensures { self.new
            ≡ rebuilt (reverse (names_of descent.entry.consumed.now)) descent.entry.above self.old }
    {
        let Descent {
            mut above,
            consumed,
            rest: _,
        } = descent;
        self.leave(&mut above, consumed);
    }

    /// Leaves the directories of a path one after the other, the last first.
    pub fn leave(&mut self, above: &mut Open, path: &[BString])
        requires { AreAbove (reverse (names_of path.now)) above.old }
        ensures { self.new ≡ rebuilt (reverse (names_of path.now)) above.old self.old }
    {
        let mut remaining = path;
        'names: while let Some((name, before)) = remaining.split_last() {
            let _ = above.exchange(name, self);
            mem::swap(self, above);
            remaining = before;
        }
    }

    /// Exchanges the open directory of a name for another, if there is one. Allocates nothing.
    pub fn exchange(&mut self, name: &BString, other: &mut Open) -> bool
        ensures open { result ≡ has_inner (bstring_bytes name.now) self.old }
        ensures exchanged { IsTrue result → IsExchanged (bstring_bytes name.now) self.old other.old
            self.new other.new }
        ensures unchanged { IsFalse result → (self.new ≡ self.old) × (other.new ≡ other.old) }
    {
        // (for the proof: a directory has a list of entries)
        let _ = &self.entries;
        let Some(child_position) = self.children.position(name) else {
            return false;
        };
        let child = self.children.at_mut(child_position);
        let _ = base_tree(&child.open);
        let _ = base_tree(other);
        mem::swap(&mut child.open, other);
        true
    }
}

/// Returns the directory's base. A directory has a list of entries, as the clause `root` says.
fn base_tree(node: &Open) -> &Tree
    ensures base { bases_of node.now [] ≡ Some result.now }
    ensures root { (entries : List EntryView) × (dirs_of node.now [] ≡ Some entries) }
{
    &node.base
}
