//! Entries of an open directory, in pieces, so that an insertion moves those of one piece alone.
ghost use Rattle.std.specs.Prelude.{◌≡◌, ◌&&◌, ◌⊎◌, ◌+◌, ◌<◌, ◌≤◌, ◌++◌, [], All, IfOk, IfSome, IsFalse, if◌then◌else◌};
ghost use Rattle.std.specs.Prelude.{OnErr, OnOk, length, vec_capacity, vec_len};
ghost use Rattle.std.specs.List.{find};
ghost use Rattle.std.specs.Option.{option_copied};
ghost use Rattle.bstr.specs.Owned.{bstring_bytes};
ghost use Rattle.gixobj_tree_entries.specs.Mode.{is_tree_mode, mode_bits};
ghost use Rattle.gixobj_tree_entries.specs.KeyOrder.{key_of};
ghost use Rattle.gixobj_tree.specs.WellFormed.{IsEntryName, IsWellFormed};
ghost use Rattle.gixobj_editor_entries.specs.Pieces.{AreNonEmpty, HoldsAtPiece, IsPieced, joined, pieces_at_most};
ghost use Rattle.gixobj_editor_files.specs.Editing.{same_name, with_entry, without};
ghost use Rattle.gixobj_editor_files.specs.Files.{is_null};
ghost use Rattle.gixobj_editor_files.specs.FilteredTrees.{IsFilteredTree};

use crate::entries::copy;
use crate::filtered::become_tree;
use bstr::BString;
use gixobj_editor_entries::pieces;
use gixobj_editor_entries::splits::reserve;
use gixobj_hash::hash::ObjectId;
use gixobj_hash::split::has_byte;
use gixobj_tree::Tree;
use gixobj_tree::tree::{Entry, EntryMode};
use std::alloc::{AllocError, Global};
use std::marker::Model;

/// The number of entries from which on a directory may have more than one piece.
const MIN_PIECED: usize = 128;

/// The entries of an open directory: a well-formed tree, in contracts their list.
///
/// Up to 128 entries are one piece. Beyond that an insertion moves the entries of its piece alone, and the
/// directory has capacity to make one piece of all without an allocation.
#[derive(Drop)]
pub struct Entries {
    tree: Tree,
    more: Vec<Vec<Entry>>,
    spare: Vec<Entry>,
    len: usize,
}

impl Model for Entries {
    ghost use Rattle.std.specs.Prelude.{List, vec_capacity};
    ghost use Rattle.gixobj_tree_entries.specs.Entries.{EntryView};

    ghost Value = { List EntryView };

    ghost use Rattle.gixobj_editor_entries.specs.Pieces.{joined};
    ghost use Rattle.gixobj_editor_files.specs.OpenEntries.{IsStored};

    ghost view = { λ a. joined (λ p. p.items) a.tree a.more.items };

    ghost invariant = { λ a. IsStored (λ p. p.items) a.tree a.more.items a.spare.items
        (vec_capacity a.spare) a.len };
}

impl Entries {
    /// Takes over the entries of a tree, which must be well-formed. Allocates nothing.
    pub fn from_tree(alloc: Global, tree: Tree) -> Entries
        requires { IsWellFormed tree }
        ensures { result ≡ tree }
    {
        let len = tree.entries.len();
        Entries {
            tree,
            more: Vec::new(alloc),
            spare: Vec::new(alloc),
            len,
        }
    }

    /// Returns the number of entries. Allocates nothing.
    pub fn len(&self) -> usize
        ensures { result ≡ length self.now }
    {
        self.len
    }

    /// Returns the entry of a name, if there is one. Allocates nothing.
    pub fn find(&self, name: &[u8]) -> Option<&Entry>
        ensures { option_copied result ≡ find (λ e. same_name e.name name.now) self.now }
    {
        let first = entries_of(&self.tree);
        let more: &[Vec<Entry>] = &self.more;
        if has_byte(name, b'/') {
            return None;
        }
        match pieces::find(first, more, name, false) {
            Some(file) => Some(file),
            None => pieces::find(first, more, name, true),
        }
    }

    /// Returns the entry of tree mode of a name, if there is one. Allocates nothing.
    pub fn find_tree(&self, name: &[u8]) -> Option<&Entry>
        ensures { option_copied result ≡ find
            (λ e. same_name e.name name.now && is_tree_mode e.mode)
            self.now }
    {
        let first = entries_of(&self.tree);
        let more: &[Vec<Entry>] = &self.more;
        match pieces::find(first, more, name, true) {
            Some(found) => {
                if has_byte(name, b'/') {
                    return None;
                }
                Some(found)
            }
            None => None,
        }
    }

    /// Inserts an entry at the position of its key, in place of any entry of its name.
    ///
    /// Allocates its name and capacity for it. From 128 entries on, that is a part of the list, and capacity
    /// for all entries.
    ///
    /// # Errors
    ///
    /// [`AllocError`] if an allocation fails. Nothing is changed then.
    pub fn insert(
        &mut self,
        name: &BString,
        mode: EntryMode,
        id: ObjectId,
    ) -> Result<(), AllocError>
        requires { IsEntryName (bstring_bytes name.now) }
        ensures inserted { OnOk result (self.new ≡ with_entry
            (record { mode = mode_bits mode; name = bstring_bytes name.now; id = id }) self.old) }
        ensures unchanged { OnErr result (self.new ≡ self.old) }
    {
        let alloc = *self.tree.entries.allocator();
        let filename = BString::from_slice(alloc, name.as_bytes())?;
        let is_tree = mode.is_tree();
        let at = reserve_entry(
            &mut self.tree.entries,
            &mut self.more,
            &mut self.spare,
            self.len,
            name.as_bytes(),
            is_tree,
        )?;
        let entry = Entry {
            mode,
            filename,
            oid: id,
        };
        let inserted = pieces::insert_at(&mut self.tree.entries, &mut self.more, at, entry);
        self.len += usize::from(inserted.is_new);
        let bytes = name.as_bytes();
        let removed = pieces::remove_unless(
            inserted.is_alone,
            &mut self.tree.entries,
            &mut self.more,
            bytes,
            !is_tree,
        );
        self.len -= usize::from(removed);
        Ok(())
    }

    /// Removes the entry of a name, if there is one. Allocates nothing.
    pub fn remove(&mut self, name: &[u8])
        ensures { self.new ≡ without name.now self.old }
    {
        if remove_named(&mut self.tree.entries, &mut self.more, name) {
            self.len -= 1;
        }
    }
}

/// Conversions into trees.
impl Entries {
    /// Makes one piece of all entries. Allocates nothing.
    pub fn settle(&mut self)
        ensures { self.new ≡ self.old }
    {
        pieces::settle(&mut self.tree.entries, &mut self.more, &mut self.spare);
    }

    /// Returns the entries as a tree if they are one piece, as after [`Entries::settle`].
    /// Allocates nothing.
    pub fn as_tree(&self) -> Option<&Tree>
        ensures { IfSome result (λ tree. tree.now ≡ self.now) }
    {
        if self.more.is_empty() {
            Some(&self.tree)
        } else {
            None
        }
    }

    /// Returns the entries as a tree. It is a copy in `slot` unless they are one piece.
    ///
    /// Allocates nothing after [`Entries::settle`], and otherwise the list and each name of the copy.
    ///
    /// # Errors
    ///
    /// [`AllocError`] if an allocation fails.
    pub fn tree_in<'a>(&'a self, alloc: Global, slot: &'a mut Tree) -> Result<&'a Tree, AllocError>
        ensures { IfOk result (λ tree. tree.now ≡ self.now) }
    {
        if let Some(tree) = self.as_tree() {
            return Ok(tree);
        }
        *slot = self.copied(alloc)?;
        Ok(slot)
    }

    /// Converts the entries into a tree. Allocates nothing.
    pub fn into_tree(self) -> Tree
        ensures { result ≡ self }
    {
        let Entries {
            mut tree,
            mut more,
            mut spare,
            ..
        } = self;
        pieces::settle(&mut tree.entries, &mut more, &mut spare);
        tree
    }

    /// Copies the entries into a tree, each with a name of its own.
    ///
    /// Allocates the list and each name.
    ///
    /// # Errors
    ///
    /// [`AllocError`] if an allocation fails.
    pub fn copied(&self, alloc: Global) -> Result<Tree, AllocError>
        ensures { IfOk result (λ tree. tree ≡ self.now) }
    {
        let mut entries = Vec::with_capacity(alloc, self.len)?;
        append_copies(alloc, &mut entries, &self.tree.entries)?;
        for piece in &self.more {
            append_copies(alloc, &mut entries, piece)?;
        }
        Ok(Tree { entries })
    }

    /// Makes the entries equal to `written_tree`, which has some of them in their order, with ids of its own.
    ///
    /// `written_tree` must be well-formed, and no id in it may be null. Allocates nothing.
    pub fn become_tree(&mut self, written_tree: &Tree)
        requires well_formed { IsWellFormed written_tree.now }
        requires filtered { IsFilteredTree written_tree.now self.old }
        requires non_null { All (λ e. IsFalse (is_null e.id)) written_tree.now }
        ensures { self.new ≡ written_tree.now }
    {
        pieces::settle(&mut self.tree.entries, &mut self.more, &mut self.spare);
        become_tree(&mut self.tree, written_tree);
        self.len = written_tree.entries.len();
    }
}

/// Reserves capacity for an entry of this name and kind, and returns the number of its piece.
///
/// Unless the entry's list is one short piece, the spare list has capacity for one entry more than all
/// afterwards. The list is unchanged.
fn reserve_entry(
    first: &mut Vec<Entry>,
    more: &mut Vec<Vec<Entry>>,
    spare: &mut Vec<Entry>,
    len: usize,
    name: &[u8],
    is_tree: bool,
) -> Result<usize, AllocError>
    requires pieced { IsPieced (λ e. e.name) (λ e. is_tree_mode e.mode) (λ p. p.items)
        first.old.items more.old.items }
    requires len { len ≡ length (joined (λ p. p.items) first.old.items more.old.items) }
    requires spare { spare.old.items ≡ [] }
    requires has_room { (more.old.items ≡ []) ⊎ (len ≤ vec_capacity spare.old) }
    ensures pieced { IsPieced (λ e. e.name) (λ e. is_tree_mode e.mode) (λ p. p.items)
        first.new.items more.new.items }
    ensures unchanged { joined (λ p. p.items) first.new.items more.new.items
        ≡ joined (λ p. p.items) first.old.items more.old.items }
    ensures spare { spare.new.items ≡ [] }
    ensures has_room { (more.new.items ≡ []) ⊎ (len ≤ vec_capacity spare.new) }
    ensures has_room_for_one { OnOk result ((more.new.items ≡ [])
        ⊎ (len + 1 ≤ vec_capacity spare.new)) }
    ensures at { IfOk result (λ at. at ≡ pieces_at_most (λ e. key_of e.name (is_tree_mode e.mode))
        (key_of name.now is_tree) (λ p. p.items) more.new.items) }
    ensures has_capacity { IfOk result (HoldsAtPiece (λ p. vec_len p < vec_capacity p) first.new
        more.new.items) }
{
    if more.is_empty() && len < MIN_PIECED {
        first.reserve(1)?;
        return Ok(0);
    }
    let Some(room) = len.checked_add(1) else {
        return Err(AllocError);
    };
    spare.reserve(room)?;
    reserve(first, more, name, is_tree)
}

/// Returns the entries of a tree.
fn entries_of(tree: &Tree) -> &[Entry]
    ensures { result.now ≡ tree.now }
{
    &tree.entries
}

/// Removes the entry of a name, and returns `true` if there is one.
fn remove_named(first: &mut Vec<Entry>, more: &mut Vec<Vec<Entry>>, name: &[u8]) -> bool
    requires well_formed { IsWellFormed (joined (λ p. p.items) first.old.items more.old.items) }
    requires non_empty { AreNonEmpty (λ p. p.items) more.old.items }
    ensures removed { joined (λ p. p.items) first.new.items more.new.items
        ≡ without name.now (joined (λ p. p.items) first.old.items more.old.items) }
    ensures non_empty { AreNonEmpty (λ p. p.items) more.new.items }
    ensures len { length (joined (λ p. p.items) first.new.items more.new.items)
        + (if result then 1 else 0)
        ≡ length (joined (λ p. p.items) first.old.items more.old.items) }
    ensures pieces { length more.new.items ≤ length more.old.items }
{
    if has_byte(name, b'/') {
        return false;
    }
    if pieces::remove(first, more, name, false) {
        return true;
    }
    pieces::remove(first, more, name, true)
}

/// Appends copies of these entries, each with a name of its own.
fn append_copies(
    alloc: Global,
    copied: &mut Vec<Entry>,
    entries: &[Entry],
) -> Result<(), AllocError>
    ensures { OnOk result (copied.new.items ≡ copied.old.items ++ entries.now) }
{
    for entry in entries {
        copied.push(copy(alloc, entry)?)?;
    }
    Ok(())
}
