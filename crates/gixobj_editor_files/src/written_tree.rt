//! The written tree of an open directory, built next to the base that the directory was opened with.
ghost use Rattle.std.specs.Prelude.{◌≡◌, ◌≢◌, ◌↔◌, ◌++◌, ◌∷◌, [], ◌==◌, IfOk, IsTrue, List, OnErr, OnOk, Some, length};
ghost use Rattle.std.specs.Prelude.{slice_get};
ghost use Rattle.gixobj_tree_entries.specs.Entries.{EntryView};
ghost use Rattle.gixobj_tree_entries.specs.EntryOrder.{same_entry};
ghost use Rattle.gixobj_editor_files.specs.WrittenTrees.{SharesBase, so_far, with_id};

use crate::entries::{copies, copy};
use gixobj_hash::hash::ObjectId;
use gixobj_tree::Tree;
use gixobj_tree::tree::Entry;
use std::alloc::{AllocError, Global};

/// A written tree, which is built entry by entry next to a base. [`WrittenTree::new`] makes one.
///
/// While its entries are a prefix of the base, it is their number alone, which allocates nothing. At the
/// first entry that differs the prefix is copied, and from then on the tree has entries of its own.
#[derive(Drop)]
pub enum WrittenTree {
    /// A prefix of the base, as its number of entries.
    Prefix(usize),
    /// Entries of its own, which are no prefix of the base.
    Copied(Vec<Entry>),
}

impl WrittenTree {
    /// Makes a tree without entries. Allocates nothing.
    pub fn new() -> WrittenTree
        ensures { result ≡ WrittenTree.Prefix 0 }
    {
        WrittenTree::Prefix(0)
    }

    /// Appends the entry, with this id in place of its own. `base` must be the base of the tree.
    ///
    /// Allocates nothing while the tree with the entry is a prefix of the base. The first entry that differs
    /// allocates copies of the prefix, with capacity for `room` entries in all. Each entry from there on
    /// allocates its copy.
    ///
    /// # Errors
    ///
    /// [`AllocError`] if an allocation fails, never if the tree with the entry is a prefix of the base.
    pub fn push(
        &mut self,
        alloc: Global,
        base: &[Entry],
        entry: &Entry,
        id: ObjectId,
        room: usize,
    ) -> Result<(), AllocError>
        requires { SharesBase base.now self.old }
        ensures entries { OnOk result (so_far base.now self.new
            ≡ so_far base.now self.old ++ with_id entry.now id ∷ []) }
        ensures shares_base { OnOk result (SharesBase base.now self.new) }
        ensures allocates { OnErr result ((rest : List EntryView)
            → (so_far base.now self.old ++ with_id entry.now id ∷ []) ++ rest ≢ base.now) }
    {
        match self {
            WrittenTree::Prefix(same) => {
                if goes_on(base, *same, entry, id) {
                    *same += 1;
                    return Ok(());
                }
                let list = copy_with(alloc, &base[..*same], entry, id, room)?;
                *self = WrittenTree::Copied(list);
                Ok(())
            }
            WrittenTree::Copied(list) => push_copy(alloc, list, entry, id),
        }
    }

    /// Returns `true` if the tree has no entries. Allocates nothing.
    pub fn has_no_entries(&self) -> bool
        ensures { (base : List EntryView) → SharesBase base self.now
            → result ≡ (length (so_far base self.now) == 0) }
    {
        match self {
            WrittenTree::Prefix(same) => *same == 0,
            WrittenTree::Copied(list) => list.is_empty(),
        }
    }

    /// Returns `true` if the tree is the entire base. Allocates nothing.
    pub fn is_base(&self, base: &[Entry]) -> bool
        requires { SharesBase base.now self.now }
        ensures { IsTrue result ↔ (so_far base.now self.now ≡ base.now) }
    {
        match self {
            WrittenTree::Prefix(same) => *same == base.len(),
            WrittenTree::Copied(_) => false,
        }
    }

    /// Converts the written tree into a [`Tree`].
    ///
    /// Allocates copies of the entries if the tree is a prefix of the base, and nothing otherwise.
    ///
    /// # Errors
    ///
    /// [`AllocError`] if an allocation fails, only for a prefix of the base.
    pub fn into_tree(self, alloc: Global, base: &[Entry]) -> Result<Tree, AllocError>
        requires { SharesBase base.now self }
        ensures tree { IfOk result (λ tree. tree ≡ so_far base.now self) }
        ensures prefix_len { OnErr result ((rest : List EntryView)
            × (so_far base.now self ++ rest ≡ base.now)) }
    {
        let entries = match self {
            WrittenTree::Prefix(same) => copies(alloc, &base[..same])?,
            WrittenTree::Copied(list) => list,
        };
        Ok(Tree { entries })
    }
}

/// Returns `true` if the base has this entry, with this id, at position `same`.
fn goes_on(base: &[Entry], same: usize, entry: &Entry, id: ObjectId) -> bool
    ensures { IsTrue result ↔ (slice_get base.now same ≡ Some (with_id entry.now id)) }
{
    let Some(next) = base.get(same) else {
        return false;
    };
    is_same(next, entry, id)
}

/// Returns `true` if the entry equals the other with this id.
fn is_same(entry: &Entry, other: &Entry, id: ObjectId) -> bool
    ensures { result ≡ same_entry entry.now (with_id other.now id) }
{
    entry.mode == other.mode && entry.filename == other.filename && entry.oid.cmp(&id).is_eq()
}

/// Copies the prefix and appends a copy of the entry with this id; the list has capacity for `room` entries.
fn copy_with(
    alloc: Global,
    prefix: &[Entry],
    entry: &Entry,
    id: ObjectId,
    room: usize,
) -> Result<Vec<Entry>, AllocError>
    ensures { IfOk result (λ it. it.items ≡ prefix.now ++ with_id entry.now id ∷ []) }
{
    let mut list = copies(alloc, prefix)?;
    list.reserve(room.saturating_sub(prefix.len()))?;
    push_copy(alloc, &mut list, entry, id)?;
    Ok(list)
}

/// Appends a copy of the entry, with this id.
fn push_copy(
    alloc: Global,
    list: &mut Vec<Entry>,
    entry: &Entry,
    id: ObjectId,
) -> Result<(), AllocError>
    ensures { OnOk result (list.new.items ≡ list.old.items ++ with_id entry.now id ∷ []) }
{
    let mut copied = copy(alloc, entry)?;
    copied.oid = id;
    list.push(copied)?;
    Ok(())
}
