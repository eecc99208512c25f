//! Well-formed trees (gitdatamodel, "trees").
ghost use Rattle.std.specs.Prelude.{◌≡◌, ◌↔◌, IsTrue};
ghost use Rattle.std.specs.Cmp.Lexicographic.{slice_cmp};
ghost use Rattle.std.specs.Ordering.{nat_cmp};
ghost use Rattle.gixobj_tree_entries.specs.KeyOrder.{ComesBefore, entry_key, key_of};
ghost use Rattle.gixobj_tree.specs.WellFormed.{AreApart, EachLater, HasKey, HasNamesake, HaveEntryNames, IsEntryName};
ghost use Rattle.gixobj_tree.specs.WellFormed.{IsWellFormed};

use super::{Entry, Tree};
use gixobj_hash::split::has_byte;
use gixobj_tree_entries::order::key_order;
use std::cmp::Ordering;

impl Tree {
    /// Returns whether the tree is well-formed.
    ///
    /// Each name is non-empty and free of `/`, names are distinct, and the entries ascend by
    /// [`name_order`](super::name_order). Allocates nothing. A binary search looks up the name of each
    /// directory among the entries.
    pub fn is_well_formed(&self) -> bool
        ensures { IsTrue result ↔ IsWellFormed self.now }
    {
        have_entry_names(&self.entries) && ascend(&self.entries) && are_apart(&self.entries)
    }
}

/// Returns whether each name is non-empty and without `/`.
fn have_entry_names(entries: &[Entry]) -> bool
    ensures { IsTrue result ↔ HaveEntryNames entries.now }
{
    entries
        .iter()
        .all(|entry| is_entry_name(entry.filename.as_bytes()))
}

/// Returns whether the name is non-empty and without `/`.
fn is_entry_name(name: &[u8]) -> bool
    ensures { IsTrue result ↔ IsEntryName name.now }
{
    !name.is_empty() && !has_byte(name, b'/')
}

/// Returns whether each entry comes before all later ones.
fn ascend(entries: &[Entry]) -> bool
    ensures { IsTrue result ↔ EachLater ComesBefore entries.now }
{
    entries.is_sorted_by(|entry, next| entry_key_order(entry, next).is_lt())
}

/// Returns whether names are distinct. Among ascending entries only a file and a directory can share one.
fn are_apart(entries: &[Entry]) -> bool
    requires names { HaveEntryNames entries.now }
    requires ascending { EachLater ComesBefore entries.now }
    ensures { IsTrue result ↔ AreApart entries.now }
{
    !entries.iter().any(|entry| has_namesake(entries, entry))
}

/// Returns whether the entry is a directory that shares its name with a file.
fn has_namesake(entries: &[Entry], entry: &Entry) -> bool
    requires { EachLater ComesBefore entries.now }
    ensures { IsTrue result ↔ HasNamesake entries.now entry.now }
{
    entry.mode.is_tree() && has_key(entries, entry.filename.as_bytes())
}

/// Returns whether an entry has this key.
fn has_key(entries: &[Entry], key: &[u8]) -> bool
    requires { EachLater ComesBefore entries.now }
    ensures { IsTrue result ↔ HasKey entries.now key.now }
{
    entries
        .binary_search_by(|entry| key_order_with(entry, key, false))
        .is_ok()
}

/// Compares the keys of two entries.
fn entry_key_order(entry: &Entry, next: &Entry) -> Ordering
    ensures { result ≡ slice_cmp nat_cmp (entry_key entry.now) (entry_key next.now) }
{
    key_order_with(entry, next.filename.as_bytes(), next.mode.is_tree())
}

/// Compares the key of an entry with the key of this name.
fn key_order_with(entry: &Entry, name: &[u8], is_tree: bool) -> Ordering
    ensures { result ≡ slice_cmp nat_cmp (entry_key entry.now) (key_of name.now is_tree) }
{
    key_order(
        entry.filename.as_bytes(),
        entry.mode.is_tree(),
        name,
        is_tree,
    )
}
