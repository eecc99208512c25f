//! Entries of trees, borrowed (gitdatamodel, "trees").
ghost use Rattle.std.specs.Prelude.{refl};
ghost use Rattle.std.specs.Cmp.{on_equiv, on_total, partial_equiv_from_equiv, partial_order_from_agreeing_total};
ghost use Rattle.std.specs.Ordering.{as_partial_cmp, on};
ghost use Rattle.gixobj_tree_entries.specs.EntryOrder.{entry_cmp, entry_feed, same_entry};
ghost use Rattle.gixobj_tree_entries.specs.EntryOrderLaws.{entries_alike, entry_cmp_total, entry_equiv, entry_ties};
ghost use Rattle.gixobj_tree_entries.specs.EntryViews.{entry_view};

use crate::EntryMode;
use crate::order::key_order;
use bstr::BStr;
use gixobj_hash::hash::oid;
use std::cmp::Ordering;
use std::hash::{Hash, Hasher};

/// An entry of a tree, borrowed: a file or a directory, with its name.
///
/// [`decode_entry`](super::decode::decode_entry) decodes one.
#[derive(Clone, Copy, Debug)]
pub struct EntryRef<'a> {
    /// The kind of the object, and the permissions of a file.
    pub mode: EntryMode,
    /// The name, one component of a path.
    pub filename: BStr<'a>,
    /// The id of the object.
    pub oid: oid<'a>,
}

/// Entries are equal if their modes, names and ids are.
impl PartialEq for EntryRef<'_> {
    ghost eq = { λ x y. same_entry (entry_view x) (entry_view y) };

    ghost laws = { partial_equiv_from_equiv (on_equiv entry_view entry_equiv) };

    fn eq(&self, other: &Self) -> bool {
        self.mode == other.mode
            && self.filename == other.filename
            && self.oid.to_owned().cmp(&other.oid.to_owned()).is_eq()
    }
}

impl Eq for EntryRef<'_> {
    ghost laws = { on_equiv entry_view entry_equiv };
}

/// Orders entries as in a tree: by name, with `/` appended to a tree's. Ties are ordered by mode, name
/// and id.
impl Ord for EntryRef<'_> {
    ghost cmp = { on entry_view entry_cmp };

    ghost total = { on_total entry_view entry_cmp_total };

    ghost matches_partial_cmp = { λ x y. refl };

    ghost matches_eq = { λ x y. entry_ties (entry_view x) (entry_view y) };

    fn cmp(&self, other: &Self) -> Ordering {
        let name = self.filename.as_bytes();
        let other_name = other.filename.as_bytes();
        let keys = key_order(name, self.mode.is_tree(), other_name, other.mode.is_tree());
        let modes = self.mode.cmp(&other.mode);
        let names = self.filename.cmp(&other.filename);
        let ids = self.oid.to_owned().cmp(&other.oid.to_owned());
        keys.then(modes.then(names.then(ids)))
    }
}

impl PartialOrd for EntryRef<'_> {
    ghost partial_cmp = { as_partial_cmp (on entry_view entry_cmp) };

    ghost laws = { partial_order_from_agreeing_total (on entry_view entry_cmp)
        (on_total entry_view entry_cmp_total) (λ x y. refl)
        (λ x y. entry_ties (entry_view x) (entry_view y)) };

    fn partial_cmp(&self, other: &Self) -> Option<Ordering> {
        Some(self.cmp(other))
    }
}

/// Hashes the mode, the name and the id, like an owned entry.
impl Hash for EntryRef<'_> {
    ghost hash_input = { λ entry. entry_feed (entry_view entry) };

    ghost respects_eq = { λ x y. entries_alike (entry_view x) (entry_view y) };

    fn hash<H: Hasher>(&self, state: &mut H) {
        self.mode.hash(state);
        self.filename.hash(state);
        self.oid.hash(state);
    }
}
