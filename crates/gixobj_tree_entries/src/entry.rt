//! Entries of trees (gitdatamodel, "trees").
ghost use Rattle.std.specs.Prelude.{◌≡◌, refl};
ghost use Rattle.std.specs.Cmp.{partial_equiv_from_equiv, partial_order_from_agreeing_total};
ghost use Rattle.std.specs.Cmp.Lexicographic.{slice_cmp};
ghost use Rattle.std.specs.Ordering.{as_partial_cmp, nat_cmp};
ghost use Rattle.bstr.specs.Owned.{bstring_bytes};
ghost use Rattle.gixobj_tree_entries.specs.KeyOrder.{entry_key};
ghost use Rattle.gixobj_tree_entries.specs.EntryOrder.{entry_cmp, entry_feed, same_entry};
ghost use Rattle.gixobj_tree_entries.specs.EntryOrderLaws.{entries_alike, entry_cmp_total, entry_equiv, entry_ties};

use crate::EntryMode;
use crate::order::key_order;
use bstr::BString;
use gixobj_hash::hash::ObjectId;
use std::cmp::Ordering;
use std::hash::{Hash, Hasher};
use std::marker::Model;

/// An entry of a tree: a file or a directory, with its name.
///
/// [`EntryRef::into_owned`](super::EntryRef::into_owned) makes one of a borrowed entry.
#[derive(Clone, Debug, Drop)]
pub struct Entry {
    /// The name, one component of a path.
    pub filename: BString,
    /// The id of the object.
    pub oid: ObjectId,
    /// The kind of the object, and the permissions of a file.
    pub mode: EntryMode,
}

impl Model for Entry {
    ghost use Rattle.bstr.specs.Owned.{bstring_bytes};
    ghost use Rattle.gixobj_tree_entries.specs.Entries.{EntryView};
    ghost use Rattle.gixobj_tree_entries.specs.Mode.{mode_bits};

    ghost Value = { EntryView };

    ghost view = { λ e. record {
      mode = mode_bits e.mode;
      name = bstring_bytes e.filename;
      id = e.oid;
    } };
}

impl Entry {
    /// Compares the keys.
    fn key_order(&self, other: &Entry) -> Ordering
        ensures { result ≡ slice_cmp nat_cmp (entry_key self.now) (entry_key other.now) }
    {
        key_order(
            self.filename.as_bytes(),
            self.mode.is_tree(),
            other.filename.as_bytes(),
            other.mode.is_tree(),
        )
    }
}

/// Entries are equal if their modes, names and ids are.
impl PartialEq for Entry {
    ghost eq = { same_entry };

    ghost laws = { partial_equiv_from_equiv entry_equiv };

    fn eq(&self, other: &Entry) -> bool {
        self.mode == other.mode
            && self.filename == other.filename
            && self.oid.cmp(&other.oid).is_eq()
    }
}

impl Eq for Entry {
    ghost laws = { entry_equiv };
}

/// Orders entries as in a tree: by name, with `/` appended to a tree's. Ties are ordered by mode, name
/// and id.
impl Ord for Entry {
    ghost cmp = { entry_cmp };

    ghost total = { entry_cmp_total };

    ghost matches_partial_cmp = { λ x y. refl };

    ghost matches_eq = { entry_ties };

    fn cmp(&self, other: &Entry) -> Ordering {
        let modes = self.mode.cmp(&other.mode);
        let names = self.filename.cmp(&other.filename);
        let ids = self.oid.cmp(&other.oid);
        self.key_order(other).then(modes.then(names.then(ids)))
    }
}

impl PartialOrd for Entry {
    ghost partial_cmp = { as_partial_cmp entry_cmp };

    ghost laws = { partial_order_from_agreeing_total entry_cmp entry_cmp_total
        (λ x y. refl) entry_ties };

    fn partial_cmp(&self, other: &Entry) -> Option<Ordering> {
        Some(self.cmp(other))
    }
}

/// Hashes the mode, the name and the id.
impl Hash for Entry {
    ghost hash_input = { entry_feed };

    ghost respects_eq = { entries_alike };

    fn hash<H: Hasher>(&self, state: &mut H) {
        self.mode.hash(state);
        self.filename.hash(state);
        self.oid.hash(state);
    }
}
