//! Names that two entries have.
ghost use Rattle.std.specs.Prelude.{◌↔◌, ◌<◌, IfOk, IsTrue, OnErr, length};
ghost use Rattle.gixobj_fsck_trees.specs.FirstOffsets.{FindsOffset, IsNoName, IsRepeatOffset};
ghost use Rattle.gixobj_fsck_trees.specs.RawViews.{raw_entry_views};
ghost use Rattle.gixobj_fsck_trees.specs.TreeMessages.{Ascend, HasNameTwice};

use crate::raw_entry::RawEntry;
use gixobj_tree_entries::order::key_order;
use std::alloc::{AllocError, Global};
use std::collections::BTreeSet;

/// Returns whether two entries have one name. Unless the names ascend, the set of them allocates.
pub(crate) fn has_name_twice(alloc: Global, entries: &[RawEntry]) -> Result<bool, AllocError>
    ensures found { IfOk result (λ twice. IsTrue twice
        ↔ HasNameTwice (raw_entry_views entries.now)) }
    ensures error { OnErr result (0 < length entries.now) }
{
    let first = first_repeat(alloc, entries)?;
    Ok(first.is_some())
}

/// Returns the offset of the first entry that has the name of an entry before it.
///
/// Unless the names ascend, the set of them allocates.
///
/// # Errors
///
/// [`AllocError`] if an allocation failed, only if there is an entry.
pub fn first_repeat(alloc: Global, entries: &[RawEntry]) -> Result<Option<usize>, AllocError>
    ensures found { IfOk result
        (FindsOffset (IsRepeatOffset IsNoName (raw_entry_views entries.now))) }
    ensures error { OnErr result (0 < length entries.now) }
{
    if names_ascend(entries) {
        return Ok(None);
    }
    let mut names = BTreeSet::new(alloc);
    for entry in entries {
        if !names.insert(entry.name)? {
            return Ok(Some(entry.offset));
        }
    }
    Ok(None)
}

/// Returns whether each name is less than the next, bytewise, as in most trees.
fn names_ascend(entries: &[RawEntry]) -> bool
    ensures { IsTrue result ↔ Ascend (raw_entry_views entries.now) }
{
    let Some((first, others)) = entries.split_first() else {
        return true;
    };
    let mut previous = first;
    let mut rest = others;
    while let Some((entry, after)) = rest.split_first() {
        if !key_order(previous.name, false, entry.name, false).is_lt() {
            return false;
        }
        previous = entry;
        rest = after;
    }
    true
}
