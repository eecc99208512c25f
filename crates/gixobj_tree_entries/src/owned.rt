//! Owned copies of borrowed entries, and entries borrowed from owned ones.
ghost use Rattle.std.specs.Prelude.{◌≡◌, IfOk};
ghost use Rattle.gixobj_tree_entries.specs.EntryViews.{entry_view};

use crate::{Entry, EntryRef};
use bstr::{BStr, BString};
use gixobj_hash::OutOfMemory;
use std::alloc::Global;

impl EntryRef<'_> {
    /// Copies the entry into an owned [`Entry`]. The name allocates.
    ///
    /// # Errors
    ///
    /// [`OutOfMemory`] if the allocation of the name failed.
    pub fn into_owned(self, alloc: Global) -> Result<Entry, OutOfMemory>
        ensures { IfOk result (λ entry. entry ≡ entry_view self.entry) }
    {
        Ok(Entry {
            mode: self.mode,
            filename: BString::from_slice(alloc, self.filename.as_bytes())?,
            oid: self.oid.to_owned(),
        })
    }
}

impl<'a> From<&'a Entry> for EntryRef<'a> {
    ghost from_gives = { λ entry borrowed. entry_view borrowed ≡ entry.now };

    /// Borrows the entry.
    fn from(entry: &'a Entry) -> EntryRef<'a> {
        EntryRef {
            mode: entry.mode,
            filename: BStr::new(entry.filename.as_bytes()),
            oid: entry.oid.as_oid(),
        }
    }
}
