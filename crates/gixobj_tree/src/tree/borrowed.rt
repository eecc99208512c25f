//! Borrowed trees, and binary searches in them (gitdatamodel, "trees").
ghost use Rattle.std.specs.Prelude.{◌≡◌, ◌≢◌, [], Contains, IfErr, IfOk, IfSome, length, MatchOption};
ghost use Rattle.std.specs.List.Sorted.{IsBinarySearchResult, IsSearchInRange};
ghost use Rattle.std.specs.declared.cmp.Ordering.TheVariants.{Equal};
ghost use Rattle.gixobj_hash.specs.Bytes.{slash};
ghost use Rattle.gixobj_hash.specs.ByteStrings.{IsByteFree};
ghost use Rattle.gixobj_tree_entries.specs.KeyOrder.{entry_key, key_of, name_cmp};
ghost use Rattle.gixobj_tree.specs.WellFormed.{HasKey, IsWellFormed};
ghost use Rattle.gixobj_tree_entries.specs.Mode.{is_tree_mode};
ghost use Rattle.gixobj_tree_entries.specs.EntryViews.{entry_view};
ghost use Rattle.gixobj_tree.specs.TreeViews.{tree_entries};
ghost use Rattle.bstr.specs.BStr.{bstr_bytes};

mod compared;
pub mod decode;
mod owned;
mod write;

use crate::tree::{EntryRef, name_order};
use bstr::BStr;
use std::alloc::Global;
use std::cmp::Ordering;

/// A tree: the entries of a directory, borrowed from its encoding. [`TreeRef::from_bytes`] makes one.
#[derive(Clone, Debug, Drop)]
pub struct TreeRef<'a> {
    /// The entries, in any order. Those of a well-formed tree (`is_well_formed`) are in the order of
    /// [`name_order`], with distinct names; decoding doesn't check this.
    pub entries: Vec<EntryRef<'a>>,
}

/// Initialization
impl TreeRef<'_> {
    /// Creates a tree without entries. Allocates nothing: the list only keeps `alloc`.
    pub fn empty(alloc: Global) -> TreeRef<'static>
        ensures { tree_entries result ≡ [] }
    {
        TreeRef {
            entries: Vec::new(alloc),
        }
    }
}

/// Access
impl<'a> TreeRef<'a> {
    /// Finds the entry of this name by binary search. `is_dir` says whether it is a directory.
    ///
    /// In a well-formed tree, and for a name without `/`, the result is exact: the entry of this name and
    /// kind, or `None`. Otherwise the result is some entry that [`name_order`] finds equal, or `None`.
    /// Allocates nothing.
    ///
    /// # Examples
    ///
    /// ```rust
    /// let tree = TreeRef::from_bytes(alloc, bytes, HashKind::Sha1)?;
    /// match tree.bisect_entry(BStr::new(name), false) {
    ///     Some(entry) => Ok(Some(entry.oid.to_owned())),
    ///     None => Ok(None),
    /// }
    /// ```
    pub fn bisect_entry(&self, name: BStr<'_>, is_dir: bool) -> Option<EntryRef<'a>>
        ensures found { IfSome result (λ e. Contains (tree_entries self.now) (entry_view e)
            × (name_cmp (entry_view e).name (is_tree_mode (entry_view e).mode)
            (bstr_bytes name.entry) is_dir ≡ Equal)) }
        ensures by_key { IsWellFormed (tree_entries self.now)
            → IsByteFree slash (bstr_bytes name.entry)
            → MatchOption result (¬ HasKey (tree_entries self.now)
            (key_of (bstr_bytes name.entry) is_dir))
            (λ e. entry_key (entry_view e) ≡ key_of (bstr_bytes name.entry) is_dir) }
    {
        match position_of(&self.entries, name.as_bytes(), is_dir) {
            Ok(at) => Some(self.entries[at]),
            Err(_) => None,
        }
    }
}

/// Finds the position of an entry that [`name_order`] finds equal, or the position to insert one. The
/// binary search ends at the first such entry.
#[inline(always)]
fn position_of(entries: &[EntryRef<'_>], name: &[u8], is_dir: bool) -> Result<usize, usize>
    ensures bound { IsSearchInRange result (length entries.now) }
    ensures position { IsBinarySearchResult (λ e. name_cmp (entry_view e).name
        (is_tree_mode (entry_view e).mode) name.now is_dir) entries.now result }
{
    let mut low = 0;
    let mut high = entries.len();
    while low < high {
        let middle = low + (high - low) / 2;
        match order_with(&entries[middle], name, is_dir) {
            Ordering::Less => low = middle + 1,
            Ordering::Equal => return Ok(middle),
            Ordering::Greater => high = middle,
        }
    }
    Err(low)
}

/// Compares an entry with this name.
#[inline(always)]
fn order_with(entry: &EntryRef<'_>, name: &[u8], is_dir: bool) -> Ordering
    ensures { result ≡ name_cmp (entry_view entry.now).name
        (is_tree_mode (entry_view entry.now).mode) name.now is_dir }
{
    name_order(
        entry.filename.as_bytes(),
        entry.mode.is_tree(),
        name,
        is_dir,
    )
}
