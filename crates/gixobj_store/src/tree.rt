//! Iteration over the entries of an encoded tree (gitdatamodel, "trees").
ghost use Rattle.std.specs.Prelude.{◌≡◌, ◌-◌, [], IfErr, IfOk, length, map};
ghost use Rattle.gixobj_store.specs.EntrySteps.{NextEntry, IsAtEntry, IsTail, remaining_tree_bytes};
ghost use Rattle.gixobj_store.specs.EntrySteps.{remaining_entry_count};
ghost use Rattle.gixobj_tree_entries.specs.TreeDecoding.{DecodesToTree, IsTreeDecodeError};
ghost use Rattle.gixobj_tree_entries.specs.EntryViews.{entry_view};

mod lookup;

use gixobj_hash::decode::Error;
use gixobj_hash::hash;
use gixobj_tree::TreeRef;
use gixobj_tree::tree::EntryRef;
use gixobj_tree::tree::decode::decode_entry;
pub use lookup::{next_entry, path_names};
use std::alloc::Global;

/// An iterator over the entries of an encoded tree, which are decoded one by one.
///
/// [`TreeRefIter::from_bytes`] makes one.
#[derive(Clone, Copy, Debug, PartialEq, Eq, PartialOrd, Ord, Hash)]
pub struct TreeRefIter<'a> {
    hash_kind: hash::Kind,
    bytes: &'a [u8],
}

/// Lifecycle
impl<'a> TreeRefIter<'a> {
    /// Makes an iterator over the entries of the tree that `bytes` encodes, with ids of `hash_kind`.
    ///
    /// Decodes nothing yet. Allocates nothing.
    ///
    /// # Examples
    ///
    /// ```rust
    /// pub fn executables(alloc: Global, bytes: &[u8]) -> Result<Vec<BStr<'_>>, decode::Error> {
    ///     let mut names = Vec::new(alloc);
    ///     for entry in TreeRefIter::from_bytes(bytes, HashKind::Sha1) {
    ///         let entry = entry?;
    ///         if entry.mode.is_executable() {
    ///             names.push(entry.filename)?;
    ///         }
    ///     }
    ///     Ok(names)
    /// }
    /// ```
    pub fn from_bytes(bytes: &'a [u8], hash_kind: hash::Kind) -> TreeRefIter<'a>
        ensures { IsAtEntry hash_kind bytes.now result }
    {
        TreeRefIter { hash_kind, bytes }
    }
}

impl<'a> Default for TreeRefIter<'a> {
    ghost use Rattle.gixobj_hash.specs.declared.hash.kind.Kind.TheVariants.{Sha1};

    ghost is_default = { IsAtEntry Sha1 [] };

    /// Makes an iterator over no bytes, with ids of the default hash kind, SHA-1. Allocates nothing.
    fn default() -> TreeRefIter<'a> {
        TreeRefIter::from_bytes(b"", hash::Kind::default())
    }
}

/// Access
impl<'a> TreeRefIter<'a> {
    /// Decodes the remaining entries. Allocates the list of entries.
    ///
    /// # Errors
    ///
    /// - [`Error::Malformed`] if the remaining bytes are not the encoding of a tree.
    /// - [`Error::OutOfMemory`] if an allocation fails. The remaining bytes then begin with an entry.
    pub fn entries(self, alloc: Global) -> Result<Vec<EntryRef<'a>>, Error>
        ensures found { IfOk result (λ entries.
            DecodesToTree self.entry.hash_kind (remaining_tree_bytes self.entry)
            (map entry_view entries.items)) }
        ensures error { IfErr result (IsTreeDecodeError self.entry.hash_kind
            (remaining_tree_bytes self.entry)) }
    {
        let tree = TreeRef::from_bytes(alloc, self.bytes, self.hash_kind)?;
        Ok(tree.entries)
    }

    /// Returns the offset of the next entry in `buf`, in bytes. `buf` must end with the remaining bytes.
    ///
    /// A new iterator over the bytes from this offset continues like this one. Allocates nothing.
    pub fn offset_to_next_entry(&self, buf: &[u8]) -> usize
        requires { IsTail buf.now (remaining_tree_bytes self.now) }
        ensures { result ≡ length buf.now - length (remaining_tree_bytes self.now) }
    {
        buf.len() - self.bytes.len()
    }
}

/// Yields the next entry, or `None` if no bytes remain. After an error the iterator is at its end.
///
/// Allocates nothing.
///
/// # Errors
///
/// [`Error::Malformed`] if bytes remain that begin with no entry.
impl<'a> Iterator for TreeRefIter<'a> {
    type Item = Result<EntryRef<'a>, Error>;

    ghost next_gives = { NextEntry };

    ghost remaining = { remaining_entry_count };

    fn next(&mut self) -> Option<Result<EntryRef<'a>, Error>> {
        if self.bytes.is_empty() {
            return None;
        }
        match decode_entry(self.bytes, self.hash_kind) {
            Some((entry, rest)) => {
                self.bytes = rest;
                Some(Ok(entry))
            }
            None => {
                self.bytes = b"";
                Some(Err(Error::Malformed))
            }
        }
    }
}
