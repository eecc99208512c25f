//! Decoding of trees (gitdatamodel, "trees").
ghost use Rattle.std.specs.Prelude.{◌≡◌, ◌≤◌, ◌<◌, ◌+◌, ◌/◌, IfErr, IfOk, length, min};
ghost use Rattle.gixobj_hash.specs.Hash.{hash_len, id_kind};
ghost use Rattle.gixobj_tree_entries.specs.TreeDecoding.{DecodesToTree, IsTreeDecodeError};
ghost use Rattle.gixobj_tree.specs.TreeViews.{tree_entries};

use super::TreeRef;
use gixobj_hash::decode::Error;
use gixobj_hash::hash::Kind;
pub use gixobj_tree_entries::decode::decode_entry;
use std::alloc::Global;

impl<'a> TreeRef<'a> {
    /// Decodes a tree whose entries have ids of this kind. Only the list of entries allocates.
    ///
    /// # Errors
    ///
    /// - [`Error::Malformed`] if the bytes are not the encoding of a tree.
    /// - [`Error::OutOfMemory`] if the allocation of the list failed, only for bytes that begin with an
    ///   entry.
    ///
    /// # Examples
    ///
    /// ```rust
    /// fn tree_of(alloc: Global, bytes: &[u8]) -> Result<Tree, decode::Error> {
    ///     let tree = TreeRef::from_bytes(alloc, bytes, Kind::Sha1)?;
    ///     Ok(tree.into_owned(alloc)?)
    /// }
    /// ```
    pub fn from_bytes(alloc: Global, bytes: &'a [u8], hash_kind: Kind) -> Result<TreeRef<'a>, Error>
        ensures found { IfOk result (λ tree. DecodesToTree hash_kind bytes.now
            (tree_entries tree)) }
        ensures error { IfErr result (IsTreeDecodeError hash_kind bytes.now) }
    {
        let mut entries = Vec::new(alloc);
        // If this reservation fails, each entry reserves its own room.
        let _ = entries.reserve(likely_entries(bytes, hash_kind));
        let mut rest = bytes;
        while !rest.is_empty() {
            let Some((entry, following)) = decode_entry(rest, hash_kind) else {
                return Err(Error::Malformed);
            };
            entries.push(entry)?;
            rest = following;
        }
        Ok(TreeRef { entries })
    }
}

/// The number of entries if their names had 8 bytes, at most 128. Most names are longer, so most trees
/// have no more entries.
fn likely_entries(bytes: &[u8], hash_kind: Kind) -> usize {
    (bytes.len() / (16 + hash_kind.len_in_bytes())).min(128)
}
