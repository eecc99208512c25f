//! The entries that git reads of a tree.
ghost use Rattle.std.specs.Prelude.{◌≡◌, ◌↔◌, IfOk, IsTrue, OnErr};
ghost use Rattle.gixobj_fsck_trees.specs.RawEntries.{BeginsWithSomeRawEntry, EndsWithId, ReadsTree, end_of, ending_of};
ghost use Rattle.gixobj_fsck_trees.specs.RawViews.{raw_entry_views};

use crate::raw_entry::{RawEntry, decode_raw_entry};
use gixobj_hash::hash::Kind;
use std::alloc::{AllocError, Global};

/// What git reads of a tree.
#[derive(Drop)]
pub struct ReadTree<'a> {
    /// The entries.
    pub entries: Vec<RawEntry<'a>>,
    /// Whether bytes remain that begin with no entry.
    pub is_broken: bool,
    /// The offset after the last entry, or 0 if there is none.
    pub end: usize,
}

/// Reads a tree whose entries have ids of this kind. Only the list of entries allocates.
///
/// # Errors
///
/// [`AllocError`] if an allocation failed, only for bytes that begin with an entry.
pub fn read_tree<'a>(
    alloc: Global,
    bytes: &'a [u8],
    hash_kind: Kind,
) -> Result<ReadTree<'a>, AllocError>
    ensures found { IfOk result (λ it. ReadsTree hash_kind bytes.now
        (raw_entry_views it.entries.items) (ending_of it.is_broken)) }
    ensures end { IfOk result (λ it. it.end ≡ end_of (raw_entry_views it.entries.items)) }
    ensures error { OnErr result (BeginsWithSomeRawEntry hash_kind bytes.now) }
{
    let mut entries = Vec::new(alloc);
    if !ends_with_id(bytes, hash_kind) {
        return Ok(ReadTree {
            entries,
            is_broken: !bytes.is_empty(),
            end: 0,
        });
    }
    let mut rest = bytes;
    while !rest.is_empty() {
        let Some((entry, following)) = decode_raw_entry(rest, bytes.len(), hash_kind) else {
            return Ok(ReadTree {
                entries,
                is_broken: true,
                end: bytes.len() - rest.len(),
            });
        };
        entries.push(entry)?;
        rest = following;
    }
    Ok(ReadTree {
        entries,
        is_broken: false,
        end: bytes.len(),
    })
}

/// Returns whether the byte before the last ones, which may be an id, is zero.
fn ends_with_id(bytes: &[u8], hash_kind: Kind) -> bool
    ensures { IsTrue result ↔ EndsWithId hash_kind bytes.now }
{
    let len = hash_kind.len_in_bytes();
    len < bytes.len() && bytes[bytes.len() - len - 1] == 0
}
