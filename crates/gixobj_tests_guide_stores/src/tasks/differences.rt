//! The entries in which two trees differ.

use gix_object::hash::Kind as HashKind;
use gix_object::tree::EntryRef;
use gix_object::{OutOfMemory, TreeRef, decode};
use std::alloc::Global;

/// The entries of two trees without those that are in both.
#[derive(Drop)]
pub struct Difference<'a> {
    pub before: Vec<EntryRef<'a>>,
    pub after: Vec<EntryRef<'a>>,
}

/// Compares the encodings of two trees.
pub fn compare<'a>(
    alloc: Global,
    before: &'a [u8],
    after: &'a [u8],
) -> Result<Difference<'a>, decode::Error> {
    let before = TreeRef::from_bytes(alloc, before, HashKind::Sha1)?;
    let after = TreeRef::from_bytes(alloc, after, HashKind::Sha1)?;
    Ok(Difference {
        before: without(alloc, &before, &after)?,
        after: without(alloc, &after, &before)?,
    })
}

/// Lists the entries of a tree that another one lacks.
fn without<'a>(
    alloc: Global,
    tree: &TreeRef<'a>,
    other: &TreeRef<'a>,
) -> Result<Vec<EntryRef<'a>>, OutOfMemory> {
    let mut entries = Vec::new(alloc);
    for entry in &tree.entries {
        if other.bisect_entry(entry.filename, entry.mode.is_tree()) != Some(*entry) {
            entries.push(*entry)?;
        }
    }
    Ok(entries)
}
