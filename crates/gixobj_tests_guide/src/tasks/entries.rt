//! Searches a tree for an entry by name.

use bstr::BStr;
use gix_object::hash::{Kind as HashKind, ObjectId};
use gix_object::{TreeRef, decode};
use std::alloc::Global;

/// Returns the id of the entry with this name, if it isn't a directory.
pub fn file_id(
    alloc: Global,
    bytes: &[u8],
    name: &[u8],
) -> Result<Option<ObjectId>, decode::Error> {
    let tree = TreeRef::from_bytes(alloc, bytes, HashKind::Sha1)?;
    match tree.bisect_entry(BStr::new(name), false) {
        Some(entry) => Ok(Some(entry.oid.to_owned())),
        None => Ok(None),
    }
}
