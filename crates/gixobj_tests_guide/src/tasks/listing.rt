//! Lists a tree.

use bstr::BStr;
use gix_object::hash::Kind as HashKind;
use gix_object::{TreeRefIter, decode};
use std::alloc::Global;

/// Lists the names of the executable files in a tree.
pub fn executables(alloc: Global, bytes: &[u8]) -> Result<Vec<BStr<'_>>, decode::Error> {
    let mut names = Vec::new(alloc);
    for entry in TreeRefIter::from_bytes(bytes, HashKind::Sha1) {
        let entry = entry?;
        if entry.mode.is_executable() {
            names.push(entry.filename)?;
        }
    }
    Ok(names)
}
