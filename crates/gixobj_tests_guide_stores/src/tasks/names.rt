//! The names of a path given as bytes.

use bstr::BString;
use gix_object::OutOfMemory;
use gix_object::tree::path_names;
use std::alloc::Global;

/// Returns the last name of a path such as `docs/a.txt`. Empty names are skipped. `None` if there is no other.
pub fn file_name(alloc: Global, path: &[u8]) -> Result<Option<BString>, OutOfMemory> {
    let mut names = path_names(alloc, path)?;
    Ok(names.pop())
}
