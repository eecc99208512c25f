//! Entries of a directory: copies, and tests of one entry.
ghost use Rattle.std.specs.Prelude.{◌≡◌, IfOk, not};
ghost use Rattle.gixobj_editor_files.specs.Editing.{same_name};
ghost use Rattle.gixobj_editor_files.specs.Files.{is_null};

use bstr::BString;
use gixobj_tree::tree::Entry;
use std::alloc::{AllocError, Global};

/// Returns `true` if the entry has this name. Allocates nothing.
pub fn is_named(entry: &Entry, name: &[u8]) -> bool
    ensures { result ≡ same_name entry.now.name name.now }
{
    entry.filename.as_bytes() == name
}

/// Returns `true` unless the entry's id is the null id. Allocates nothing.
pub fn is_non_null(entry: &Entry) -> bool
    ensures { result ≡ not (is_null entry.now.id) }
{
    !entry.oid.is_null()
}

/// Copies entries, each with a name of its own.
///
/// Allocates the list and each name.
///
/// # Errors
///
/// [`AllocError`] if an allocation fails.
pub fn copies(alloc: Global, entries: &[Entry]) -> Result<Vec<Entry>, AllocError>
    ensures { IfOk result (λ copied. copied.items ≡ entries.now) }
{
    let mut copied = Vec::with_capacity(alloc, entries.len())?;
    for entry in entries {
        copied.push(copy(alloc, entry)?)?;
    }
    Ok(copied)
}

/// Copies an entry, with a name of its own.
///
/// Allocates the name.
///
/// # Errors
///
/// [`AllocError`] if an allocation fails.
pub fn copy(alloc: Global, entry: &Entry) -> Result<Entry, AllocError>
    ensures { IfOk result (λ copied. copied ≡ entry.now) }
{
    Ok(Entry {
        mode: entry.mode,
        filename: BString::from_slice(alloc, entry.filename.as_bytes())?,
        oid: entry.oid,
    })
}
