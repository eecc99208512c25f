//! Edits a tree.

use bstr::BString;
use gix_object::Find;
use gix_object::hash::ObjectId;
use gix_object::tree::EntryKind;
use gix_object::tree::editor::{Editor, Error};

/// Moves a file from one path to another. Fails if a directory is at the first.
pub fn rename<S: Find>(
    editor: &mut Editor<S>,
    from: &[BString],
    to: &[BString],
    blob: ObjectId,
) -> Result<(), Error> {
    editor.try_remove_leaf(from)?;
    editor.try_upsert(to, EntryKind::Blob, blob)
}

/// Inserts files into a directory. A missing directory is created.
pub fn fill<S: Find>(
    editor: &mut Editor<S>,
    directory: &[BString],
    files: &[(Vec<BString>, ObjectId)],
) -> Result<(), Error> {
    let mut cursor = editor.cursor_at(directory)?;
    for (path, blob) in files {
        cursor.try_upsert(path, EntryKind::Blob, *blob)?;
    }
    Ok(())
}
