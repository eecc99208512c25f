//! Writes the trees of an editor.

use gix_object::hash::{Kind as HashKind, ObjectId};
use gix_object::tree::editor::{Editor, WriteError, Written};
use gix_object::{Tree, encode};
use std::alloc::Global;

/// Writes the edited tree. Returns its id and the number of trees to store.
pub fn write<S>(
    alloc: Global,
    editor: &mut Editor<S>,
) -> Result<(ObjectId, usize), WriteError<encode::Error>> {
    let out = |tree: &Tree| tree.compute_id(alloc, HashKind::Sha1);
    let Written { id, trees, .. } = editor.write(out)?;
    Ok((id, trees.len()))
}
