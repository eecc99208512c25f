//! Many edits, with the emitted trees kept by a store.

use gix_object::hash::Kind as HashKind;
use gix_object::tree::editor::{Command, Edit, Editor, Reply, run};
use gix_object::{Keep, OutOfMemory, Tree, encode};
use std::alloc::Global;

/// Applies the edits and writes the tree. The editor's store keeps the emitted trees. Returns a reply to each
/// edit, and one to the write.
pub fn keep_edits<S: Keep>(
    alloc: Global,
    editor: &mut Editor<S>,
    edits: Vec<Edit>,
) -> Result<Vec<Reply<encode::Error>>, OutOfMemory> {
    let mut commands: Vec<Command> = edits.into_iter().map(Command::Edit).collect(alloc)?;
    commands.push(Command::Edit(Edit::Write))?;
    run(
        alloc,
        editor,
        commands,
        |tree: &Tree| tree.compute_id(alloc, HashKind::Sha1),
    )
}
