//! Commands, and checks of results, that several modules share.

use bstr::BString;
use gix_object::tree::editor::{Command, Written};
use gixobj_tests_api::samples::{Row, edits_of, id, path_of};
use std::alloc::Global;

/// The id of the blob `hello`, with a newline.
pub(crate) const FIRST: &[u8] = b"ce013625030ba8dba906f756967f9e9ca394464a";

/// The id of the empty blob.
pub(crate) const SECOND: &[u8] = b"e69de29bb2d1d6434b8b29ae775ad8c2e48c5391";

/// Commands of these edits. Empty if memory runs out.
pub(crate) fn commands_of(alloc: Global, rows: &[Row]) -> Vec<Command> {
    let commands = edits_of(alloc, rows)
        .into_iter()
        .map(Command::Edit)
        .collect(alloc);
    commands.unwrap_or(Vec::new(alloc))
}

/// Whether a path has these names.
pub(crate) fn has_names(alloc: Global, path: &[BString], names: &[&str]) -> bool {
    path == path_of(alloc, names).as_slice()
}

/// Whether the root with this id is written, and `count` trees are emitted.
pub(crate) fn is_root(written: &Written, root: &[u8], count: usize) -> bool {
    written.id == id(root) && written.trees.len() == count
}
