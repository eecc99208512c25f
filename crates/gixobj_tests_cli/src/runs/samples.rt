//! Scripts and commands that several tests run, and functions that run them.

use gixobj_base::hash::{Kind as HashKind, ObjectId};
use gixobj_base::{OutOfMemory, Tree, encode};
use gixobj_cli_edit::{parse_script, report_lines};
use gixobj_editor::editor::{Editor, Error, Written};
use gixobj_editor::{Command, Reply, run};
use gixobj_store_keep::Memory;
use gixobj_tests_stores::failing::Failing;
use std::alloc::{AllocError, Global};

/// Edits before and after writes: an emitted directory is looked up again.
pub(crate) const TEN_LINES: &str = "upsert blob fa49b077972391ad58037050f2a75f74e3671e92 new.txt
upsert blob 1f7a7a472abf3dd9643fd615f6da379c4acb3e3a test.txt
at bak upsert blob 83baae61804e65cc73a7201a7252750c76066a30 test.txt
write
remove bak/none
write
at bak write
leaf bak/test.txt
write
upsert blob 83baae61804e65cc73a7201a7252750c76066a30 q//r
";

/// Returns an editor of the empty root over a store without objects, with lookups and calls of `keep` that
/// fail.
pub(crate) fn editor_over(
    alloc: Global,
    lookups_that_fail: &'static [u64],
    keeps_that_fail: &'static [u64],
) -> Editor<Failing> {
    let store = Failing::new(
        alloc,
        Memory::new(alloc),
        lookups_that_fail,
        keeps_that_fail,
    );
    Editor::new(Tree::empty(alloc), store, HashKind::Sha1)
}

/// Decodes the commands of a script.
pub(crate) fn commands_of(alloc: Global, script: &str) -> Result<Vec<Command>, AllocError> {
    match parse_script(alloc, script.as_bytes(), HashKind::Sha1) {
        Ok(commands) => Ok(commands),
        Err(_) => Err(AllocError),
    }
}

/// Runs commands on an editor.
pub(crate) fn run_on(
    alloc: Global,
    editor: &mut Editor<Failing>,
    commands: Vec<Command>,
) -> Result<Vec<Reply<encode::Error>>, OutOfMemory> {
    run(
        alloc,
        editor,
        commands,
        |tree: &Tree| tree.compute_id(alloc, HashKind::Sha1),
    )
}

/// Runs a script on an editor, and returns the replies, or `None` after an error.
pub(crate) fn replies_to(
    alloc: Global,
    editor: &mut Editor<Failing>,
    script: &str,
) -> Option<Vec<Reply<encode::Error>>> {
    match commands_of(alloc, script) {
        Ok(commands) => run_on(alloc, editor, commands).ok(),
        Err(_) => None,
    }
}

/// Returns the number of an error.
pub(crate) fn number_of(error: &Error) -> u8 {
    match error {
        Error::EmptyPathComponent => 1,
        Error::SlashInPathComponent => 2,
        Error::FindExistingObject(_) => 3,
        Error::CannotRemoveNonLeaf { .. } => 4,
        Error::MalformedTree => 5,
        Error::OutOfMemory => 6,
    }
}

/// Returns whether a write emitted `count` trees, the last of this id.
pub(crate) fn has_id_and_count(written: &Written, id: &str, count: usize) -> bool {
    ObjectId::from_hex(id.as_bytes()) == Some(written.id) && written.trees.len() == count
}

/// Returns whether the report of these replies and this number of lookups has these lines.
pub(crate) fn reports<E>(alloc: Global, replies: &[Reply<E>], lookups: u64, lines: &str) -> bool {
    match report_lines(alloc, replies, lookups) {
        Ok(report) => report.as_slice() == lines.as_bytes(),
        Err(_) => false,
    }
}
