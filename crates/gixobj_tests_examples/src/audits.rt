//! Changes of a run, as `git diff-tree -r` prints them, and an entry after an import, as `git rev-parse` does.

use crate::listing::{CHANGED, CHANGES, EMPTY, FIRST, IN, SECOND, are_changes, store};
use crate::samples::commands_of;
use gix_object::hash::{Kind, ObjectId};
use gix_object::tree::editor::{EditReply, Editor, Reply};
use gix_object::{Memory, Tree, encode};
use gixobj_examples_audits::imports::{entry_after_import, import_twice};
use gixobj_examples_audits::runs::{RunChanges, changes_of_run, run_and_reopen};
use gixobj_listings::roots::root_in;
use gixobj_tests_api::imports::samples::{COMMITS, STEPS, are_commits, steps_of};
use gixobj_tests_api::samples::{Row, id, path_of};
use std::alloc::Global;

/// Edits that make the second tree of the first, and one with an invalid name.
const EDITS: [Row; 4] = [
    Row::File(&["docs", "deep", "x"], CHANGED),
    Row::File(&["docs/deep/x"], IN),
    Row::File(&["a.txt", "in"], IN),
    Row::File(&["docs", "run.sh"], EMPTY),
];

/// Whether the run wrote the second tree, with the changes that git prints. Its second command failed, and the
/// others are done.
fn is_second(alloc: Global, run: &RunChanges<encode::Error>) -> bool {
    match run.replies.as_slice() {
        [
            Reply::Edit(EditReply::Done),
            Reply::Edit(EditReply::Refused(_)),
            Reply::Edit(EditReply::Done),
            Reply::Edit(EditReply::Done),
        ] => run.written.id == id(SECOND) && are_changes(alloc, &run.changes, &CHANGES),
        _ => false,
    }
}

#[test]
fn lists_changes_of_run_as_git(rt: HostRuntime) {
    let alloc = rt.alloc();
    let (store, _) = store(alloc);
    let out = |tree: &Tree| tree.compute_id(alloc, Kind::Sha1);
    let run = changes_of_run(alloc, store, id(FIRST), commands_of(alloc, &EDITS), 3, out);
    assert!(rt; matches!(&run, Ok(run) if is_second(alloc, run)));
}

/// Whether the editor has git's second tree after the run, and goes on from it.
fn reopens_second(alloc: Global, editor: &mut Editor<Memory>) -> bool {
    let out = |tree: &Tree| tree.compute_id(alloc, Kind::Sha1);
    let reopened = run_and_reopen(alloc, editor, commands_of(alloc, &EDITS), out).is_ok();
    let again = run_and_reopen(alloc, editor, Vec::new(alloc), out);
    matches!(&again, Ok((_, written)) if reopened && written.id == id(SECOND))
}

#[test]
fn reopens_root_after_run(rt: HostRuntime) {
    let alloc = rt.alloc();
    let (store, _) = store(alloc);
    let root = root_in(alloc, &store, id(FIRST)).unwrap_or(Tree::empty(alloc));
    if root.is_well_formed() {
        let mut editor = Editor::new(root, store, Kind::Sha1);
        assert!(rt; reopens_second(alloc, &mut editor));
    }
}

#[test]
fn imports_same_commits_twice(rt: HostRuntime) {
    let alloc = rt.alloc();
    let (steps, store) = (steps_of(alloc, &STEPS), Memory::new(alloc));
    let imported = import_twice(alloc, store, Memory::new(alloc), Kind::Sha1, &steps);
    assert!(rt; matches!(&imported, Ok((one, _)) if are_commits(one, &COMMITS)));
    assert!(rt; matches!(&imported, Ok((_, other)) if are_commits(other, &COMMITS)));
}

/// The id of the entry at a path after the three steps. `None` also if the lookup fails.
fn id_at(alloc: Global, names: &[&str]) -> Option<ObjectId> {
    let (steps, path) = (steps_of(alloc, &STEPS), path_of(alloc, names));
    match entry_after_import(alloc, Memory::new(alloc), Kind::Sha1, &steps, &path) {
        Ok(Some(entry)) => Some(entry.oid),
        _ => None,
    }
}

/// Ids that `git rev-parse fe539a6:bak/test.txt` and `git rev-parse fe539a6:test.txt` print.
const OLD: &[u8] = b"83baae61804e65cc73a7201a7252750c76066a30";

const NEW: &[u8] = b"1f7a7a472abf3dd9643fd615f6da379c4acb3e3a";

#[test]
fn finds_entry_after_import_as_git(rt: HostRuntime) {
    let alloc = rt.alloc();
    assert!(rt; id_at(alloc, &["bak", "test.txt"]) == Some(id(OLD)));
    assert!(rt; id_at(alloc, &["test.txt"]) == Some(id(NEW)));
    assert!(rt; id_at(alloc, &["bak", "new.txt"]).is_none());
}
