//! Edits below more open directories than one piece of their list holds, in several orders. Ids are those that
//! `git mktree --missing` prints.

use crate::entries::{Got, gets_all};
use crate::samples::{FILE, empty_editor, has_id_and_count, removed, upserted, written};
use gixobj_base::tree::EntryKind;
use gixobj_editor::editor::Editor;
use gixobj_store_keep::Memory;
use std::alloc::Global;

/// The number of the directories.
const COUNT: u16 = 200;

/// The id of the root of the directories `d000` to `d199`, each with the file `f`.
const ALL: &str = "fe69a02f05ed2b5cb14f37e97d0d86b14ae9996d";

/// The id of the root without the directories of even numbers.
const ODD: &str = "f778ba7e1dd71254c84438fdadcf92110ffb9a98";

/// Returns the path of the file in the directory of a number; its first four bytes are that of the directory.
fn file_path(number: u16) -> [u8; 6] {
    [
        b'd',
        b'0' + (number / 100 % 10) as u8,
        b'0' + (number / 10 % 10) as u8,
        b'0' + (number % 10) as u8,
        b' ',
        b'f',
    ]
}

/// Inserts the file in the directory of a number, and returns whether it is there.
fn is_inserted(alloc: Global, editor: &mut Editor<Memory>, number: u16) -> bool {
    let path = file_path(number);
    upserted(alloc, editor, &path) == 0
        && gets_all(alloc, editor, &[(&path, Got::Entry(EntryKind::Blob, FILE))])
}

/// Inserts the file in each directory, one `step` after the other, and returns whether that succeeds.
fn are_inserted(alloc: Global, editor: &mut Editor<Memory>, step: u16) -> bool {
    for turn in 0..COUNT {
        let number = turn.wrapping_mul(step) % COUNT;
        if !is_inserted(alloc, editor, number) {
            return false;
        }
    }
    true
}

/// Removes the directories of even numbers, one `step` after the other, and returns whether that succeeds.
fn are_removed(alloc: Global, editor: &mut Editor<Memory>, step: u16) -> bool {
    for turn in 0..COUNT {
        let number = turn.wrapping_mul(step) % COUNT;
        let [d, hundreds, tens, ones, _, _] = file_path(number);
        if number % 2 == 0 && removed(alloc, editor, &[d, hundreds, tens, ones]) != 0 {
            return false;
        }
    }
    true
}

/// Returns whether directories that are opened in this order are all written. If `removes` is set, those of even
/// numbers are removed before the write, in the same order.
fn writes_all(alloc: Global, step: u16, removes: bool) -> bool {
    let (root, count) = if removes { (ODD, 101) } else { (ALL, 201) };
    let mut editor = empty_editor(alloc);
    if !are_inserted(alloc, &mut editor, step) {
        return false;
    }
    if removes && !are_removed(alloc, &mut editor, step) {
        return false;
    }
    match written(alloc, &mut editor) {
        Ok(written) => has_id_and_count(&written, root, count),
        Err(_) => false,
    }
}

#[test]
fn writes_directories_in_each_order(rt: HostRuntime) {
    for step in [1, 199, 77] {
        assert!(rt; writes_all(rt.alloc(), step, false), "{}", step);
        assert!(rt; writes_all(rt.alloc(), step, true), "{}", step);
    }
}
