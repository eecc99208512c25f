//! Writes by cursors that fail, and later writes. Ids are those that `git mktree --missing` prints.

use crate::samples::{are_upserted, cursor_of, emits, empty_editor, upserted_by, writes};
use crate::writes::{ALL_FIVE, answer};
use gixobj_base::Tree;
use gixobj_editor::editor::{Cursor, WriteError};
use gixobj_store_keep::Memory;
use std::alloc::Global;

/// The ids of the trees of the directories `c/d` with the file `z`, and `c`.
const D_AND_C: &[&[u8]] = &[
    b"454696ff9405b4937895f817649e1c760a885202",
    b"3906cb5db1f32691b79896648a123b2f66f57291",
];

/// The ids of the trees of the directories `a/b` with the file `c`, and `a` with the file `d`.
const B_AND_A: &[&[u8]] = &[
    b"6d2d932c1fe444535ef3f0316634b59cfde9c945",
    b"cd6ccc3dd14a018ceba3ecf6f471bc693c0f31d3",
];

/// The ids of these trees, and of the root with the directory `a` and the file `q`.
const B_AND_A_AND_ROOT: &[&[u8]] = &[
    b"6d2d932c1fe444535ef3f0316634b59cfde9c945",
    b"cd6ccc3dd14a018ceba3ecf6f471bc693c0f31d3",
    b"00b56d73674c580d9a5189c4680fe80c930202fe",
];

/// Paths.
type Paths = &'static [&'static [u8]];

/// Ids of trees.
type Ids = &'static [&'static [u8]];

/// Files that the editor inserts, a directory, and files that a cursor at it inserts. Then the number of the call
/// that fails in a write of the directory, the ids of the trees below it and of its own, and those of all trees.
type Row = (Paths, &'static [u8], Paths, usize, Ids, Ids);

/// A file in each of two directories, and one in a directory of another.
const FILES: Paths = &[b"a x", b"b y", b"c d z"];

const ROWS: &[Row] = &[
    (FILES, b"c", &[], 1, D_AND_C, ALL_FIVE),
    (FILES, b"c", &[], 2, D_AND_C, ALL_FIVE),
    (FILES, b".", &[], 1, ALL_FIVE, ALL_FIVE),
    (FILES, b".", &[], 2, ALL_FIVE, ALL_FIVE),
    (FILES, b".", &[], 3, ALL_FIVE, ALL_FIVE),
    (FILES, b".", &[], 4, ALL_FIVE, ALL_FIVE),
    (FILES, b".", &[], 5, ALL_FIVE, ALL_FIVE),
    (&[b"q"], b"a", &[b"b c", b"d"], 2, B_AND_A, B_AND_A_AND_ROOT),
];

/// Inserts the files of a row by its cursor. Returns whether a write then fails with the closure's error in the
/// call of the row's number, after calls for trees of the first ids.
fn stops_at(alloc: Global, cursor: &mut Cursor<'_, Memory>, row: &Row) -> bool {
    let (_, _, paths, number, ids, _) = *row;
    for path in paths {
        if upserted_by(alloc, cursor, path) != 0 {
            return false;
        }
    }
    let mut calls = 0usize;
    let out = |tree: &Tree| answer(alloc, &mut calls, number, ids, tree);
    let stopped = match cursor.write(out) {
        Err(WriteError::Out(call)) => call == number,
        _ => false,
    };
    stopped && calls == number
}

/// Returns whether a write by a cursor that fails as in a row loses nothing. Its next write emits trees of all ids
/// of the directory, and the one after it only the last.
fn is_repeated(alloc: Global, row: &Row) -> bool {
    let (files, directory, _, _, ids, _) = *row;
    let last = ids.get(ids.len().saturating_sub(1)..).unwrap_or(&[]);
    let mut editor = empty_editor(alloc);
    if !are_upserted(alloc, &mut editor, files) {
        return false;
    }
    match cursor_of(alloc, &mut editor, directory) {
        Ok(mut cursor) => {
            stops_at(alloc, &mut cursor, row)
                && emits(alloc, &mut cursor, 0, ids)
                && emits(alloc, &mut cursor, 0, last)
        }
        Err(_) => false,
    }
}

/// Returns whether a write of the root emits all trees after a write by a cursor that fails as in a row.
fn is_followed(alloc: Global, row: &Row) -> bool {
    let (files, directory, _, _, _, all) = *row;
    let mut editor = empty_editor(alloc);
    if !are_upserted(alloc, &mut editor, files) {
        return false;
    }
    let stopped = match cursor_of(alloc, &mut editor, directory) {
        Ok(mut cursor) => stops_at(alloc, &mut cursor, row),
        Err(_) => false,
    };
    stopped && writes(alloc, &mut editor, 0, all)
}

#[test]
fn failed_out_at_each_tree(rt: HostRuntime) {
    for row in ROWS {
        assert!(rt; is_repeated(rt.alloc(), row), "{row:?}");
        assert!(rt; is_followed(rt.alloc(), row), "{row:?}");
    }
}
