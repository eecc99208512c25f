//! Edits that are imported into a store.

use crate::samples::{FIRST, SECOND, is_root};
use gix_object::hash::Kind;
use gix_object::tree::editor::{Editor, Error, WriteError, Written};
use gix_object::{Memory, Tree, encode};
use gixobj_examples_edits::importer::{ImportError, import_files};
use gixobj_tests_api::samples::{Row, edits_of};
use std::alloc::Global;

/// Id that `git mktree --missing` prints for `040000 tree f09792be40f18f537c28b624b7bc7771f25082e1`, a tab
/// and `a`, and `100644 blob`, the second id, a tab and `c`. It prints the id of `a` for `100644 blob`, the
/// first id, a tab and `b`.
const IMPORTED: &[u8] = b"4308448a0c406025f0a267505e3259565bf6351e";

/// Id that `git mktree --missing` prints for the files `a/b` with the first id and `a/d` with the second.
const IMPORTED_NEXT: &[u8] = b"ed09f01c0a6d6684b098b8d3591ada3fb12b32f3";

/// Names the result of an import.
fn outcome_name(imported: &Result<Written, ImportError<encode::Error>>) -> &'static str {
    match imported {
        Ok(written) if is_root(written, IMPORTED, 2) => "first",
        Ok(written) if is_root(written, IMPORTED_NEXT, 2) => "next",
        Err(ImportError::HoldsWrite) => "holds a write",
        Err(
            ImportError::Edit {
                index: 1,
                error: Error::SlashInPathComponent,
            },
        ) => "slash in the second",
        Err(ImportError::Write(WriteError::Out(_))) => "not written",
        _ => "otherwise",
    }
}

/// Names the result of an import of these rows.
fn outcome(alloc: Global, editor: &mut Editor<Memory>, rows: &[Row]) -> &'static str {
    let out = |tree: &Tree| tree.compute_id(alloc, Kind::Sha1);
    outcome_name(&import_files(alloc, editor, edits_of(alloc, rows), out))
}

/// Lists of edits, and the results of their imports in this order.
const ROWS: [(&[Row], &str); 5] = [
    (
        &[Row::File(&["a", "b"], FIRST), Row::File(&["c"], SECOND)],
        "first",
    ),
    (
        &[Row::File(&["a", "d"], SECOND), Row::Remove(&["c"])],
        "next",
    ),
    (&[Row::File(&["c"], SECOND), Row::Write], "holds a write"),
    (
        &[Row::File(&["c"], SECOND), Row::File(&["a/b"], FIRST)],
        "slash in the second",
    ),
    (&[Row::File(&["\0"], FIRST)], "not written"),
];

#[test]
fn imports_edits_and_rejects_writes_and_invalid_names(rt: HostRuntime) {
    let alloc = rt.alloc();
    let mut editor = Editor::new(Tree::empty(alloc), Memory::new(alloc), Kind::Sha1);
    for &(rows, wanted) in &ROWS {
        assert!(rt; outcome(alloc, &mut editor, rows) == wanted, "{wanted}");
    }
}
