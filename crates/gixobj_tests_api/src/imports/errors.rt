//! Each error of a step, and the steps after it.

use super::samples::{COMMITS, Outcome, STEPS, StepRow, import_rows, importer_of, outcome_by};
use crate::samples::Row;
use gix_object::encode;
use gix_object::import::ImportError;
use gix_object::tree::editor::{Error, WriteError};
use std::alloc::Global;

const FILE: &[u8] = b"0101010101010101010101010101010101010101";

/// Imports the three steps and one more.
fn import_with(alloc: Global, step: StepRow) -> Outcome {
    let [first, second, third] = STEPS;
    import_rows(
        alloc,
        &mut importer_of(alloc),
        &[first, second, third, step],
    )
}

/// A file, and a write.
const WITH_WRITE: &[Row] = &[Row::File(&["a"], FILE), Row::Write];

/// A name with a zero byte.
const WITH_ZERO: &[Row] = &[Row::File(&["a\0b"], FILE)];

/// Steps after the three, which are imported, and the numbers of their errors.
const ROWS: [(StepRow, u8); 5] = [
    (("A", WITH_WRITE), 1),
    (("A", WITH_ZERO), 3),
    (("A>", &[]), 5),
    (("<A", &[]), 5),
    (("A\nB", &[]), 5),
];

#[test]
fn rejects_writes_names_and_authors_of_step(rt: HostRuntime) {
    for &(step, error) in &ROWS {
        let (author, _) = step;
        assert!(rt;
            import_with(rt.alloc(), step).has(&COMMITS, error),
            "{error} by {author}"
        );
    }
}

#[test]
fn imports_steps_after_rejected_write(rt: HostRuntime) {
    let alloc = rt.alloc();
    let mut importer = importer_of(alloc);
    assert!(rt; outcome_by(alloc, &mut importer, "A", WITH_WRITE) == Some(1));
    assert!(rt; import_rows(alloc, &mut importer, &STEPS).has(&COMMITS, 0));
}

const FIRST: &[Row] = &[Row::File(&["a", "", "b"], FILE), Row::File(&["a"], FILE)];

const LEAF: &[Row] = &[Row::File(&["a"], FILE), Row::RemoveLeaf(&["bak"])];

/// A directory that the store lacks, and a file below it.
const UNKNOWN: &[Row] = &[
    Row::Directory(&["sub"], FILE),
    Row::File(&["a"], FILE),
    Row::File(&["sub", "b"], FILE),
];

/// Names the error of a step: of an edit at its index, or of the encoding of a tree.
fn error_name(error: &Option<ImportError>) -> &'static str {
    match error {
        Some(
            ImportError::Edit {
                index: 0,
                error: Error::EmptyPathComponent,
            },
        ) => "empty name in first",
        Some(
            ImportError::Edit {
                index: 1,
                error: Error::CannotRemoveNonLeaf { .. },
            },
        ) => "no leaf in second",
        Some(
            ImportError::Edit {
                index: 2,
                error: Error::FindExistingObject(_),
            },
        ) => "not found in third",
        Some(ImportError::Write(WriteError::Out(encode::Error::NullbyteInFilename { name })))
            if name.as_bytes() == b"a\0b".as_slice() => "zero byte in a name",
        _ => "otherwise",
    }
}

#[test]
fn reports_failed_edit_or_name(rt: HostRuntime) {
    let alloc = rt.alloc();
    assert!(rt; error_name(&import_with(alloc, ("A", FIRST)).error) == "empty name in first");
    assert!(rt; error_name(&import_with(alloc, ("A", LEAF)).error) == "no leaf in second");
    assert!(rt; error_name(&import_with(alloc, ("A", UNKNOWN)).error) == "not found in third");
    assert!(rt; error_name(&import_with(alloc, ("A", WITH_ZERO)).error) == "zero byte in a name");
}

/// A failed importer rejects a step, also one that holds a write, and a list of steps.
#[test]
fn rejects_steps_after_failure(rt: HostRuntime) {
    let alloc = rt.alloc();
    let mut importer = importer_of(alloc);
    assert!(rt; outcome_by(alloc, &mut importer, "A", &[Row::File(&[""], FILE)]) == Some(2));
    assert!(rt; outcome_by(alloc, &mut importer, "A", &[Row::Write]) == Some(7));
    assert!(rt; import_rows(alloc, &mut importer, &STEPS).has(&[], 7));
}
