//! Imports of the three steps while an allocation fails, and then all of them by a new importer.

use super::samples::{
    COMMITS, STEPS, are_first_commits, has_all, import, importer_of, outcome_by, steps_of,
    try_steps_of,
};
use gix_object::import::{ImportError, Imported, Importer, Step};
use gix_object::tree::editor::{Error, WriteError};
use gix_object::{KeepError, Memory, encode};
use std::alloc::Global;

/// Whether the error is an allocation failure.
fn is_for_memory(error: &ImportError) -> bool {
    match error {
        ImportError::Edit { error, .. } => matches!(error, Error::OutOfMemory),
        ImportError::Write(WriteError::OutOfMemory) => true,
        ImportError::Write(WriteError::Out(cause)) => matches!(cause, encode::Error::Writer(_)),
        ImportError::NotKept(cause) => matches!(cause, KeepError::OutOfMemory),
        ImportError::OutOfMemory => true,
        ImportError::WriteInStep | ImportError::Commit(_) | ImportError::Failed => false,
    }
}

/// Whether an import stopped only at an allocation failure, and a new importer imports all steps. No allocation
/// fails any more: the importer that stopped rejects a later step. If there was no memory for the list, nothing
/// was done, and it accepts the step.
fn ends_at_first_commits(
    alloc: Global,
    importer: &mut Importer<Memory>,
    steps: &[Step],
    done: &[Imported],
    error: &ImportError,
) -> bool {
    let later = outcome_by(alloc, importer, "A", &[]);
    are_first_commits(done)
        && is_for_memory(error)
        && (later == Some(7) || later == Some(0) && done.is_empty())
        && has_all(alloc, importer.store_mut(), done)
        && import(&mut importer_of(alloc), steps).has(&COMMITS, 0)
}

/// Whether the steps are imported, or stopped and then imported by a new importer.
fn imports_or_ends_at_first_commits(alloc: Global, steps: &[Step]) -> bool {
    let mut importer = importer_of(alloc);
    let outcome = import(&mut importer, steps);
    match &outcome.error {
        Some(error) => ends_at_first_commits(alloc, &mut importer, steps, &outcome.done, error),
        None => outcome.has(&COMMITS, 0),
    }
}

/// The steps are built again if an allocation fails.
#[test]
fn imports_three_steps_whatever_allocation_fails(rt: HostRuntime) {
    let alloc = rt.alloc();
    let steps = match try_steps_of(alloc, &STEPS) {
        Ok(steps) => steps,
        Err(_) => steps_of(alloc, &STEPS),
    };
    assert!(rt; imports_or_ends_at_first_commits(alloc, &steps));
}
