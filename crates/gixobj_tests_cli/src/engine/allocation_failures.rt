//! A script of three files and a write, in which any allocation may fail. The line of the failed command
//! reports that memory ran out, and the other lines follow from the commands that succeeded. Ids are those
//! that `git mktree --missing` prints.

use super::{NESTED, NESTED_LINES};
use crate::streams::status_of;
use std::alloc::Global;

/// The reports of runs with a failed allocation. It fails for one of the three files, for the write, for the
/// id of a tree, or for a tree that isn't kept.
const REPORTS: [&[u8]; 6] = [
    b"refused 6\nok\nok\nwrote 0155eb4229851634a0f03eb265b69f5a2d56f341 1\nlookups 0\n",
    b"ok\nrefused 6\nok\nwrote b9c6a44acc8cf4303f3b8a7520e15df999e6057d 2\nlookups 0\n",
    b"ok\nok\nrefused 6\nwrote 90b9c61d2318706c9668ce0b53d697aa2719b7b0 2\nlookups 0\n",
    b"ok\nok\nok\nrefused memory\nlookups 0\n",
    b"ok\nok\nok\nrefused out\nlookups 0\n",
    b"ok\nok\nok\nunkept 3c4e9cd789d88d8d89c1073707c3585e41b0e614\nlookups 0\n",
];

/// What a run did.
#[derive(Clone, Copy)]
enum Outcome {
    /// It had the report with ample memory.
    Ample,
    /// An allocation failed, and the report says so.
    OutOfMemory,
    Other,
}

/// Returns whether a report is one with a failed allocation.
fn may_be_reported(output: &[u8]) -> bool {
    for it in REPORTS {
        if output == it {
            return true;
        }
    }
    false
}

/// Classifies the result of a run.
fn outcome_of(status: u8, output: &[u8], errors: &[u8]) -> Outcome {
    let is_reported = status == 0 && errors.is_empty();
    if is_reported && output == NESTED_LINES {
        return Outcome::Ample;
    }
    if is_reported && may_be_reported(output) {
        return Outcome::OutOfMemory;
    }
    match status != 0 && output.is_empty() && errors == b"gixobj: out of memory\n".as_slice() {
        true => Outcome::OutOfMemory,
        false => Outcome::Other,
    }
}

/// Runs the program on the script, with this memory for both outputs.
fn outcome_in(alloc: Global, output: &mut Vec<u8>, errors: &mut Vec<u8>) -> Outcome {
    let mut rest = NESTED;
    match status_of(alloc, "edit", &mut rest, output, errors) {
        Some(status) => outcome_of(status, output.as_slice(), errors.as_slice()),
        None => Outcome::OutOfMemory,
    }
}

/// Runs the program on the script. Both outputs have the capacity for it.
fn run_outcome(alloc: Global) -> Outcome {
    match (
        Vec::with_capacity(alloc, 1024),
        Vec::with_capacity(alloc, 1024),
    ) {
        (Ok(mut output), Ok(mut errors)) => outcome_in(alloc, &mut output, &mut errors),
        _ => Outcome::OutOfMemory,
    }
}

/// The script has its full report, or a second run has it after a first with a failed allocation.
#[test]
fn reports_script_whatever_allocation_fails(rt: HostRuntime) {
    let first = run_outcome(rt.alloc());
    let last = match first {
        Outcome::OutOfMemory => run_outcome(rt.alloc()),
        outcome => outcome,
    };
    assert!(rt; matches!(last, Outcome::Ample));
}
