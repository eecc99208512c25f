//! Runs of the program that its tests share: by the arguments in a line, with the status and both outputs.

use gixobj_cli_edit::engine::engine;
use std::alloc::{AllocError, Global};
use std::io::{Read, Write};

/// The expected result of a run: the exit status and the bytes on standard output and on standard error.
pub(crate) type Expected = (u8, &'static [u8], &'static [u8]);

/// The arguments and the input of a run, and its expected result.
pub(crate) type Row = (&'static str, &'static [u8], Expected);

pub(crate) const USAGE: &[u8] = b"usage: gixobj show|tree|edit [sha256]\n";

/// Splits a line into arguments.
pub(crate) fn arguments_in(alloc: Global, line: &str) -> Result<Vec<String>, AllocError> {
    line.split_whitespace()
        .map(|token| String::from_str(alloc, token))
        .try_collect(alloc)
}

/// Runs the program with the arguments in a line. Returns the exit status, or `None` if the arguments can't be
/// allocated.
pub(crate) fn status_of<R: Read, O: Write, E: Write>(
    alloc: Global,
    line: &str,
    input: &mut R,
    output: &mut O,
    errors: &mut E,
) -> Option<u8> {
    match arguments_in(alloc, line) {
        Ok(arguments) => Some(engine(alloc, arguments.as_slice(), input, output, errors)),
        Err(_) => None,
    }
}

/// Returns whether the program ends with this status and this on standard error.
pub(crate) fn ends_with<R: Read, O: Write>(
    alloc: Global,
    line: &str,
    input: &mut R,
    output: &mut O,
    outcome: (u8, &[u8]),
) -> bool {
    let mut errors = Vec::new(alloc);
    status_of(alloc, line, input, output, &mut errors) == Some(outcome.0)
        && errors.as_slice() == outcome.1
}

/// Returns whether the program has this result for the bytes of a reader.
pub(crate) fn answers_reader<R: Read>(
    alloc: Global,
    line: &str,
    reader: &mut R,
    expected: Expected,
) -> bool {
    let mut output = Vec::new(alloc);
    ends_with(alloc, line, reader, &mut output, (expected.0, expected.2))
        && output.as_slice() == expected.1
}

/// Returns whether the program has the result of a row.
pub(crate) fn answers(alloc: Global, row: &Row) -> bool {
    let mut rest = row.1;
    answers_reader(alloc, row.0, &mut rest, row.2)
}
