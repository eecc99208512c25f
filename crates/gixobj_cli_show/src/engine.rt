//! The command `show`, over any reader and any two writers.
ghost use Rattle.std.specs.Prelude.{◌≡◌, ◌≢◌, map, OnOk, IfErr, ⊤};
ghost use Rattle.std.specs.String.{string_bytes};
ghost use Rattle.gixobj_cli_show.specs.Engine.{Answered, IsReportedError, IsAnswerError, IsPrinted, HasReadNothing};
ghost use Rattle.gixobj_cli_show.specs.Engine.{HasWrittenNothing};
ghost use Rattle.gixobj_streams.specs.Streams.{writer_view};
ghost use Rattle.gixobj_cli_show.specs.Failure.{line_of, exit_status_of};

use crate::arguments::requested_hash;
use crate::failure::Failure;
use crate::input::read_all;
use crate::show::show;
use gixobj_streams::streams::{FromRead, Sink, Source, ToWrite};
use std::alloc::Global;
use std::io::{Read, Write};

/// Prints the kind, the size and the id of a loose object, and returns the exit status.
///
/// The arguments are `show` for the id by SHA-1, or `show sha256` for the id by SHA-256. Allocates the
/// bytes of the entire input, and a copy for the error of a malformed header.
///
/// - Status 0: all of the input was read. The line `<kind> <size> <id>` of the loose object at its beginning
///   was written to `output`.
/// - Status 2: the arguments are invalid. Nothing was read, and a line on usage was written to `errors`.
/// - Status 1: a line written to `errors` reports the failure: `bad header`, `short data`,
///   `input failed`, `output failed` or `out of memory`.
///
/// A failure leaves `output` unchanged; only `output failed` leaves a proper prefix of the line there. If the
/// write to `errors` fails, only the status reports the failure.
pub fn engine<R: Read, O: Write, E: Write>(
    alloc: Global,
    arguments: &[String],
    input: &mut R,
    output: &mut O,
    errors: &mut E,
) -> u8
    ensures written { result ≡ 0 → Answered (map string_bytes arguments.now) (R.remaining input.old)
        (R.remaining input.new) (writer_view (O.contents output.old))
        (writer_view (O.contents output.new)) }
    ensures no_error { result ≡ 0 → errors.new ≡ errors.old }
    ensures error { result ≢ 0 → IsReportedError (map string_bytes arguments.now)
        (R.remaining input.old)
        (R.remaining input.new) ⊤ (writer_view (O.contents output.old))
        (writer_view (O.contents output.new)) (writer_view (E.contents errors.old))
        (writer_view (E.contents errors.new)) (input.new ≡ input.old) (output.new ≡ output.old)
        result }
{
    run(
        alloc,
        arguments,
        &mut FromRead(input),
        &mut ToWrite(output),
        &mut ToWrite(errors),
    )
}

/// Runs [`engine`] over a source and two sinks, whose contracts say when they may fail.
///
/// Over a slice and two vectors with capacity, the input never fails, and each line is written.
pub fn run<S: Source, O: Sink, E: Sink>(
    alloc: Global,
    arguments: &[String],
    input: &mut S,
    output: &mut O,
    errors: &mut E,
) -> u8
    ensures written { result ≡ 0 → Answered (map string_bytes arguments.now) (S.rest input.old)
        (S.rest input.new) (O.view output.old) (O.view output.new) }
    ensures no_error { result ≡ 0 → errors.new ≡ errors.old }
    ensures error { result ≢ 0 → IsReportedError (map string_bytes arguments.now) (S.rest input.old)
        (S.rest input.new) (S.may_fail input.old) (O.view output.old) (O.view output.new)
        (E.view errors.old) (E.view errors.new) (input.new ≡ input.old) (output.new ≡ output.old)
        result }
    ensures same_loans { (S.loan input.new ≡ S.loan input.old)
        × (O.loan output.new ≡ O.loan output.old) × (E.loan errors.new ≡ E.loan errors.old) }
{
    match answer(alloc, arguments, input, output) {
        Ok(()) => 0,
        Err(cause) => report_to(cause, errors),
    }
}

/// Reads the input, and writes the line of its loose object.
fn answer<S: Source, O: Sink>(
    alloc: Global,
    arguments: &[String],
    input: &mut S,
    output: &mut O,
) -> Result<(), Failure>
    ensures written { OnOk result (Answered (map string_bytes arguments.now) (S.rest input.old)
        (S.rest input.new) (O.view output.old) (O.view output.new)) }
    ensures error { IfErr result (IsAnswerError (map string_bytes arguments.now) (S.rest input.old)
        (S.rest input.new) (S.may_fail input.old) (O.view output.old) (O.view output.new)) }
    ensures nothing_read { IfErr result (HasReadNothing (input.new ≡ input.old)) }
    ensures nothing_written { IfErr result (HasWrittenNothing (output.new ≡ output.old)) }
    ensures same_loans { (S.loan input.new ≡ S.loan input.old)
        × (O.loan output.new ≡ O.loan output.old) }
{
    let Some(hash) = requested_hash("show", arguments) else {
        return Err(Failure::Usage);
    };
    let bytes = read_all(alloc, input)?;
    let shown = show(alloc, hash, bytes.as_slice())?;
    let line = shown.line(alloc);
    match output.write_bytes(line.as_slice()) {
        Ok(()) => Ok(()),
        Err(_) => Err(Failure::OutputFailed),
    }
}

/// Writes the line of an error, and returns the exit status. If the write fails, only the status reports
/// the error.
pub fn report_to<E: Sink>(cause: Failure, errors: &mut E) -> u8
    ensures status { result ≡ exit_status_of cause }
    ensures reported { IsPrinted (E.view errors.old) (E.view errors.new) (line_of cause) }
    ensures same_loan { E.loan errors.new ≡ E.loan errors.old }
{
    let _ = errors.write_bytes(cause.line());
    cause.status()
}
