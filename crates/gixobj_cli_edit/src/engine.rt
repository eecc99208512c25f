//! The program, over any reader and any two writers.
ghost use Rattle.std.specs.Prelude.{◌≡◌, ◌≢◌, codes, map, OnOk, IfErr, ⊤};
ghost use Rattle.std.specs.String.{string_bytes};
ghost use Rattle.gixobj_cli_edit.specs.Engine.{Edited, IsFault, IsEditingError, EditHasWrittenNothing};
ghost use Rattle.gixobj_cli_tree.specs.Listing.{IsListCommand, IsUnlisted, Listed};
ghost use Rattle.gixobj_cli_edit.specs.Arguments.{IsNeitherCommand, IsEditCommand};
ghost use Rattle.gixobj_streams.specs.Streams.{writer_view};
ghost use Rattle.gixobj_cli_show.specs.Engine.{Answered, IsReportedError};
ghost use Rattle.gixobj_cli_show.specs.Arguments.{IsCommandOfHash};

use crate::editing::edit;
use crate::fault::{Fault, report_fault};
use gixobj_cli_show::Failure;
use gixobj_cli_show::arguments::requested_hash;
use gixobj_cli_show::input::read_all;
use gixobj_hash::hash;
use gixobj_streams::streams::{FromRead, Sink, Source, ToWrite};
use std::alloc::Global;
use std::io::{Read, Write};

/// Runs the program on `arguments`, those after its name, and returns the exit status.
///
/// `show`, `tree` and `edit` read the entire input. Ids are of SHA-1, or of SHA-256 with a second argument
/// `sha256`.
///
/// - `show` writes the line `<kind> <size> <id>` of the loose object at the start of the input.
/// - `tree` writes a line `<mode> <kind> <id> <name>` for each entry of the loose tree at the start of the
///   input.
/// - `edit` runs the input as a script of edits on the empty tree. It writes a line for each reply, and last
///   the number of lookups.
///
/// Status 0: the output was written, and nothing was written to `errors`. Status 2: the arguments are
/// invalid. Nothing was read, and a line on usage was written to `errors`. Status 1: a line written to
/// `errors` reports the fault:
///
/// - `bad header` or `short data`, for `show` and `tree`;
/// - `not a tree` or `bad tree`, for `tree`;
/// - `line N`, for `edit`, with the number of the first line that is neither empty nor a command; then
///   nothing is run;
/// - `input failed`, `output failed` or `out of memory`, for all three.
///
/// A fault leaves `output` unchanged; only `output failed` leaves a proper prefix of the lines there. If the
/// write to `errors` fails, a prefix of the line is there, and the status alone reports the fault.
///
/// Allocates the bytes of the entire input, and what the command allocates: [`edit`],
/// [`listing`](gixobj_cli_tree::tree::listing), or `show`.
pub fn engine<R: Read, O: Write, E: Write>(
    alloc: Global,
    arguments: &[String],
    input: &mut R,
    output: &mut O,
    errors: &mut E,
) -> u8
    ensures written { result ≡ 0 → IsNeitherCommand (map string_bytes arguments.now)
        → Answered (map string_bytes arguments.now) (R.remaining input.old) (R.remaining input.new)
        (writer_view (O.contents output.old)) (writer_view (O.contents output.new)) }
    ensures error { result ≢ 0 → IsNeitherCommand (map string_bytes arguments.now)
        → IsReportedError (map string_bytes arguments.now) (R.remaining input.old) (R.remaining input.new) ⊤
        (writer_view (O.contents output.old)) (writer_view (O.contents output.new))
        (writer_view (E.contents errors.old)) (writer_view (E.contents errors.new))
        (input.new ≡ input.old) (output.new ≡ output.old) result }
    ensures list_written { result ≡ 0 → IsListCommand (map string_bytes arguments.now)
        → Listed (map string_bytes arguments.now) (R.remaining input.old) (R.remaining input.new)
        (writer_view (O.contents output.old)) (writer_view (O.contents output.new)) }
    ensures list_error { result ≢ 0 → IsListCommand (map string_bytes arguments.now)
        → IsUnlisted (map string_bytes arguments.now) (R.remaining input.old) (R.remaining input.new) ⊤
        (writer_view (O.contents output.old)) (writer_view (O.contents output.new))
        (writer_view (E.contents errors.old)) (writer_view (E.contents errors.new))
        (output.new ≡ output.old) result }
    ensures edit_written { result ≡ 0 → IsEditCommand (map string_bytes arguments.now)
        → Edited (map string_bytes arguments.now) (R.remaining input.old) (R.remaining input.new)
        (writer_view (O.contents output.old)) (writer_view (O.contents output.new)) }
    ensures edit_error { result ≢ 0 → IsEditCommand (map string_bytes arguments.now)
        → IsFault (map string_bytes arguments.now) (R.remaining input.old) (R.remaining input.new) ⊤
        (writer_view (O.contents output.old)) (writer_view (O.contents output.new))
        (writer_view (E.contents errors.old)) (writer_view (E.contents errors.new))
        (output.new ≡ output.old) result }
    ensures no_error { result ≡ 0 → errors.new ≡ errors.old }
{
    if let Some(hash) = requested_hash("edit", arguments) {
        return run_script(
            alloc,
            arguments,
            hash,
            &mut FromRead(input),
            &mut ToWrite(output),
            &mut ToWrite(errors),
        );
    }
    gixobj_cli_tree::engine::engine(alloc, arguments, input, output, errors)
}

/// Runs the program like [`engine`], over a source and two sinks, which state when they may fail.
///
/// Over a slice and two vectors with capacity, the input never fails and each line is written.
pub fn run<S: Source, O: Sink, E: Sink>(
    alloc: Global,
    arguments: &[String],
    input: &mut S,
    output: &mut O,
    errors: &mut E,
) -> u8
    ensures written { result ≡ 0 → IsNeitherCommand (map string_bytes arguments.now)
        → Answered (map string_bytes arguments.now) (S.rest input.old) (S.rest input.new)
        (O.view output.old) (O.view output.new) }
    ensures error { result ≢ 0 → IsNeitherCommand (map string_bytes arguments.now)
        → IsReportedError (map string_bytes arguments.now) (S.rest input.old) (S.rest input.new)
        (S.may_fail input.old) (O.view output.old) (O.view output.new) (E.view errors.old)
        (E.view errors.new) (input.new ≡ input.old) (output.new ≡ output.old) result }
    ensures list_written { result ≡ 0 → IsListCommand (map string_bytes arguments.now)
        → Listed (map string_bytes arguments.now) (S.rest input.old) (S.rest input.new)
        (O.view output.old) (O.view output.new) }
    ensures list_error { result ≢ 0 → IsListCommand (map string_bytes arguments.now)
        → IsUnlisted (map string_bytes arguments.now) (S.rest input.old) (S.rest input.new)
        (S.may_fail input.old) (O.view output.old) (O.view output.new) (E.view errors.old)
        (E.view errors.new) (output.new ≡ output.old) result }
    ensures edit_written { result ≡ 0 → IsEditCommand (map string_bytes arguments.now)
        → Edited (map string_bytes arguments.now) (S.rest input.old) (S.rest input.new)
        (O.view output.old) (O.view output.new) }
    ensures edit_error { result ≢ 0 → IsEditCommand (map string_bytes arguments.now)
        → IsFault (map string_bytes arguments.now) (S.rest input.old) (S.rest input.new)
        (S.may_fail input.old) (O.view output.old) (O.view output.new) (E.view errors.old)
        (E.view errors.new) (output.new ≡ output.old) result }
    ensures no_error { result ≡ 0 → errors.new ≡ errors.old }
    ensures same_loans { (S.loan input.new ≡ S.loan input.old)
        × (O.loan output.new ≡ O.loan output.old) × (E.loan errors.new ≡ E.loan errors.old) }
{
    if let Some(hash) = requested_hash("edit", arguments) {
        return run_script(alloc, arguments, hash, input, output, errors);
    }
    gixobj_cli_tree::engine::run(alloc, arguments, input, output, errors)
}

/// Runs a script and returns the exit status, or writes the fault. `arguments` have to request `edit` with
/// `hash`.
fn run_script<S: Source, O: Sink, E: Sink>(
    alloc: Global,
    arguments: &[String],
    hash: hash::Kind,
    input: &mut S,
    output: &mut O,
    errors: &mut E,
) -> u8
    requires command { IsCommandOfHash (map string_bytes arguments.now) (codes "edit") hash }
    ensures written { result ≡ 0 → Edited (map string_bytes arguments.now) (S.rest input.old)
        (S.rest input.new) (O.view output.old) (O.view output.new) }
    ensures error { result ≢ 0 → IsFault (map string_bytes arguments.now) (S.rest input.old)
        (S.rest input.new) (S.may_fail input.old) (O.view output.old) (O.view output.new)
        (E.view errors.old) (E.view errors.new) (output.new ≡ output.old) result }
    ensures no_error { result ≡ 0 → errors.new ≡ errors.old }
    ensures same_loans { (S.loan input.new ≡ S.loan input.old)
        × (O.loan output.new ≡ O.loan output.old) × (E.loan errors.new ≡ E.loan errors.old) }
{
    match edited(alloc, arguments, hash, input, output) {
        Ok(()) => 0,
        Err(fault) => report_fault(alloc, fault, errors),
    }
}

/// Reads a script, runs it and writes its report. `arguments` have to request `edit` with `hash`.
fn edited<S: Source, O: Sink>(
    alloc: Global,
    arguments: &[String],
    hash: hash::Kind,
    input: &mut S,
    output: &mut O,
) -> Result<(), Fault>
    requires command { IsCommandOfHash (map string_bytes arguments.now) (codes "edit") hash }
    ensures written { OnOk result (Edited (map string_bytes arguments.now) (S.rest input.old)
        (S.rest input.new) (O.view output.old) (O.view output.new)) }
    ensures error { IfErr result (IsEditingError (map string_bytes arguments.now) (S.rest input.old)
        (S.rest input.new) (S.may_fail input.old) (O.view output.old) (O.view output.new)) }
    ensures nothing_written { IfErr result (EditHasWrittenNothing (output.new ≡ output.old)) }
    ensures same_loans { (S.loan input.new ≡ S.loan input.old)
        × (O.loan output.new ≡ O.loan output.old) }
{
    let script = match read_all(alloc, input) {
        Ok(script) => script,
        Err(failure) => return Err(Fault::Refused(failure)),
    };
    let bytes = match edit(alloc, script.as_slice(), hash) {
        Ok(bytes) => bytes,
        Err(error) => return Err(error.into()),
    };
    match output.write_bytes(bytes.as_slice()) {
        Ok(()) => Ok(()),
        Err(_) => Err(Fault::Refused(Failure::OutputFailed)),
    }
}
