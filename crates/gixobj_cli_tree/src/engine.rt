//! The commands `show` and `tree`, over any reader and any two writers.
ghost use Rattle.std.specs.Prelude.{◌≡◌, ◌≢◌, codes, map, ⊤};
ghost use Rattle.std.specs.String.{string_bytes};
ghost use Rattle.gixobj_streams.specs.Streams.{writer_view};
ghost use Rattle.gixobj_cli_tree.specs.Listing.{IsListCommand, IsUnlisted, Listed};
ghost use Rattle.gixobj_cli_show.specs.Arguments.{IsOtherCommand};
ghost use Rattle.gixobj_cli_show.specs.Engine.{Answered, IsReportedError};

use crate::tree::{list, list_read};
use gixobj_cli_show::arguments::requested_hash;
use gixobj_streams::streams::{Sink, Source};
use std::alloc::Global;
use std::io::{Read, Write};

/// Runs `tree` or `show` on `arguments`, those after the program's name, and returns the exit status.
///
/// Both read the entire input. Ids are of SHA-1, or of SHA-256 with a second argument `sha256`.
///
/// - `show` writes the line `<kind> <size> <id>` of the loose object at the start of the input.
/// - `tree` writes a line `<mode> <kind> <id> <name>` for each entry of the loose tree at the start of the
///   input.
///
/// Status 0: the output was written, and nothing was written to `errors`. Status 2: the arguments are
/// invalid. Nothing was read, and a line on usage was written to `errors`. Status 1: a line written to
/// `errors` reports the failure:
///
/// - `bad header`, `short data`, `input failed`, `output failed` or `out of memory`;
/// - `not a tree` or `bad tree`, for `tree`.
///
/// A failure leaves `output` unchanged; only `output failed` leaves a proper prefix of the lines there. If
/// the write to `errors` fails, only the status reports the failure.
///
/// Allocates the bytes of the entire input, and what the command allocates:
/// [`listing`](crate::tree::listing), or `show`.
pub fn engine<R: Read, O: Write, E: Write>(
    alloc: Global,
    arguments: &[String],
    input: &mut R,
    output: &mut O,
    errors: &mut E,
) -> u8
    ensures written { result ≡ 0 → IsOtherCommand (map string_bytes arguments.now) (codes "tree")
        → Answered (map string_bytes arguments.now) (R.remaining input.old) (R.remaining input.new)
        (writer_view (O.contents output.old)) (writer_view (O.contents output.new)) }
    ensures error { result ≢ 0 → IsOtherCommand (map string_bytes arguments.now) (codes "tree")
        → IsReportedError (map string_bytes arguments.now) (R.remaining input.old) (R.remaining input.new) ⊤
        (writer_view (O.contents output.old)) (writer_view (O.contents output.new))
        (writer_view (E.contents errors.old)) (writer_view (E.contents errors.new))
        (input.new ≡ input.old) (output.new ≡ output.old) result }
    ensures list_written { result ≡ 0 → IsListCommand (map string_bytes arguments.now)
        → Listed (map string_bytes arguments.now) (R.remaining input.old) (R.remaining input.new)
        (writer_view (O.contents output.old)) (writer_view (O.contents output.new)) }
    ensures list_error { result ≢ 0 → IsListCommand (map string_bytes arguments.now)
        → IsUnlisted (map string_bytes arguments.now) (R.remaining input.old) (R.remaining input.new) ⊤
        (writer_view (O.contents output.old)) (writer_view (O.contents output.new))
        (writer_view (E.contents errors.old)) (writer_view (E.contents errors.new))
        (output.new ≡ output.old) result }
    ensures no_error { result ≡ 0 → errors.new ≡ errors.old }
{
    match requested_hash("tree", arguments) {
        Some(hash) => list_read(alloc, arguments, hash, input, output, errors),
        None => gixobj_cli_show::engine::engine(alloc, arguments, input, output, errors),
    }
}

/// Runs [`engine`] over a source and two sinks, whose contracts say when they may fail.
///
/// Over a slice and two vectors with capacity, the input never fails, and each line is written.
pub fn run<S: Source, O: Sink, E: Sink>(
    alloc: Global,
    arguments: &[String],
    input: &mut S,
    output: &mut O,
    errors: &mut E,
) -> u8
    ensures written { result ≡ 0 → IsOtherCommand (map string_bytes arguments.now) (codes "tree")
        → Answered (map string_bytes arguments.now) (S.rest input.old) (S.rest input.new)
        (O.view output.old) (O.view output.new) }
    ensures error { result ≢ 0 → IsOtherCommand (map string_bytes arguments.now) (codes "tree")
        → IsReportedError (map string_bytes arguments.now) (S.rest input.old) (S.rest input.new)
        (S.may_fail input.old) (O.view output.old) (O.view output.new) (E.view errors.old)
        (E.view errors.new) (input.new ≡ input.old) (output.new ≡ output.old) result }
    ensures list_written { result ≡ 0 → IsListCommand (map string_bytes arguments.now)
        → Listed (map string_bytes arguments.now) (S.rest input.old) (S.rest input.new)
        (O.view output.old) (O.view output.new) }
    ensures list_error { result ≢ 0 → IsListCommand (map string_bytes arguments.now)
        → IsUnlisted (map string_bytes arguments.now) (S.rest input.old) (S.rest input.new)
        (S.may_fail input.old) (O.view output.old) (O.view output.new) (E.view errors.old)
        (E.view errors.new) (output.new ≡ output.old) result }
    ensures no_error { result ≡ 0 → errors.new ≡ errors.old }
    ensures same_loans { (S.loan input.new ≡ S.loan input.old)
        × (O.loan output.new ≡ O.loan output.old) × (E.loan errors.new ≡ E.loan errors.old) }
{
    match requested_hash("tree", arguments) {
        Some(hash) => list(alloc, arguments, hash, input, output, errors),
        None => gixobj_cli_show::engine::run(alloc, arguments, input, output, errors),
    }
}
