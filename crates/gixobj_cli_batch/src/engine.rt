//! The program, over any reader and any two writers.
ghost use Rattle.std.specs.Prelude.{◌≡◌, ◌≢◌, IfErr, OnOk, map};
ghost use Rattle.std.specs.String.{string_bytes};
ghost use Rattle.gixobj_cli_batch.specs.Runs.{HasPrinted, RunFails, fault_status};
ghost use Rattle.gixobj_cli_batch.specs.declared.fault.Fault.{Fault};

use crate::arguments::command_of;
use crate::fault::Fault;
use crate::input::read_all;
use crate::output::write_lines;
use crate::report::{Report, report_of};
use std::alloc::Global;
use std::io::{Read, Write};

/// Runs the program on `arguments`, those after its name, and returns the exit status.
///
/// Status 0: the lines of the command were written, and nothing was written to `errors`. Status 2: the arguments
/// name no command, and nothing was read or written. Status 1: another error. Unless `output` failed, the lines
/// before the error were written, or the command has none. A line in `errors` reports the error.
///
/// Allocates the bytes of the entire input, and what [`report_of`] allocates.
pub(crate) fn engine<R: Read, O: Write, E: Write>(
    alloc: Global,
    arguments: &[String],
    input: &mut R,
    output: &mut O,
    errors: &mut E,
) -> u8
    ensures printed { result ≡ 0 → HasPrinted (map string_bytes arguments.now)
        (R.remaining input.old) (R.remaining input.new) (O.contents output.old)
        (O.contents output.new) }
    ensures error { result ≢ 0 → (fault : Fault) × (result ≡ fault_status fault)
        × RunFails (map string_bytes arguments.now) (R.remaining input.old) (R.remaining input.new)
        (O.contents output.old) (O.contents output.new) (input.new ≡ input.old)
        (output.new ≡ output.old) fault }
    ensures no_error { result ≡ 0 → errors.new ≡ errors.old }
{
    match run(alloc, arguments, input, output) {
        Ok(()) => 0,
        Err(fault) => report(&fault, errors),
    }
}

/// Writes a line that reports an error, and returns the exit status.
pub(crate) fn report<E: Write>(fault: &Fault, errors: &mut E) -> u8
    ensures { result ≡ fault_status fault.now }
{
    let _ = writeln!(errors, "gixobj_cli_batch: {fault}");
    fault.status()
}

/// Runs the command that the arguments name on the entire input, and writes its lines.
fn run<R: Read, O: Write>(
    alloc: Global,
    arguments: &[String],
    input: &mut R,
    output: &mut O,
) -> Result<(), Fault>
    ensures printed { OnOk result (HasPrinted (map string_bytes arguments.now)
        (R.remaining input.old) (R.remaining input.new) (O.contents output.old)
        (O.contents output.new)) }
    ensures error { IfErr result (RunFails (map string_bytes arguments.now)
        (R.remaining input.old) (R.remaining input.new) (O.contents output.old)
        (O.contents output.new) (input.new ≡ input.old) (output.new ≡ output.old)) }
{
    let command = match command_of(arguments) {
        Some(command) => command,
        None => return Err(Fault::Usage),
    };
    let bytes = match read_all(alloc, input) {
        Ok(bytes) => bytes,
        Err(cause) => return Err(Fault::Failed(cause)),
    };
    let Report { lines, fault } = match report_of(alloc, command, bytes.as_slice()) {
        Ok(report) => report,
        Err(fault) => return Err(fault),
    };
    match write_lines(output, lines.as_slice()) {
        Ok(()) => {}
        Err(cause) => return Err(Fault::Failed(cause)),
    }
    match fault {
        None => Ok(()),
        Some(fault) => Err(fault),
    }
}
