//! Faults of a script that the program runs, and the lines that report them.
ghost use Rattle.std.specs.Prelude.{◌≡◌};
ghost use Rattle.gixobj_cli_edit.specs.Faults.{bad_line, fault_line, fault_status};
ghost use Rattle.gixobj_cli_show.specs.Engine.{IsPrinted};

use crate::ScriptError;
use gixobj_cli_show::Failure;
use gixobj_cli_show::engine::report_to;
use gixobj_streams::streams::Sink;
use itoa::Buffer;
use smallvec::SmallVec;
use std::alloc::Global;

/// The fault of a script that the program runs.
#[derive(Clone, Copy, Debug, PartialEq, Eq)]
pub enum Fault {
    /// The line with this number is the first that is neither empty nor a command. Numbers begin with 1, and
    /// count empty lines.
    BadLine(u64),
    /// The input or the output failed, or an allocation failed.
    Refused(Failure),
}

impl From<ScriptError> for Fault {
    ghost use Rattle.gixobj_cli_edit.specs.Faults.{fault_of};

    ghost from_gives = { λ cause fault. fault ≡ fault_of cause };

    fn from(cause: ScriptError) -> Fault {
        match cause {
            ScriptError::BadLine(number) => Fault::BadLine(number),
            ScriptError::OutOfMemory => Fault::Refused(Failure::OutOfMemory),
        }
    }
}

/// Returns the line that reports a bad line by its number. It has at most 34 bytes, and allocates nothing.
fn line_for(alloc: Global, number: u64) -> SmallVec<u8, 40>
    ensures encoded { result.items ≡ bad_line number }
{
    let mut digits = Buffer::new();
    let mut line = SmallVec::new(alloc);
    line.extend_from_slice(b"gixobj: line ").unwrap();
    line.extend_from_slice(digits.format(number).as_bytes())
        .unwrap();
    line.push_reserved(b'\n');
    line
}

/// Writes a line, or a prefix of it if the sink has no more room.
#[tactic(auto, using(gixobj_streams::proofs::Appends::appends_all_or_fails))]
fn report_line<E: Sink>(line: &[u8], errors: &mut E)
    ensures reported { IsPrinted (E.view errors.old) (E.view errors.new) line.now }
    ensures same_loan { E.loan errors.new ≡ E.loan errors.old }
{
    let _ = errors.write_bytes(line);
}

/// Writes the line of a fault, and returns the exit status.
///
/// If the line cannot be written, the status alone reports the fault. Only the sink may allocate.
pub fn report_fault<E: Sink>(alloc: Global, fault: Fault, errors: &mut E) -> u8
    ensures status { result ≡ fault_status fault }
    ensures reported { IsPrinted (E.view errors.old) (E.view errors.new) (fault_line fault) }
    ensures same_loan { E.loan errors.new ≡ E.loan errors.old }
{
    match fault {
        Fault::BadLine(number) => {
            report_line(&line_for(alloc, number), errors);
            1
        }
        Fault::Refused(error) => report_to(error, errors),
    }
}
