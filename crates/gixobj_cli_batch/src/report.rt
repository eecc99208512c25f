//! The lines that a command prints, and the error after them.
ghost use Rattle.std.specs.Prelude.{IfErr, IfOk, map};
ghost use Rattle.gixobj_cli_batch.specs.Reports.{IsCommandError, IsReportError, Prints, Reports};
ghost use Rattle.gixobj_records.specs.Records.{record_view};

use crate::arguments::Command;
use crate::bases::list_bases;
use crate::check::check;
use crate::differences::list_changes;
use crate::fault::Fault;
use crate::files::list_files;
use crate::history::list_commits;
use crate::store::store_of;
use crate::walks::list_walk;
use gixobj_records::{Record, decode_records};
use std::alloc::Global;

/// What a command prints.
#[derive(Drop)]
pub(crate) struct Report {
    /// The lines for standard output.
    pub(crate) lines: Vec<u8>,
    /// The error after them, or `None`.
    pub(crate) fault: Option<Fault>,
}

/// Runs a command on the records of the input.
pub(crate) fn report_of(alloc: Global, command: Command, input: &[u8]) -> Result<Report, Fault>
    ensures printed { IfOk result (λ report. Reports command input.now report.lines.items
        report.fault) }
    ensures error { IfErr result (IsReportError command input.now) }
{
    let records = decode_records(alloc, input)?;
    report_on(alloc, command, records.as_slice())
}

/// Runs a command on records.
fn report_on(alloc: Global, command: Command, records: &[Record<'_>]) -> Result<Report, Fault>
    ensures printed { IfOk result (λ report. Prints command (map record_view records.now)
        report.lines.items report.fault) }
    ensures error { IfErr result (IsCommandError command (map record_view records.now)) }
{
    match command {
        Command::Log(id) => {
            let store = store_of(alloc, records)?;
            list_commits(alloc, &store, id)
        }
        Command::List(id) => {
            let store = store_of(alloc, records)?;
            list_files(alloc, &store, id)
        }
        Command::Diff(from, to) => {
            let store = store_of(alloc, records)?;
            list_changes(alloc, &store, from, to)
        }
        Command::MergeBase(one, other) => {
            let store = store_of(alloc, records)?;
            list_bases(alloc, &store, one, other)
        }
        Command::RevList { order, tip, hidden } => {
            let store = store_of(alloc, records)?;
            list_walk(alloc, &store, order, tip, hidden)
        }
        Command::Check(strict) => check(alloc, strict, records),
    }
}
