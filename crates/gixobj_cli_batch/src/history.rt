//! The command `log`.
ghost use Rattle.std.specs.Prelude.{◌≡◌, ◌++◌, IfErr, IfOk, OnOk};
ghost use Rattle.std.specs.List.{flat_map};
ghost use Rattle.bstr.specs.Owned.{bstring_bytes};
ghost use Rattle.gix_object.specs.Memory.{memory_objects};
ghost use Rattle.gixobj_cli_batch.specs.Lines.{author_bytes, log_line};
ghost use Rattle.gixobj_cli_batch.specs.Reports.{IsFaultOfEnd, PrintsLog};
ghost use Rattle.gixobj_cli_batch.specs.declared.fault.Fault.TheVariants as program;

use crate::fault::Fault;
use crate::lines::push_id;
use crate::report::Report;
use bstr::BString;
use gix_object::Memory;
use gix_object::hash::ObjectId;
use gixobj_listings::history::{CommitLog, LogEnd, LoggedCommit, log};
use std::alloc::{AllocError, Global};

/// Lists a commit and its ancestors by first parents, a line for each. The error is that of the first commit that isn't
/// read.
pub(crate) fn list_commits(alloc: Global, store: &Memory, id: ObjectId) -> Result<Report, Fault>
    ensures printed { IfOk result (λ report. PrintsLog (memory_objects store.now) id
        report.lines.items report.fault) }
    ensures error { IfErr result (λ fault. fault ≡ program.OutOfMemory) }
{
    let CommitLog { commits, end } = log(alloc, store, id, u32::MAX)?;
    let lines = lines_of(alloc, &commits)?;
    let fault = fault_of(end);
    Ok(Report { lines, fault })
}

/// Returns the lines of commits.
fn lines_of(alloc: Global, commits: &[LoggedCommit]) -> Result<Vec<u8>, AllocError>
    ensures { IfOk result (λ lines. lines.items ≡ flat_map log_line commits.now) }
{
    let mut lines = Vec::new(alloc);
    for commit in commits {
        push_commit(&mut lines, commit)?;
    }
    Ok(lines)
}

/// Returns the error of the end of a log, or `None` for a root commit.
fn fault_of(end: LogEnd) -> Option<Fault>
    ensures { IsFaultOfEnd end result }
{
    match end {
        LogEnd::Root => None,
        LogEnd::Unread { id, cause } => Some(Fault::Commit { id, cause }),
        LogEnd::TooLong { id } => Some(Fault::TooLong { id }),
    }
}

/// Appends the line of a commit.
fn push_commit(lines: &mut Vec<u8>, commit: &LoggedCommit) -> Result<(), AllocError>
    ensures { OnOk result (lines.new.items ≡ lines.old.items ++ log_line commit.now) }
{
    push_id(lines, commit.id)?;
    lines.push(b' ')?;
    push_author(lines, &commit.author, &commit.email)?;
    lines.push(b' ')?;
    lines.extend_from_slice(commit.title.as_bytes())?;
    lines.push(b'\n')?;
    Ok(())
}

/// Appends a name and an email in angle brackets.
fn push_author(lines: &mut Vec<u8>, name: &BString, email: &BString) -> Result<(), AllocError>
    ensures { OnOk result (lines.new.items
        ≡ lines.old.items ++ author_bytes (bstring_bytes name.now) (bstring_bytes email.now)) }
{
    lines.extend_from_slice(name.as_bytes())?;
    lines.extend_from_slice(b" <")?;
    lines.extend_from_slice(email.as_bytes())?;
    lines.push(b'>')?;
    Ok(())
}
