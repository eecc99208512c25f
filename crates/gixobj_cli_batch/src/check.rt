//! The command `check`.
ghost use Rattle.std.specs.Prelude.{◌≡◌, ◌≤◌, ◌++◌, ◌∷◌, [], IfErr, IfOk, OnOk, map};
ghost use Rattle.gix_object.specs.Bytes.{newline};
ghost use Rattle.gix_object.specs.Hash.{encode_id_hex};
ghost use Rattle.gixobj_cli_batch.specs.CheckLines.{IsFaultOfCounts, PrintsCheck, checked_lines, count_line};
ghost use Rattle.gixobj_cli_batch.specs.CheckLines.{fault_line, faulty_count, missing_count, other_line};
ghost use Rattle.gixobj_cli_batch.specs.declared.fault.Fault.TheVariants as program;
ghost use Rattle.gixobj_records.specs.Records.{record_view};

use crate::checked::{BytesFault, Checked, check_record};
use crate::fault::Fault;
use crate::findings::{has_error, push_findings};
use crate::lines::{push_id, push_number};
use crate::report::Report;
use gix_object::hash::ObjectId;
use gixobj_records::Record;
use std::alloc::{AllocError, Global};

/// Checks each object: its id has to be that of its bytes, and its bytes have to be those that its object encodes to.
/// Prints a line for each fault, each finding of git and each missing object, and one with the numbers of objects.
pub(crate) fn check(alloc: Global, strict: bool, records: &[Record<'_>]) -> Result<Report, Fault>
    ensures printed { IfOk result (λ report. PrintsCheck strict (map record_view records.now)
        report.lines.items report.fault) }
    ensures error { IfErr result (λ fault. fault ≡ program.OutOfMemory) }
{
    let mut lines = Vec::new(alloc);
    let mut buffer = Vec::new(alloc);
    let (mut faulty, mut missing) = (0usize, 0usize);
    for it in records {
        let checked = check_record(alloc, &mut buffer, strict, *it)?;
        push_checked(&mut lines, strict, &checked)?;
        faulty += count_faulty(strict, &checked);
        missing += count_missing(&checked);
    }
    push_counts(&mut lines, records.len() - missing, faulty, missing)?;
    let fault = fault_of(faulty, missing);
    Ok(Report { lines, fault })
}

/// One for a faulty object, else zero.
fn count_faulty(strict: bool, checked: &Checked) -> usize
    ensures counted { result ≡ faulty_count strict checked.now }
    ensures bounded { result ≤ 1 }
{
    match checked {
        Checked::Missing { .. } => 0,
        Checked::Object { other: Some(_), .. } => 1,
        Checked::Object { fault: Some(_), .. } => 1,
        Checked::Object { findings, .. } if has_error(strict, findings) => 1,
        Checked::Object { .. } => 0,
    }
}

/// One for a missing object, else zero.
fn count_missing(checked: &Checked) -> usize
    ensures counted { result ≡ missing_count checked.now }
    ensures bounded { result ≤ 1 }
{
    match checked {
        Checked::Missing { .. } => 1,
        Checked::Object { .. } => 0,
    }
}

/// The error after a check with these numbers of faulty and of missing objects, or `None`.
fn fault_of(faulty: usize, missing: usize) -> Option<Fault>
    ensures { IsFaultOfCounts faulty missing result }
{
    if faulty > 0 {
        return Some(Fault::Faulty);
    }
    if missing > 0 {
        return Some(Fault::Faulty);
    }
    None
}

/// Appends the lines of a record: none for an object without a fault or a finding.
fn push_checked(lines: &mut Vec<u8>, strict: bool, checked: &Checked) -> Result<(), AllocError>
    ensures { OnOk result (lines.new.items ≡ lines.old.items ++ checked_lines strict checked.now) }
{
    match checked {
        Checked::Missing { id } => push_line(lines, *id, b" is missing"),
        Checked::Object {
            id,
            kind,
            other,
            fault,
            findings,
        } => {
            push_other(lines, *id, *other)?;
            push_fault(lines, *id, *fault)?;
            push_findings(lines, strict, *id, *kind, findings)
        }
    }
}

/// Appends the line of an object with another id, or nothing.
fn push_other(lines: &mut Vec<u8>, id: ObjectId, other: Option<ObjectId>) -> Result<(), AllocError>
    ensures { OnOk result (lines.new.items ≡ lines.old.items ++ other_line id other) }
{
    match other {
        None => Ok(()),
        Some(actual) => {
            push_id(lines, id)?;
            lines.extend_from_slice(b" has the bytes of ")?;
            push_line(lines, actual, b"")
        }
    }
}

/// Appends the line of a fault of the bytes of an object, or nothing.
fn push_fault(
    lines: &mut Vec<u8>,
    id: ObjectId,
    fault: Option<BytesFault>,
) -> Result<(), AllocError>
    ensures { OnOk result (lines.new.items ≡ lines.old.items ++ fault_line id fault) }
{
    match fault {
        None => Ok(()),
        Some(BytesFault::Malformed) => push_line(lines, id, b" is malformed"),
        Some(BytesFault::OtherBytes) => push_line(lines, id, b" encodes to other bytes"),
    }
}

/// Appends a line: an id, and what follows it.
fn push_line(lines: &mut Vec<u8>, id: ObjectId, rest: &[u8]) -> Result<(), AllocError>
    ensures { OnOk result (lines.new.items
        ≡ lines.old.items ++ (encode_id_hex id ++ rest.now ++ newline ∷ [])) }
{
    push_id(lines, id)?;
    lines.extend_from_slice(rest)?;
    lines.push(b'\n')?;
    Ok(())
}

/// Appends the line of the numbers of objects.
fn push_counts(
    lines: &mut Vec<u8>,
    objects: usize,
    faulty: usize,
    missing: usize,
) -> Result<(), AllocError>
    ensures { OnOk result (lines.new.items
        ≡ lines.old.items ++ count_line objects faulty missing) }
{
    push_number(lines, b"checked ", objects)?;
    push_number(lines, b" objects: ", faulty)?;
    push_number(lines, b" faulty, ", missing)?;
    lines.extend_from_slice(b" missing\n")
}
