//! The lines of git's findings.
ghost use Rattle.std.specs.Prelude.{◌≡◌, ◌++◌, OnOk};
ghost use Rattle.std.specs.List.{flat_map, list_any};
ghost use Rattle.gixobj_cli_batch.specs.FindingLines.{finding_head, finding_line, finding_tail, is_error};
ghost use Rattle.gixobj_cli_batch.specs.FindingLines.{severity_label};

use crate::lines::{push_id, push_number};
use gix_object::Kind;
use gix_object::hash::ObjectId;
use gixobj_cli_messages::message_description;
use gixobj_fsck_messages::Finding;
use std::alloc::AllocError;

/// Returns whether a finding counts as an error. Allocates nothing.
pub(crate) fn has_error(strict: bool, findings: &[Finding]) -> bool
    ensures { result ≡ list_any (is_error strict) findings.now }
{
    findings.iter().any(|it| is_error(strict, *it))
}

/// Returns whether this finding counts as an error.
fn is_error(strict: bool, it: Finding) -> bool
    ensures { result ≡ is_error strict it }
{
    it.message.severity(strict).is_error()
}

/// Appends the lines of the findings about an object.
pub(crate) fn push_findings(
    lines: &mut Vec<u8>,
    strict: bool,
    id: ObjectId,
    kind: Kind,
    findings: &[Finding],
) -> Result<(), AllocError>
    ensures { OnOk result (lines.new.items
        ≡ lines.old.items ++ flat_map (finding_line strict id kind) findings.now) }
{
    for it in findings {
        push_finding(lines, strict, id, kind, *it)?;
    }
    Ok(())
}

/// Appends the line of a finding.
fn push_finding(
    lines: &mut Vec<u8>,
    strict: bool,
    id: ObjectId,
    kind: Kind,
    it: Finding,
) -> Result<(), AllocError>
    ensures { OnOk result (lines.new.items
        ≡ lines.old.items ++ finding_line strict id kind it) }
{
    push_head(lines, strict, id, kind, it)?;
    push_tail(lines, it)?;
    lines.push(b'\n')?;
    Ok(())
}

/// Appends what comes before the name of the message.
fn push_head(
    lines: &mut Vec<u8>,
    strict: bool,
    id: ObjectId,
    kind: Kind,
    it: Finding,
) -> Result<(), AllocError>
    ensures { OnOk result (lines.new.items
        ≡ lines.old.items ++ finding_head strict id kind it) }
{
    lines.extend_from_slice(severity_label(is_error(strict, it)))?;
    lines.extend_from_slice(b" in ")?;
    lines.extend_from_slice(kind.as_bytes())?;
    lines.push(b' ')?;
    push_id(lines, id)
}

/// Returns what git-fsck prints before a finding: one that counts as an error, or another.
fn severity_label(error: bool) -> &'static [u8]
    ensures { result.now ≡ severity_label error }
{
    if error { b"error" } else { b"warning" }
}

/// Appends the name of the message, its meaning, and its offset.
fn push_tail(lines: &mut Vec<u8>, it: Finding) -> Result<(), AllocError>
    ensures { OnOk result (lines.new.items ≡ lines.old.items ++ finding_tail it) }
{
    lines.extend_from_slice(b": ")?;
    lines.extend_from_slice(it.message.as_str().as_bytes())?;
    lines.extend_from_slice(b": ")?;
    lines.extend_from_slice(message_description(it.message).as_bytes())?;
    push_number(lines, b", at byte ", it.offset)
}
