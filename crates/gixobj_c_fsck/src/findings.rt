//! Git's findings about an object: its messages in git's order, each at its offset.
ghost use Rattle.std.specs.Prelude.{◌≡◌, Some};
ghost use Rattle.gixobj_c_codes.specs.Codes.{hash_of_code as hash_of, kind_of_code as kind_of};
ghost use Rattle.gixobj_c_fsck.specs.Codes.{strict_of_code as strict_of};
ghost use Rattle.gixobj_c_fsck.specs.Findings.{IsFindingsCall, WritesFindings, finding_parts};

use crate::messages::{severity_number, strictness};
use gixobj_c_codes::codes::{
    BUFFER_TOO_SHORT, DONE, OUT_OF_MEMORY, UNKNOWN_CODE, hash_of_code, kind_of_code,
};
use gixobj_fsck_messages::{Finding, Options};
use gixobj_fsck_objects::fsck;
use gixobj_hash::{Kind, hash};
use std::alloc::Global;

/// A message about an object.
#[repr(C)]
#[derive(Clone, Copy)]
pub struct FindingParts {
    /// The offset of what the message is about.
    pub offset: usize,
    /// The number of the message.
    pub message: u32,
    /// The number of its severity in this check.
    pub severity: u32,
}

/// Writes git's findings about an object, in git's order, and their number. A tree allocates, and so do findings.
#[unsafe(no_mangle)]
pub extern "C" fn gixobj_fsck_findings(
    alloc: Global,
    hash: u8,
    kind: u8,
    bytes: &[u8],
    strict: u8,
    out: &mut [FindingParts],
    count: &mut usize,
) -> u32
    ensures { IsFindingsCall (hash_of hash) (kind_of kind) (strict_of strict) bytes.now out.old
        out.new count.old count.new result }
{
    let Some(hash) = hash_of_code(hash) else {
        return UNKNOWN_CODE;
    };
    let Some(kind) = kind_of_code(kind) else {
        return UNKNOWN_CODE;
    };
    let Some(strict) = strictness(strict) else {
        return UNKNOWN_CODE;
    };
    list_findings(alloc, hash, kind, bytes, strict, out, count)
}

/// Writes the findings about an object in a check that is strict or not, and their number.
fn list_findings(
    alloc: Global,
    hash: hash::Kind,
    kind: Kind,
    bytes: &[u8],
    strict: bool,
    out: &mut [FindingParts],
    count: &mut usize,
) -> u32
    ensures { IsFindingsCall (Some hash) (Some kind) (Some strict) bytes.now out.old
        out.new count.old count.new result }
{
    match fsck(alloc, kind, hash, bytes, &Options::new(strict)) {
        Ok(findings) => write_findings(&findings, strict, out, count),
        Err(_) => OUT_OF_MEMORY,
    }
}

/// Writes the number of findings, and the findings if the array is long enough.
fn write_findings(
    findings: &[Finding],
    strict: bool,
    out: &mut [FindingParts],
    count: &mut usize,
) -> u32
    ensures { WritesFindings strict findings.now out.old out.new count.new result }
{
    *count = findings.len();
    if out.len() < findings.len() {
        return BUFFER_TOO_SHORT;
    }
    for i in 0..findings.len() {
        out[i] = parts_of(findings[i], strict);
    }
    DONE
}

/// Returns the parts of a finding.
fn parts_of(finding: Finding, strict: bool) -> FindingParts
    ensures { result ≡ finding_parts strict finding }
{
    let Finding { message, offset } = finding;
    FindingParts {
        offset,
        message: message.number() as u32,
        severity: severity_number(Some(message.severity(strict))),
    }
}
