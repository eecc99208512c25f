//! Reports of SSH programs (ssh-keygen(1), `-Y verify`).
ghost use Rattle.std.specs.Prelude.{◌≡◌, ◌≢◌, ◌≤◌, [], IfOk, None, OnErr, codes, drop, length};
ghost use Rattle.std.specs.Option.{option_map};
ghost use Rattle.bstr.specs.Owned.{bstring_bytes};
ghost use Rattle.bstr.specs.Text.{lines_of};
ghost use Rattle.gixobj_signature_reports.specs.Fields.{after_prefix};
ghost use Rattle.gixobj_signature_reports.specs.Outcomes.{outcome_view};
ghost use Rattle.gixobj_signature_reports.specs.SshReports.{after_last, first_line, ssh_key, ssh_report, ssh_status};

use super::{Outcome, Status, TrustLevel};
use bstr::{BString, ByteSlice};
use gixobj_hash::OutOfMemory;
use gixobj_hash::split::split_at_last_byte;
use gixobj_parse::signature::Format;
use std::alloc::Global;

/// Decodes the report of an SSH program from its output, with this signer and this trust.
///
/// The status is `Good` if the output begins with `Good "git" signature`, and `Bad` otherwise. The key and
/// the fingerprint are the bytes after the last ` key ` of the first line.
///
/// The outcome isn't valid before `evaluate`. The raw output, the key and the fingerprint are allocated
/// copies. Empty output allocates nothing.
///
/// # Errors
///
/// [`OutOfMemory`] if the allocation for one of these copies fails, which requires output of at least one
/// byte.
#[tactic(auto, using(crate::proofs::LastPositions::output_not_nil_of_key))]
pub fn parse_ssh_output(
    alloc: Global,
    output: BString,
    signer: Option<BString>,
    trust_level: TrustLevel,
) -> Result<Outcome, OutOfMemory>
    ensures reported { IfOk result (λ it. outcome_view it
        ≡ ssh_report (bstring_bytes output) (option_map bstring_bytes signer) trust_level) }
    ensures allocates { OnErr result (bstring_bytes output ≢ []) }
{
    let status = status_of(output.as_bytes());
    let raw_output = bytes_of(alloc, output.as_bytes())?;
    let found = key_in(output.as_bytes());
    let key = copy_of(alloc, found)?;
    let fingerprint = copy_of(alloc, found)?;
    Ok(Outcome {
        format: Format::Ssh,
        status,
        trust_level,
        signer,
        key,
        fingerprint,
        primary_key_fingerprint: None,
        output,
        raw_output,
        valid: false,
    })
}

/// Returns the status that the output reports.
fn status_of(output: &[u8]) -> Status
    ensures { result ≡ ssh_status output.now }
{
    if output.starts_with(b"Good \"git\" signature") {
        Status::Good
    } else {
        Status::Bad
    }
}

/// Returns the bytes after the last ` key ` of the first line, if there is one.
fn key_in<'a>(output: &'a [u8]) -> Option<&'a [u8]>
    ensures { option_map (λ it. it.now) result ≡ ssh_key output.now }
{
    after_last_key(first_line_of(output))
}

/// Returns a copy of the bytes, if there are some.
fn copy_of(alloc: Global, content: Option<&[u8]>) -> Result<Option<BString>, OutOfMemory>
    ensures content { IfOk result (λ it. option_map bstring_bytes it
        ≡ option_map (λ it. it.now) content.entry) }
    ensures allocates { OnErr result (option_map (λ it. it.now) content.entry ≢ None) }
{
    match content {
        Some(content) => Ok(Some(bytes_of(alloc, content)?)),
        None => Ok(None),
    }
}

/// Returns a copy of the bytes. An empty copy allocates nothing.
fn bytes_of(alloc: Global, bytes: &[u8]) -> Result<BString, OutOfMemory>
    ensures bytes { IfOk result (λ it. bstring_bytes it ≡ bytes.now) }
    ensures allocates { OnErr result (bytes.now ≢ []) }
{
    if bytes.is_empty() {
        return Ok(BString::new(Vec::new(alloc)));
    }
    Ok(BString::from_slice(alloc, bytes)?)
}

/// Returns the first line without its line end. It is empty for empty content.
fn first_line_of(content: &[u8]) -> &[u8]
    ensures { result.now ≡ first_line (lines_of content.now) }
{
    match content.lines().next() {
        Some(line) => line,
        None => b"",
    }
}

/// Returns the bytes after the last ` key ` of a line, or `None` without one. The search goes backwards,
/// space by space.
#[tactic(auto, using(crate::proofs::LastPositions::no_key_here, crate::proofs::LastPositions::no_key_after_last, crate::proofs::LastPositions::joined_here, crate::proofs::LastPositions::inside_here, crate::proofs::LastPositions::prefix_len_lt))]
fn after_last_key<'a>(line: &'a [u8]) -> Option<&'a [u8]>
    ensures { option_map (λ it. it.now) result ≡ after_last (codes " key ") line.now }
{
    let mut remaining = line;
    'positions: while let Some((prefix, _)) = split_at_last_byte(remaining, b' ') {
        if let Some(rest) = after_at(line, prefix.len(), b" key ") {
            return Some(rest);
        }
        remaining = prefix;
    }
    None
}

/// Returns the bytes after `content` if it is at this offset, or `None` otherwise.
#[inline(always)]
fn after_at<'a>(bytes: &'a [u8], at: usize, content: &[u8]) -> Option<&'a [u8]>
    requires bounded { at ≤ length bytes.now }
    ensures { option_map (λ it. it.now) result ≡ after_prefix content.now (drop at bytes.now) }
{
    bytes.split_at(at).1.strip_prefix(content)
}
