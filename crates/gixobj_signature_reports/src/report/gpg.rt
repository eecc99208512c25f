//! Reports of OpenPGP and X.509 programs (gnupg, doc/DETAILS, "Format of the --status-fd output").
ghost use Rattle.std.specs.Prelude.{◌≡◌, ◌≢◌, [], ◌∷◌, IfOk, None, OnErr, codes};
ghost use Rattle.std.specs.List.{filter_map};
ghost use Rattle.std.specs.Option.{option_map};
ghost use Rattle.bstr.specs.Owned.{bstring_bytes};
ghost use Rattle.gixobj_signature_reports.specs.Fields.{after_prefix, after_space, either, field_at, fields_of};
ghost use Rattle.gixobj_signature_reports.specs.Fields.{first_token, unless_empty};
ghost use Rattle.gixobj_signature_reports.specs.GpgReports.{error_status_of, reported_fields, gpg_report};
ghost use Rattle.gixobj_signature_reports.specs.GpgReports.{reported_names, status_of, status_lines, trust_in};
ghost use Rattle.gixobj_signature_reports.specs.GpgReports.{reported_trust, valid_fields, verdict, with_status};
ghost use Rattle.gixobj_signature_reports.specs.Outcomes.{copied_strings, no_strings, outcome_view};
ghost use Rattle.gixobj_signature_reports.specs.StatusLines.{HasOneMore, after_spaces, reported_view, status_view};
ghost use Rattle.gixobj_signature_reports.specs.StatusLines.{status_after, line_status, verdict_of};
ghost use Rattle.gixobj_signature_reports.specs.Trust.{or_undefined, trust_of};

use super::{Outcome, Status, TrustLevel};
use bstr::{BString, ByteSlice};
use gixobj_hash::OutOfMemory;
use gixobj_hash::split::split_at_byte;
use gixobj_parse::signature::Format;
use std::alloc::Global;

/// Decodes the report of an OpenPGP or X.509 program from its output.
///
/// `output` is the human-readable output. `raw_output` is the machine-readable output, whose status lines
/// begin with `[GNUPG:] `:
///
/// - The status, the key and the signer are those of the single line that reports a status.
/// - Without such a line the status is `Unknown`, and of several `Error`. Key and signer are then `None`.
/// - The trust and the fingerprints are those of the last lines that report them. The trust is `Undefined`
///   otherwise, or for an unknown level.
///
/// The outcome isn't valid before `evaluate`. Only the copies of the key, of the signer and of the
/// fingerprints allocate.
///
/// # Errors
///
/// [`OutOfMemory`] if the allocation for a copy of the key, of the signer or of a fingerprint fails.
#[tactic(auto, using(crate::proofs::Fields::copied_strings_of_verdict, crate::proofs::Fields::copied_strings_of_fingerprint, crate::proofs::Fields::copied_strings_of_primary))]
pub fn parse_gpg_output(
    alloc: Global,
    format: Format,
    output: BString,
    raw_output: BString,
) -> Result<Outcome, OutOfMemory>
    ensures reported { IfOk result (λ it. outcome_view it
        ≡ gpg_report format (bstring_bytes output) (bstring_bytes raw_output)) }
    ensures allocates { OnErr result (copied_strings (gpg_report format (bstring_bytes output)
        (bstring_bytes raw_output)) ≢ no_strings) }
{
    let reported = reported_in(raw_output.as_bytes());
    let said = reported_by(alloc, reported.statuses)?;
    let trust_level = reported_trust_level(reported.trust);
    let fingerprint = reported_field(alloc, reported.valid, 0)?;
    let primary_key_fingerprint = reported_field(alloc, reported.valid, 9)?;
    let LineReport {
        status,
        key,
        signer,
    } = said;
    Ok(Outcome {
        format,
        status,
        trust_level,
        signer,
        key,
        fingerprint,
        primary_key_fingerprint,
        output,
        raw_output,
        valid: false,
    })
}

/// The status, the key and the signer that status lines report.
#[derive(Debug, Drop)]
pub(crate) struct LineReport {
    pub(crate) status: Status,
    pub(crate) key: Option<BString>,
    pub(crate) signer: Option<BString>,
}

/// The statuses that the lines so far report.
#[derive(Clone, Copy)]
pub(crate) enum Statuses<'a> {
    /// No line reports a status.
    None,
    /// One line reports this status, with these bytes after its keyword.
    One(Status, &'a [u8]),
    /// More than one line reports a status.
    Several,
}

/// The values that the lines so far report.
#[derive(Clone, Copy)]
pub(crate) struct Reported<'a> {
    /// The statuses.
    pub(crate) statuses: Statuses<'a>,
    /// The bytes after `TRUST_` in the last line that reports the trust.
    pub(crate) trust: Option<&'a [u8]>,
    /// The bytes after `VALIDSIG ` in the last line that reports the fingerprints.
    pub(crate) valid: Option<&'a [u8]>,
}

/// Decodes all status lines in one pass.
#[tactic(auto, using(crate::proofs::StatusesRead::statuses_of_raw, crate::proofs::StatusesRead::trust_of_raw, crate::proofs::StatusesRead::valid_fields_of_raw))]
fn reported_in<'a>(raw: &'a [u8]) -> Reported<'a>
    ensures statuses { verdict_of result.statuses []
        ≡ verdict (filter_map status_of (status_lines raw.now)) }
    ensures trust { reported_trust (option_map (λ it. it.now) result.trust)
        ≡ trust_in (status_lines raw.now) }
    ensures valid { reported_fields (option_map (λ it. it.now) result.valid)
        ≡ valid_fields (status_lines raw.now) }
{
    let mut reported = Reported {
        statuses: Statuses::None,
        trust: None,
        valid: None,
    };
    let mut lines = raw.lines();
    'lines: while let Some(line) = lines.next() {
        reported = with_line(reported, line);
    }
    reported
}

/// Returns the values after one more line.
#[inline(always)]
fn with_line<'a>(before: Reported<'a>, line: &'a [u8]) -> Reported<'a>
    ensures statuses { HasOneMore before.entry.statuses (line_status line.now) result.statuses }
    ensures trust { option_map (λ it. it.now) result.trust
        ≡ either (status_after (codes "TRUST_") line.now)
        (option_map (λ it. it.now) before.entry.trust) }
    ensures valid { option_map (λ it. it.now) result.valid
        ≡ either (status_after (codes "VALIDSIG ") line.now)
        (option_map (λ it. it.now) before.entry.valid) }
{
    match line.strip_prefix(b"[GNUPG:] ") {
        Some(said) => Reported {
            statuses: with_status_if_any(before.statuses, status_of_line(said)),
            trust: after_here(said, b"TRUST_", before.trust),
            valid: valid_here(said, before.valid),
        },
        None => before,
    }
}

/// Returns the statuses with one more, if there is one.
#[inline(always)]
fn with_status_if_any<'a>(before: Statuses<'a>, found: Option<(Status, &'a [u8])>) -> Statuses<'a>
    ensures { HasOneMore before.entry (option_map status_view found.entry) result }
{
    match (before, found) {
        (_, None) => before,
        (Statuses::None, Some((status, rest))) => Statuses::One(status, rest),
        (_, Some(_)) => Statuses::Several,
    }
}

/// Returns what the statuses of all lines report together.
fn reported_by(alloc: Global, statuses: Statuses<'_>) -> Result<LineReport, OutOfMemory>
    ensures reported { IfOk result (λ it. reported_view it ≡ verdict_of statuses.entry []) }
    ensures allocates { OnErr result (reported_names (verdict_of statuses.entry []) ≢
        (None, None)) }
{
    match statuses {
        Statuses::None => Ok(nothing_but(Status::Unknown)),
        Statuses::One(status, rest) => reported_by_one(alloc, status, rest),
        Statuses::Several => Ok(nothing_but(Status::Error)),
    }
}

/// Returns a status without a key and a signer.
fn nothing_but(status: Status) -> LineReport
    ensures { reported_view result ≡ record { status = status; key = None; signer = None } }
{
    LineReport {
        status,
        key: None,
        signer: None,
    }
}

/// Decodes a single reported status from the bytes after its keyword.
#[tactic(auto, using(crate::proofs::Fields::reported_names_of_key, crate::proofs::Fields::reported_names_of_signer))]
fn reported_by_one(alloc: Global, status: Status, rest: &[u8]) -> Result<LineReport, OutOfMemory>
    ensures reported { IfOk result (λ it. reported_view it ≡ verdict ((status, rest.now) ∷ [])) }
    ensures allocates { OnErr result (reported_names (verdict ((status, rest.now) ∷ [])) ≢
        (None, None)) }
{
    let (keyword, following) = split_at_space(rest);
    let key = copy_unless_empty(alloc, keyword)?;
    let signer = copy_unless_empty(alloc, following)?;
    Ok(LineReport {
        status,
        key,
        signer,
    })
}

/// Splits the line at the first space. Without one, the second part is empty.
#[tactic(auto, using(crate::proofs::FieldPositions::first_token_of_split, crate::proofs::FieldPositions::first_token_of_spaceless, crate::proofs::FieldPositions::after_space_of_split, crate::proofs::FieldPositions::after_space_of_spaceless))]
fn split_at_space<'a>(line: &'a [u8]) -> (&'a [u8], &'a [u8])
    ensures token { result.0.now ≡ first_token line.now }
    ensures rest { result.1.now ≡ after_space line.now }
{
    match split_at_byte(line, b' ') {
        Some(parts) => parts,
        None => (line, b""),
    }
}

/// Returns the status that a line without its prefix reports. Its first byte selects the keywords to compare.
#[inline(always)]
#[tactic(auto, using(crate::proofs::FirstBytes::status_of_goodsig, crate::proofs::FirstBytes::status_of_badsig, crate::proofs::FirstBytes::status_of_errsig, crate::proofs::FirstBytes::status_of_revoked, crate::proofs::FirstBytes::status_of_other_byte, crate::proofs::FirstBytes::status_of_nil))]
fn status_of_line<'a>(line: &'a [u8]) -> Option<(Status, &'a [u8])>
    ensures { option_map status_view result ≡ status_of line.now }
{
    let (first, _) = line.split_first()?;
    match *first {
        b'G' => status_or(line, b"GOODSIG ", Status::Good, None),
        b'B' => status_or(line, b"BADSIG ", Status::Bad, None),
        b'E' => error_or_expired(line),
        b'R' => status_or(line, b"REVKEYSIG ", Status::RevokedKey, None),
        _ => None,
    }
}

/// Returns the status of a line whose keyword begins with `E`.
#[inline(always)]
fn error_or_expired<'a>(line: &'a [u8]) -> Option<(Status, &'a [u8])>
    ensures { option_map status_view result ≡ error_status_of line.now }
{
    let expired_key = status_or(line, b"EXPKEYSIG ", Status::ExpiredKey, None);
    let expired = status_or(line, b"EXPSIG ", Status::Expired, expired_key);
    status_or(line, b"ERRSIG ", Status::Error, expired)
}

/// Returns this status and the bytes after the keyword if the line begins with it, or `other`.
#[inline(always)]
fn status_or<'a>(
    line: &'a [u8],
    content: &[u8],
    status: Status,
    other: Option<(Status, &'a [u8])>,
) -> Option<(Status, &'a [u8])>
    ensures { option_map status_view result
        ≡ either (option_map (with_status status) (after_prefix content.now line.now))
        (option_map status_view other.entry) }
{
    match line.strip_prefix(content) {
        Some(rest) => Some((status, rest)),
        None => other,
    }
}

/// Returns the trust level that the first token names, or `Undefined`.
fn reported_trust_level(reported: Option<&[u8]>) -> TrustLevel
    ensures { result ≡ reported_trust (option_map (λ it. it.now) reported.entry) }
{
    match reported {
        Some(rest) => trust_level_of(first_token_of(rest)),
        None => TrustLevel::Undefined,
    }
}

/// Returns the trust level of this name, or `Undefined` for an unknown name.
fn trust_level_of(name: &[u8]) -> TrustLevel
    ensures { result ≡ or_undefined (trust_of name.now) }
{
    match TrustLevel::from_bytes(name) {
        Some(level) => level,
        None => TrustLevel::Undefined,
    }
}

/// Returns a copy of the field with this number, counted from 0, if a line reports fields.
fn reported_field(
    alloc: Global,
    reported: Option<&[u8]>,
    number: usize,
) -> Result<Option<BString>, OutOfMemory>
    ensures field { IfOk result (λ it. option_map bstring_bytes it
        ≡ field_at number (reported_fields (option_map (λ it. it.now) reported.entry))) }
    ensures allocates { OnErr result (field_at number
        (reported_fields (option_map (λ it. it.now) reported.entry)) ≢ None) }
{
    match reported {
        Some(rest) => field_of(alloc, rest, number),
        None => Ok(None),
    }
}

/// Returns a copy of the field with this number, unless it is missing or empty.
#[tactic(auto, using(crate::proofs::FieldPositions::field_at_eq, crate::proofs::Fields::field_at_not_none))]
fn field_of(alloc: Global, line: &[u8], number: usize) -> Result<Option<BString>, OutOfMemory>
    ensures field { IfOk result (λ it. option_map bstring_bytes it
        ≡ field_at number (fields_of line.now)) }
    ensures allocates { OnErr result (field_at number (fields_of line.now) ≢ None) }
{
    match fields_after(line, number) {
        Some(rest) => copy_unless_empty(alloc, first_token_of(rest)),
        None => Ok(None),
    }
}

/// Returns the line from the field with this number on, or `None` if it has fewer fields.
#[tactic(auto, using(crate::proofs::FieldPositions::after_some_space_of_split, crate::proofs::FieldPositions::after_some_space_of_spaceless, crate::proofs::FieldPositions::after_spaces_step, crate::proofs::FieldPositions::after_spaces_none, crate::proofs::FieldPositions::after_spaces_zero))]
fn fields_after<'a>(line: &'a [u8], number: usize) -> Option<&'a [u8]>
    ensures { option_map (λ it. it.now) result ≡ after_spaces number line.now }
{
    if number == 0 {
        return Some(line);
    }
    let (_, following) = split_at_byte(line, b' ')?;
    after_nth(following, number - 1)
}

/// Returns the bytes after `number` spaces, or `None` if there are fewer. Fields are short, so each byte is
/// tested.
#[tactic(auto, using(crate::proofs::FieldPositions::after_spaces_of_space, crate::proofs::FieldPositions::after_spaces_of_byte, crate::proofs::FieldPositions::after_spaces_of_nil, crate::proofs::FieldPositions::after_spaces_zero))]
fn after_nth<'a>(line: &'a [u8], number: usize) -> Option<&'a [u8]>
    ensures { option_map (λ it. it.now) result ≡ after_spaces number line.now }
{
    let mut rest = line;
    let mut remaining = number;
    'bytes: while remaining > 0 {
        let (byte, following) = rest.split_first()?;
        if *byte == b' ' {
            remaining -= 1;
        }
        rest = following;
    }
    Some(rest)
}

/// Returns the bytes before the first space, or all without one.
#[tactic(auto, using(crate::proofs::FieldPositions::first_token_of_split, crate::proofs::FieldPositions::first_token_of_spaceless))]
fn first_token_of<'a>(line: &'a [u8]) -> &'a [u8]
    ensures { result.now ≡ first_token line.now }
{
    match split_at_byte(line, b' ') {
        Some((keyword, _)) => keyword,
        None => line,
    }
}

/// Returns a copy of the bytes, or `None` if they are empty.
fn copy_unless_empty(alloc: Global, content: &[u8]) -> Result<Option<BString>, OutOfMemory>
    ensures content { IfOk result (λ it. option_map bstring_bytes it ≡ unless_empty content.now) }
    ensures allocates { OnErr result (content.now ≢ []) }
{
    if content.is_empty() {
        return Ok(None);
    }
    Ok(Some(BString::from_slice(alloc, content)?))
}

/// Returns the bytes after this prefix, or the bytes found before.
#[inline(always)]
fn after_here<'a>(bytes: &'a [u8], content: &[u8], before: Option<&'a [u8]>) -> Option<&'a [u8]>
    ensures { option_map (λ it. it.now) result
        ≡ either (after_prefix content.now bytes.now) (option_map (λ it. it.now) before.entry) }
{
    match bytes.strip_prefix(content) {
        Some(rest) => Some(rest),
        None => before,
    }
}

/// Returns the bytes after `VALIDSIG `, or those found before. The first byte excludes most other lines.
#[inline(always)]
#[tactic(auto, using(crate::proofs::FirstBytes::no_validsig_of_other_byte, crate::proofs::FirstBytes::no_validsig_of_nil))]
fn valid_here<'a>(said: &'a [u8], before: Option<&'a [u8]>) -> Option<&'a [u8]>
    ensures { option_map (λ it. it.now) result
        ≡ either (after_prefix (codes "VALIDSIG ") said.now) (option_map (λ it. it.now) before.entry) }
{
    let Some((first, _)) = said.split_first() else {
        return before;
    };
    if *first == b'V' {
        return after_here(said, b"VALIDSIG ", before);
    }
    before
}
