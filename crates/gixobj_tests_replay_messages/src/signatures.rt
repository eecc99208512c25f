//! Answers about reports of verifiers, markers of signatures, and what signatures sign.

use bstr::BString;
use gixobj_base::OutOfMemory;
use gixobj_codec::{CommitRefIter, TagRefIter};
use gixobj_parse::signature::{Format, find};
use gixobj_signature::signature::SignedData;
use gixobj_signature::signature::verify::{
    Outcome, TrustLevel, parse_gpg_output, parse_ssh_output,
};
use gixobj_tests_recorded::answer::Answer;
use gixobj_tests_recorded::fields::{fault, kind_of_ids, split_at_first};

/// The human-readable output of each report of OpenPGP and of X.509.
const OUTPUT: &[u8] = b"told";

/// Answers with the outcome of a report of OpenPGP or of X.509.
pub(crate) fn gpg_report_answer(question: &[u8], answer: &mut Answer) {
    let (format, raw) = split_at_first(question, b' ');
    let format = format_of(format);
    let raw = BString::new(answer.input(raw));
    let output = answer.copied(OUTPUT);
    let report = answer.copied(raw.as_bytes());
    match parse_gpg_output(answer.alloc, format, output, report) {
        Ok(outcome) => write_gpg_outcome(&outcome, format, raw.as_bytes(), answer),
        Err(OutOfMemory) => answer.fail(),
    }
}

/// The columns of an outcome of OpenPGP or of X.509.
fn write_gpg_outcome(outcome: &Outcome, format: Format, raw: &[u8], answer: &mut Answer) {
    write_status(outcome, answer);
    let level = outcome.trust_level;
    answer.write("");
    answer.push_shown(format_args!("{level:?}"));
    write_if_some(&outcome.key, answer);
    write_if_some(&outcome.signer, answer);
    write_if_some(&outcome.fingerprint, answer);
    write_if_some(&outcome.primary_key_fingerprint, answer);
    let same_output = outcome.output.as_bytes() == OUTPUT && outcome.raw_output.as_bytes() == raw;
    write_validity(outcome, outcome.format == format && same_output, answer);
}

/// The columns of whether an outcome differs from the report's, and of whether it is valid.
fn write_validity(outcome: &Outcome, is_entire: bool, answer: &mut Answer) {
    let tests = [(!is_entire, "another"), (outcome.is_valid(), "valid")];
    answer.push_holding(b"\t", &tests);
}

/// Answers with the outcome of a report of SSH.
pub(crate) fn ssh_report_answer(question: &[u8], answer: &mut Answer) {
    let (trust, rest) = split_at_first(question, b' ');
    let (signer, output) = split_at_first(rest, b' ');
    let trust = level_of(trust);
    let wanted = bytes_if_some(signer, answer).map(BString::new);
    let signer = bytes_if_some(signer, answer).map(BString::new);
    let output = BString::new(answer.input(output));
    let report = answer.copied(output.as_bytes());
    match parse_ssh_output(answer.alloc, report, signer, trust) {
        Ok(outcome) => {
            let has_both = outcome.trust_level == trust && outcome.signer == wanted;
            write_ssh_outcome(&outcome, has_both, output.as_bytes(), answer);
        }
        Err(OutOfMemory) => answer.fail(),
    }
}

/// The columns of an outcome of SSH, which has the wanted trust level and signer or not.
fn write_ssh_outcome(outcome: &Outcome, has_both: bool, output: &[u8], answer: &mut Answer) {
    write_status(outcome, answer);
    write_if_some(&outcome.key, answer);
    write_validity(outcome, has_both && is_of_ssh(outcome, output), answer);
}

/// Whether an outcome has the format of SSH, this output, and no other key.
fn is_of_ssh(outcome: &Outcome, output: &[u8]) -> bool {
    outcome.format == Format::Ssh
        && outcome.key == outcome.fingerprint
        && outcome.primary_key_fingerprint.is_none()
        && outcome.output.as_bytes() == output
        && outcome.raw_output.as_bytes() == output
}

/// The column of a status.
fn write_status(outcome: &Outcome, answer: &mut Answer) {
    let status = outcome.status;
    answer.push_shown(format_args!("{status:?}"));
}

/// The column of bytes that may be missing.
fn write_if_some(content: &Option<BString>, answer: &mut Answer) {
    answer.write("");
    match content {
        Some(content) => answer.push_bytes(content.as_bytes()),
        None => answer.push(b"-"),
    }
}

/// Answers with the trust level of a name.
pub(crate) fn trust_answer(question: &[u8], answer: &mut Answer) {
    let name = answer.input(question);
    match TrustLevel::from_bytes(name.as_slice()) {
        Some(level) => answer.push_shown(format_args!("{level:?}")),
        None => answer.write("none"),
    }
}

/// The trust level of a name.
pub(crate) fn level_of(token: &[u8]) -> TrustLevel {
    match token {
        b"Never" => TrustLevel::Never,
        b"Marginal" => TrustLevel::Marginal,
        b"Fully" => TrustLevel::Fully,
        b"Ultimate" => TrustLevel::Ultimate,
        _ => TrustLevel::Undefined,
    }
}

/// The format that a token names.
pub(crate) fn format_of(token: &[u8]) -> Format {
    match token {
        b"X509" => Format::X509,
        b"Ssh" => Format::Ssh,
        _ => Format::OpenPgp,
    }
}

/// Answers with the position of the last marker in the input, and its format.
pub(crate) fn marker_answer(question: &[u8], answer: &mut Answer) {
    let content = answer.input(question);
    match find(content.as_slice()) {
        Some((position, format)) => answer.push_shown(format_args!("{position} {format:?}")),
        None => answer.write("none"),
    }
}

/// Answers with the signature and the signed data of an object, that it has none, or the error.
pub(crate) fn signed_data_answer(question: &[u8], answer: &mut Answer) {
    let (token, rest) = split_at_first(question, b' ');
    let (content, kind) = split_at_first(rest, b' ');
    let bytes = answer.input(content);
    match token {
        b"tag" => write_tag(bytes.as_slice(), answer),
        _ => match CommitRefIter::signature(answer.alloc, bytes.as_slice(), kind_of_ids(kind)) {
            Ok(Some((signature, signed))) => {
                answer.write_bytes("ok", signature.as_slice());
                add_signed(signed, answer);
            }
            Ok(None) => answer.write("none"),
            Err(error) => answer.write(fault(&error)),
        },
    }
}

/// The columns of a tag's signature with its format, and of its signed data.
fn write_tag(bytes: &[u8], answer: &mut Answer) {
    match TagRefIter::signature(bytes) {
        Some((signature, signed)) => {
            let format = signature.format;
            answer.write_shown("ok", format_args!("{format:?}"));
            answer.add_bytes(signature.bytes.as_bytes());
            add_signed(signed, answer);
        }
        None => answer.write("none"),
    }
}

/// Adds the signed data.
fn add_signed(signed: SignedData<'_>, answer: &mut Answer) {
    match signed.to_bstring(answer.alloc) {
        Ok(bytes) => answer.add_bytes(bytes.as_bytes()),
        Err(_) => answer.fail(),
    }
}

/// Bytes in the format of the table. `None` for `-`.
pub(crate) fn bytes_if_some(column: &[u8], answer: &mut Answer) -> Option<Vec<u8>> {
    match column {
        b"-" => None,
        bytes => Some(answer.input(bytes)),
    }
}
