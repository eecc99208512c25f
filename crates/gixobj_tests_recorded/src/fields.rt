//! Fields of questions and names of values and errors, in the format of the tables. Escaped bytes have `\n`,
//! `\t` and `\0` for a newline, a tab and a zero byte; `\x` and two hex digits for the backslash and for any
//! other byte that isn't printable.

use crate::answer::Answer;
use gixobj_base::encode::RefNameFault;
use gixobj_base::parse::split_at_byte;
use gixobj_base::{decode, encode, hash};
use std::alloc::Global;

/// Splits at the first such byte. All and nothing if there is none.
pub fn split_at_first(content: &[u8], byte: u8) -> (&[u8], &[u8]) {
    split_at_byte(content, byte).unwrap_or((content, b""))
}

/// Decodes `x` and hex digits. Empty for other input.
pub fn bytes_of(alloc: Global, field: &[u8]) -> Vec<u8> {
    match field {
        [b'x', digits @ ..] => match hex::decode(alloc, digits) {
            Ok(bytes) => bytes,
            Err(_) => Vec::new(alloc),
        },
        _ => Vec::new(alloc),
    }
}

/// Unescapes bytes, and appends them to an answer.
pub fn push_unescaped(field: &[u8], bytes: &mut Answer) {
    let mut parts = field.split(|byte| *byte == b'\\');
    bytes.push(parts.next().unwrap_or(b""));
    for part in parts {
        let (byte, rest) = escaped(part);
        bytes.push(&[byte]);
        bytes.push(rest);
    }
}

/// The byte of an escape after its backslash, and the rest.
fn escaped(part: &[u8]) -> (u8, &[u8]) {
    match part {
        [b'n', rest @ ..] => (b'\n', rest),
        [b't', rest @ ..] => (b'\t', rest),
        [b'0', rest @ ..] => (0, rest),
        [b'x', high, low, rest @ ..] => (of_hex(&[*high, *low]), rest),
        _ => (b'\\', part),
    }
}

/// The byte of two hex digits.
fn of_hex(digits: &[u8]) -> u8 {
    let digits = str::from_utf8(digits).unwrap_or("");
    u8::from_str_radix(digits, 16).unwrap_or(b'\\')
}

/// Decodes a question: bytes, a space, and the kind of ids.
pub fn bytes_and_kind(question: &[u8], answer: &mut Answer) -> (Vec<u8>, hash::Kind) {
    let (bytes, token) = split_at_first(question, b' ');
    (answer.input(bytes), kind_of_ids(token))
}

/// Decodes a question: the kind of ids, a space, and escaped bytes.
pub fn kind_and_bytes(question: &[u8], answer: &mut Answer) -> (hash::Kind, Vec<u8>) {
    let (token, bytes) = split_at_first(question, b' ');
    (kind_of_ids(token), answer.unescape(bytes))
}

/// The kind of ids that a token names.
pub fn kind_of_ids(token: &[u8]) -> hash::Kind {
    match token {
        b"sha256" => hash::Kind::Sha256,
        _ => hash::Kind::Sha1,
    }
}

/// Names whether two answers agree.
pub fn alike(holds: bool) -> &'static str {
    if holds { "alike" } else { "otherwise" }
}

/// `yes` or `no`.
pub fn yes_or_no(holds: bool) -> &'static str {
    if holds { "yes" } else { "no" }
}

/// The name of an outcome of encoding.
pub fn outcome_keyword(outcome: Result<(), encode::Error>) -> &'static str {
    match outcome {
        Ok(()) => "ok",
        Err(encode::Error::IllegalActor) => "err IllegalActor",
        Err(encode::Error::EmptyValue) => "err EmptyValue",
        Err(encode::Error::StartsWithDash) => "err StartsWithDash",
        Err(encode::Error::InvalidRefName(fault)) => name_fault(fault),
        Err(_) => "err another",
    }
}

/// The name of the fault in a tag's name.
pub fn name_fault(fault: RefNameFault) -> &'static str {
    match fault {
        RefNameFault::Empty => "err InvalidRefName Empty",
        RefNameFault::DotStart => "err InvalidRefName DotStart",
        RefNameFault::LockSuffix => "err InvalidRefName LockSuffix",
        RefNameFault::DoubleDot => "err InvalidRefName DoubleDot",
        RefNameFault::AtBrace => "err InvalidRefName AtBrace",
        RefNameFault::Backslash => "err InvalidRefName Backslash",
        RefNameFault::InvalidByte => "err InvalidRefName InvalidByte",
        RefNameFault::BadSlash => "err InvalidRefName BadSlash",
        RefNameFault::DotEnd => "err InvalidRefName DotEnd",
    }
}

/// The name of an error of decoding.
pub fn fault(error: &decode::Error) -> &'static str {
    match error {
        decode::Error::Malformed => "err",
        decode::Error::OutOfMemory => "err OutOfMemory",
    }
}
