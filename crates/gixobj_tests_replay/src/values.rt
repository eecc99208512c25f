//! Answers about modes, the order of names, ids, kinds, loose headers, header fields and times.

use bstr::ByteSlice;
use gixobj_base::date::{Time, TimeBuf, parse_header};
use gixobj_base::decode::{LooseHeaderDecodeError, loose_header};
use gixobj_base::hash::{ObjectId, oid};
use gixobj_base::kind::{Error, Kind};
use gixobj_base::parse::{any_header_field, header_field, hex_hash, signature};
use gixobj_base::tree::{EntryKind, EntryMode, name_order};
use gixobj_base::{compute_hash, encode};
use gixobj_tests_recorded::answer::Answer;
use gixobj_tests_recorded::fields::{fault, kind_of_ids, split_at_first};

/// Answers with the mode that `EntryMode::from_bytes` decodes.
pub(crate) fn mode_answer(question: &[u8], answer: &mut Answer) {
    let bytes = answer.input(question);
    match EntryMode::from_bytes(bytes.as_slice()) {
        Some(mode) => write_mode(mode, answer),
        None => answer.write("none"),
    }
}

/// Answers with the mode that `EntryMode::try_from` returns for an octal number.
pub(crate) fn number_answer(question: &[u8], answer: &mut Answer) {
    match EntryMode::try_from(octal(question)) {
        Ok(mode) => write_mode(mode, answer),
        Err(number) => answer.write_shown("err", number),
    }
}

/// Parses octal digits. 0 if they are invalid.
fn octal(digits: &[u8]) -> u32 {
    let digits = str::from_utf8(digits).unwrap_or("");
    u32::from_str_radix(digits, 8).unwrap_or(0)
}

/// The column of a mode: octal digits, value, name and the predicates that hold.
fn write_mode(mode: EntryMode, answer: &mut Answer) {
    answer.write("ok");
    add_mode(mode, answer);
    let tests = [
        (mode.is_tree(), "is-tree"),
        (mode.is_link(), "is-link"),
        (mode.is_blob(), "is-blob"),
        (mode.is_commit(), "is-commit"),
        (mode.is_executable(), "is-executable"),
        (mode.is_blob_or_symlink(), "is-blob-or-symlink"),
        (mode.is_no_tree(), "is-no-tree"),
    ];
    answer.push_holding(b" ", &tests);
}

/// Adds the octal digits, the value and the name of a mode.
pub(crate) fn add_mode(mode: EntryMode, answer: &mut Answer) {
    let mut buffer = [0; 6];
    answer.push(b" ");
    answer.push(mode.as_bytes(&mut buffer).as_bytes());
    let value = mode.value();
    answer.add_shown(format_args!("{value:06o}"));
    answer.add(mode.as_str());
}

/// Answers with a mode. The question is `text` and bytes, `number` and octal digits, or `kind` and a kind.
pub(crate) fn entry_mode_answer(question: &[u8], answer: &mut Answer) {
    let (form, what) = split_at_first(question, b' ');
    match form {
        b"text" => write_bytes(what, answer),
        b"number" => match EntryMode::try_from(octal(what)) {
            Ok(mode) => write_mode_of(mode, answer),
            Err(number) => answer.write_shown("err", format_args!("{number:o}")),
        },
        _ => write_entry_kind(what, answer),
    }
}

/// The columns of the mode that each call decodes from bytes, and of the rest.
fn write_bytes(bytes: &[u8], answer: &mut Answer) {
    let bytes = answer.unescape(bytes);
    let bytes = bytes.as_slice();
    match EntryMode::extract_from_bytes(bytes) {
        Some((mode, rest)) if reads_as(bytes, Some(mode)) => {
            write_mode_of(mode, answer);
            answer.write_bytes("rest", rest);
        }
        None if reads_as(bytes, None) => answer.write("none"),
        _ => answer.write("the calls differ"),
    }
}

/// Whether both calls decode this mode; for no mode, whether `try_from` returns the bytes.
fn reads_as(bytes: &[u8], mode: Option<EntryMode>) -> bool {
    EntryMode::from_bytes(bytes) == mode && EntryMode::try_from(bytes) == mode.ok_or(bytes)
}

/// The columns of the mode of a kind, and the kind's own octal digits.
fn write_entry_kind(token: &[u8], answer: &mut Answer) {
    let kind = match token {
        b"tree" => EntryKind::Tree,
        b"blob" => EntryKind::Blob,
        b"exe" => EntryKind::BlobExecutable,
        b"link" => EntryKind::Link,
        b"commit" => EntryKind::Commit,
        _ => return answer.write("no kind"),
    };
    write_mode_of(EntryMode::from(kind), answer);
    answer.write("digits ");
    answer.push(kind.as_octal_str().as_bytes());
}

/// The columns of a mode, of its kind, and whether it is the mode of that kind.
fn write_mode_of(mode: EntryMode, answer: &mut Answer) {
    let kind = mode.kind();
    write_mode(mode, answer);
    answer.write_shown("kind", format_args!("{kind:?}"));
    let tests = [
        (EntryKind::from(mode) == kind, "same-kind"),
        (EntryMode::from(kind) == mode, "own-mode"),
    ];
    answer.push_holding(b"\t", &tests);
}

/// Answers with the order that `name_order` returns for two names and their kinds.
pub(crate) fn order_answer(question: &[u8], answer: &mut Answer) {
    let (left, rest) = split_at_first(question, b'\t');
    let (left_kind, rest) = split_at_first(rest, b'\t');
    let (right, right_kind) = split_at_first(rest, b'\t');
    let left = answer.input(left);
    let right = answer.input(right);
    let order = name_order(
        left.as_slice(),
        left_kind == b"tree".as_slice(),
        right.as_slice(),
        right_kind == b"tree".as_slice(),
    );
    answer.push_shown(format_args!("{order:?}"));
}

/// Answers with an id. The question is a call and its argument.
pub(crate) fn id_answer(question: &[u8], answer: &mut Answer) {
    let (call, what) = split_at_first(question, b' ');
    let what = answer.unescape(what);
    let what = what.as_slice();
    let id = match call {
        b"verify" => return write_verified(what, answer),
        b"hex" => ObjectId::from_hex(what),
        b"bytes" => id_of_bytes(what),
        b"null" => Some(ObjectId::null(kind_of_ids(what))),
        b"empty-tree" => Some(ObjectId::empty_tree(kind_of_ids(what))),
        b"empty-blob" => Some(ObjectId::empty_blob(kind_of_ids(what))),
        b"default" => Some(ObjectId::default()),
        _ => None,
    };
    match id {
        Some(id) => write_id(id, answer),
        None => answer.write("none"),
    }
}

/// The id of these bytes.
fn id_of_bytes(bytes: &[u8]) -> Option<ObjectId> {
    Some(oid::try_from_bytes(bytes)?.to_owned())
}

/// The columns of an id, of its owned and its borrowed form.
fn write_id(id: ObjectId, answer: &mut Answer) {
    let borrowed = id.as_oid();
    answer.write_shown("ok", id);
    write_written_twice(id, answer);
    let (kind, other) = (id.kind(), borrowed.kind());
    answer.write_shown("kinds", format_args!("{kind:?} {other:?}"));
    answer.write_shown("bytes", id.as_bytes().len());
    answer.add_shown(borrowed.as_bytes().len());
    answer.write_shown("lengths", kind.len_in_bytes());
    answer.add_shown(kind.len_in_hex());
    let tests = [
        (id.is_null(), "is-null"),
        (borrowed.is_null(), "borrowed-is-null"),
        (id.is_empty_tree(), "is-empty-tree"),
        (borrowed.is_empty_tree(), "borrowed-is-empty-tree"),
        (borrowed.to_owned() == id, "owned-again"),
        (oid::new(id.as_bytes()).to_owned() == id, "new-of-bytes"),
    ];
    answer.push_holding(b"\t", &tests);
}

/// The column of the hex digits, written from the owned and the borrowed id.
fn write_written_twice(id: ObjectId, answer: &mut Answer) {
    let mut written = Vec::new(answer.alloc);
    let is_written = id.write_hex_to(&mut written).is_ok();
    if !is_written || id.as_oid().write_hex_to(&mut written).is_err() {
        answer.fail();
    }
    answer.write_bytes("written-twice", written.as_slice());
}

/// The columns of a verification, by the owned and the borrowed id.
fn write_verified(ids: &[u8], answer: &mut Answer) {
    let (actual, expected) = split_at_first(ids, b' ');
    match (ObjectId::from_hex(actual), ObjectId::from_hex(expected)) {
        (Some(actual), Some(expected)) => write_outcome(actual, expected.as_oid(), answer),
        _ => answer.write("no ids"),
    }
}

/// The columns of the outcome of a verification.
fn write_outcome(actual: ObjectId, expected: oid<'_>, answer: &mut Answer) {
    match (actual.verify(expected), actual.as_oid().verify(expected)) {
        (Ok(()), Ok(())) => answer.write("ok"),
        (Err(error), Err(other)) if error == other => {
            answer.write_shown("err", error.actual);
            answer.add_shown(error.expected);
            answer.write_shown("says", &error);
        }
        _ => answer.write("the calls differ"),
    }
}

/// Answers with the id of an object and its kind. The question is the kind of ids, the kind of objects and
/// the content.
pub(crate) fn object_id_answer(question: &[u8], answer: &mut Answer) {
    let (ids, object) = split_at_first(question, b' ');
    let (token, content) = split_at_first(object, b' ');
    let content = answer.unescape(content);
    match Kind::from_bytes(answer.alloc, token) {
        Ok(kind) => {
            let id = compute_hash(kind_of_ids(ids), kind, content.as_slice());
            let kind = id.kind();
            answer.push_shown(format_args!("{id} {kind:?}"));
        }
        Err(_) => answer.write("no kind"),
    }
}

/// Answers with the kind that a name has: its bytes, how it is displayed, and its predicates.
pub(crate) fn kind_answer(question: &[u8], answer: &mut Answer) {
    let token = answer.unescape(question);
    match Kind::from_bytes(answer.alloc, token.as_slice()) {
        Ok(kind) => write_kind(kind, answer),
        Err(Error::InvalidObjectKind { kind }) => answer.write_bytes("err", kind.as_slice()),
        Err(Error::OutOfMemory) => answer.fail(),
    }
}

/// The columns of a kind.
fn write_kind(kind: Kind, answer: &mut Answer) {
    answer.write_bytes("ok", kind.as_bytes());
    answer.write_shown("printed", kind);
    let tests = [
        (kind.is_tree(), "is-tree"),
        (kind.is_blob(), "is-blob"),
        (kind.is_commit(), "is-commit"),
        (kind.is_tag(), "is-tag"),
    ];
    answer.push_holding(b"\t", &tests);
}

/// Answers with the header that `decode::loose_header` decodes.
pub(crate) fn header_answer(question: &[u8], answer: &mut Answer) {
    let bytes = answer.input(question);
    match loose_header(answer.alloc, bytes.as_slice()) {
        Ok((kind, size, used)) => answer.write_shown("ok", format_args!("{kind} {size} {used}")),
        Err(error) => write_error(&error, answer),
    }
}

/// The column of an error, with the cause of an invalid size.
fn write_error(error: &LooseHeaderDecodeError, answer: &mut Answer) {
    match error {
        LooseHeaderDecodeError::InvalidHeader { .. } => answer.write("err InvalidHeader"),
        LooseHeaderDecodeError::ObjectHeader(_) => answer.write("err ObjectHeader"),
        LooseHeaderDecodeError::OutOfMemory => answer.write("err OutOfMemory"),
        LooseHeaderDecodeError::ParseIntegerError { source, .. } => {
            answer.write_shown("err ParseIntegerError", format_args!("{source:?}"))
        }
    }
}

/// Answers with a header. The question is `write`, a kind and a size; or `part` or `says` and a malformed
/// header. The answer is then the part in the error, or its message.
pub(crate) fn header_bytes_answer(question: &[u8], answer: &mut Answer) {
    let (call, what) = split_at_first(question, b' ');
    let what = answer.unescape(what);
    if call == b"write".as_slice() {
        return write_written(what.as_slice(), answer);
    }
    match loose_header(answer.alloc, what.as_slice()) {
        Ok(_) => answer.write("no refusal"),
        Err(error) if call == b"part".as_slice() => write_part(&error, answer),
        Err(error) => answer.push_shown(&error),
    }
}

/// Appends the part of a header in the error.
fn write_part(error: &LooseHeaderDecodeError, answer: &mut Answer) {
    match error {
        LooseHeaderDecodeError::ParseIntegerError { number, .. } => {
            answer.push_bytes(number.as_slice())
        }
        LooseHeaderDecodeError::ObjectHeader(Error::InvalidObjectKind { kind }) => {
            answer.push_bytes(kind.as_slice())
        }
        _ => answer.write("none"),
    }
}

/// Adds the header of a kind and a size: bytes, length, whether it allocated, and its decoded form.
fn write_written(what: &[u8], answer: &mut Answer) {
    let (token, digits) = split_at_first(what, b' ');
    let size = u64::from_str_radix(str::from_utf8(digits).unwrap_or(""), 10).unwrap_or(0);
    let Ok(kind) = Kind::from_bytes(answer.alloc, token) else {
        return answer.write("no kind");
    };
    let header = encode::loose_header(answer.alloc, kind, size);
    answer.push_bytes(header.as_slice());
    answer.add_shown(header.len());
    answer.add_shown(header.spilled());
    match loose_header(answer.alloc, header.as_slice()) {
        Ok((kind, size, used)) => answer.add_shown(format_args!("read {kind} {size} {used}")),
        Err(error) => answer.add_shown(&error),
    }
}

/// Answers with the field of a line. The question is a call and its input.
pub(crate) fn header_field_answer(question: &[u8], answer: &mut Answer) {
    let (call, what) = split_at_first(question, b' ');
    let what = answer.unescape(what);
    let input = what.as_slice();
    match call {
        b"any" => write_any_field(input, answer),
        b"encoding" => write_parts(header_field(input, b"encoding"), answer),
        b"actor" => write_parts(name_and_time(input), answer),
        _ => match hex_hash(input, kind_of_ids(call)) {
            Some(hex) => answer.push_bytes(hex.as_bytes()),
            None => answer.write("none"),
        },
    }
}

/// Appends the first header of the input and the rest.
fn write_any_field(input: &[u8], answer: &mut Answer) {
    match any_header_field(answer.alloc, input) {
        Ok(((name, value), rest)) => {
            answer.push_bytes(name.as_bytes());
            answer.add_bytes(value.as_slice());
            answer.add_bytes(rest);
        }
        Err(error) => answer.write(fault(&error)),
    }
}

/// Appends two parts of the input, or `none`.
fn write_parts(parts: Option<(&[u8], &[u8])>, answer: &mut Answer) {
    match parts {
        Some((first, second)) => {
            answer.push_bytes(first);
            answer.add_bytes(second);
        }
        None => answer.write("none"),
    }
}

/// The name and the time of an actor line without a rest.
fn name_and_time(line: &[u8]) -> Option<(&[u8], &[u8])> {
    let actor = signature(line)?;
    Some((actor.name.as_bytes(), actor.time.as_bytes()))
}

/// Answers with a time. The question is `text` and bytes: the answer is then seconds and offset. Or it is
/// `time`, seconds and offset: the answer is then the encoding, as returned and as kept in the buffer. For an
/// invalid time the answer is `-`.
pub(crate) fn time_answer(question: &[u8], answer: &mut Answer) {
    let (form, what) = split_at_first(question, b' ');
    if form == b"text".as_slice() {
        let bytes = answer.unescape(what);
        match parse_header(bytes.as_slice()) {
            Some(time) => {
                let (seconds, offset) = (time.seconds, time.offset);
                answer.push_shown(format_args!("{seconds} {offset}"));
            }
            None => answer.write("-"),
        }
        return;
    }
    let Some(time) = time_of(what) else {
        return answer.write("-");
    };
    let mut buffer = TimeBuf::new();
    answer.push_bytes(time.to_str(&mut buffer).as_bytes());
    answer.add_bytes(buffer.as_str().as_bytes());
}

/// The time of these seconds and this offset.
fn time_of(what: &[u8]) -> Option<Time> {
    let (seconds, offset) = split_at_first(what, b' ');
    let seconds = i64::from_str_radix(str::from_utf8(seconds).ok()?, 10).ok()?;
    let offset = i32::from_str_radix(str::from_utf8(offset).ok()?, 10).ok()?;
    Time::new(seconds, offset)
}
