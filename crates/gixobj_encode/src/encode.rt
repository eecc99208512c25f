//! Encoding of header fields (gitdatamodel, "commits"; gitformat-signature, "Commit signatures").
ghost use Rattle.std.specs.Prelude.{◌≡◌, ◌<◌, ◌≤◌, ◌+◌, ◌^◌, ◌++◌, ◌∷◌, [], length, IfErr, MatchOption, OnOk};
ghost use Rattle.std.specs.Option.{SomeIff};
ghost use Rattle.std.specs.Str.{str_to_ascii_lowercase};
ghost use Rattle.gixobj_hash.specs.Hash.{encode_id_hex};
ghost use Rattle.gixobj_encode.specs.FieldWriting.{IsLastLine, IsFieldError, folded, newlines};
ghost use Rattle.gixobj_hash.specs.FieldFormat.{encode_field};
ghost use Rattle.gixobj_streams.specs.Streams.{AppendsAll, AppendsOrFails};
ghost use Rattle.gixobj_streams.specs.Writing.{AddsSize, IsWritingError, LacksRoom, RejectsNothing};
ghost use Rattle.gixobj_hash.specs.Bytes.{newline, space};

use bstr::BString;
use gixobj_hash::hash::ObjectId;
use gixobj_hash::split::{has_byte, split_at_byte};
pub use gixobj_streams::encode::{Error, RefNameFault};
use gixobj_streams::streams::Sink;
use std::alloc::Global;
use std::io;

/// Appends a single-line field: the name, a space, the value and a newline (gitdatamodel, "commits").
///
/// The name and the value are written without validation. Only the sink may allocate.
///
/// # Errors
///
/// The error of the sink. A proper prefix of the field has then been written.
#[inline(always)]
#[tactic(auto, using(gixobj_streams::proofs::Appends::appends_prefix_before_byte, gixobj_streams::proofs::Appends::appends_or_fails_after_byte))]
pub fn trusted_header_field<S: Sink>(name: &[u8], value: &[u8], sink: &mut S) -> io::Result<()>
    ensures appended { AppendsOrFails result (S.view sink.old) (S.view sink.new)
        (encode_field name.now value.now) }
    ensures same_loan { S.loan sink.new ≡ S.loan sink.old }
{
    write_both(name, b" ", sink)?;
    write_both(value, b"\n", sink)
}

/// Appends the field of an id: its value is the 40 or 64 hex digits in lower case (gitdatamodel,
/// "commits"). Only the sink may allocate.
///
/// # Errors
///
/// The error of the sink. A proper prefix of the field has then been written.
#[inline(always)]
pub fn trusted_header_id<S: Sink>(name: &[u8], id: &ObjectId, sink: &mut S) -> io::Result<()>
    ensures appended { AppendsOrFails result (S.view sink.old) (S.view sink.new)
        (encode_field name.now (encode_id_hex id.now)) }
    ensures same_loan { S.loan sink.new ≡ S.loan sink.old }
{
    let bytes = id.as_bytes();
    let mut buffer = [0; MAX_HEX_LEN];
    let digits = &mut buffer[..2 * bytes.len()];
    let _ = hex::encode_to_slice(bytes, digits);
    trusted_header_field(name, digits, sink)
}

/// Appends the field of an id in hex, with at most 64 digits: its value is the digits in lower case
/// (gitdatamodel, "commits"). Only the sink may allocate.
///
/// # Errors
///
/// The error of the sink. A proper prefix of the field has then been written.
#[inline(always)]
pub fn trusted_header_hex<S: Sink>(name: &[u8], hex: &[u8], sink: &mut S) -> io::Result<()>
    requires { length hex.now ≤ 64 }
    ensures appended { AppendsOrFails result (S.view sink.old) (S.view sink.new)
        (encode_field name.now (str_to_ascii_lowercase hex.now)) }
    ensures same_loan { S.loan sink.new ≡ S.loan sink.old }
{
    match <[u8; 40]>::try_from(hex) {
        Ok(mut digits) => {
            digits.make_ascii_lowercase();
            trusted_header_field(name, &digits, sink)
        }
        Err(_) => write_lower_case(name, hex, sink),
    }
}

/// Appends a field whose value is at most 64 bytes, converted to lower case.
fn write_lower_case<S: Sink>(name: &[u8], content: &[u8], sink: &mut S) -> io::Result<()>
    requires { length content.now ≤ 64 }
    ensures appended { AppendsOrFails result (S.view sink.old) (S.view sink.new)
        (encode_field name.now (str_to_ascii_lowercase content.now)) }
    ensures same_loan { S.loan sink.new ≡ S.loan sink.old }
{
    let mut buffer = [0; MAX_HEX_LEN];
    let lowered = &mut buffer[..content.len()];
    lowered.copy_from_slice(content);
    lowered.make_ascii_lowercase();
    trusted_header_field(name, lowered, sink)
}

/// Appends a single-line field: the name, a space, the value and a newline (gitdatamodel, "commits").
///
/// The name is written without validation. Only the sink and the copy of a rejected value allocate.
///
/// # Errors
///
/// - [`Error::EmptyValue`] if the value is empty.
/// - [`Error::NewlineInHeaderValue`] with a copy of the value, if the value has a newline.
/// - [`Error::OutOfMemory`] if the value has a newline, and the allocation of the copy failed.
/// - [`Error::Writer`] if the sink failed. A proper prefix of the field has then been written.
///
/// At the first three errors nothing was written.
#[tactic(auto, using(gixobj_streams::proofs::Appends::appends_all_nil))]
pub fn header_field<S: Sink>(
    alloc: Global,
    name: &[u8],
    value: &[u8],
    sink: &mut S,
) -> Result<(), Error>
    ensures written { OnOk result (AppendsAll (S.view sink.old) (S.view sink.new)
        (encode_field name.now value.now)) }
    ensures no_error { OnOk result (RejectsNothing (IsFieldError value.now)) }
    ensures error { IfErr result (IsWritingError (IsFieldError value.now) (S.view sink.old)
        (S.view sink.new) (encode_field name.now value.now)) }
    ensures room { IfErr result (LacksRoom (IsFieldError value.now) (S.view sink.old)) }
    ensures same_loan { S.loan sink.new ≡ S.loan sink.old }
{
    if value.is_empty() {
        return Err(Error::EmptyValue);
    }
    if has_byte(value, b'\n') {
        let value = BString::from_slice(alloc, value)?;
        return Err(Error::NewlineInHeaderValue { value });
    }
    trusted_header_field(name, value, sink)?;
    Ok(())
}

/// Appends a header whose value may have several lines: the name, a space and the value. A space precedes
/// each line of the value but the first (gitformat-signature, "Commit signatures").
///
/// A newline is added if the value does not end in one. Only the sink may allocate.
///
/// # Errors
///
/// The error of the sink. A proper prefix of the header has then been written.
#[tactic(auto, using(gixobj_streams::proofs::Appends::appends_prefix_before_byte, gixobj_streams::proofs::Appends::appends_or_fails_after_byte))]
pub fn header_field_multi_line<S: Sink>(name: &[u8], value: &[u8], sink: &mut S) -> io::Result<()>
    ensures appended { AppendsOrFails result (S.view sink.old) (S.view sink.new)
        (name.now ++ space ∷ folded value.now) }
    ensures same_loan { S.loan sink.new ≡ S.loan sink.old }
{
    write_both(name, b" ", sink)?;
    write_folded(value, sink)
}

/// Appends two byte strings.
#[inline(always)]
fn write_both<S: Sink>(first: &[u8], second: &[u8], sink: &mut S) -> io::Result<()>
    ensures appended { AppendsOrFails result (S.view sink.old) (S.view sink.new) (first.now
        ++ second.now) }
    ensures same_loan { S.loan sink.new ≡ S.loan sink.old }
{
    sink.write_bytes(first)?;
    sink.write_bytes(second)
}

/// Appends the lines of a value.
#[tactic(auto, using(crate::proofs::FieldWrites::appends_prefix_of_folded, gixobj_streams::proofs::Appends::appends_or_fails_append))]
fn write_folded<S: Sink>(value: &[u8], sink: &mut S) -> io::Result<()>
    ensures appended { AppendsOrFails result (S.view sink.old) (S.view sink.new)
        (folded value.now) }
    ensures same_loan { S.loan sink.new ≡ S.loan sink.old }
{
    let mut rest = value;
    while let Some((line, after)) = first_line(rest) {
        write_line(line, sink)?;
        rest = after;
    }
    write_last_line(rest, sink)
}

/// Appends a line, and the space before the next line.
fn write_line<S: Sink>(line: &[u8], sink: &mut S) -> io::Result<()>
    ensures appended { AppendsOrFails result (S.view sink.old) (S.view sink.new)
        (line.now ++ newline ∷ space ∷ []) }
    ensures same_loan { S.loan sink.new ≡ S.loan sink.old }
{
    write_both(line, b"\n ", sink)
}

/// Appends the last line with its newline.
fn write_last_line<S: Sink>(line: &[u8], sink: &mut S) -> io::Result<()>
    requires { IsLastLine line.now }
    ensures appended { AppendsOrFails result (S.view sink.old) (S.view sink.new) (folded line.now) }
    ensures same_loan { S.loan sink.new ≡ S.loan sink.old }
{
    let end = missing_newline(line);
    write_both(line, end, sink)
}

/// Returns a newline if the last line has none.
fn missing_newline(line: &[u8]) -> &[u8]
    requires { IsLastLine line.now }
    ensures { folded line.now ≡ line.now ++ result.now }
{
    let Some(last) = line.last() else {
        return b"\n";
    };
    if *last == b'\n' { b"" } else { b"\n" }
}

/// Splits after the first line, or returns `None` for a last line.
fn first_line(value: &[u8]) -> Option<(&[u8], &[u8])>
    ensures { MatchOption result (IsLastLine value.now)
        (λ it. (folded value.now ≡ it.0.now ++ newline ∷ space ∷ folded it.1.now)
        × (length it.1.now < length value.now)) }
{
    let (line, after) = split_at_byte(value, b'\n')?;
    if after.is_empty() {
        None
    } else {
        Some((line, after))
    }
}

/// Adds the length of the output of [`trusted_header_field`] to a size in bytes.
///
/// Returns `None` if the sum exceeds 64 bits. Allocates nothing.
#[inline(always)]
pub fn size_plus_field(size: u64, name: &[u8], value: &[u8]) -> Option<u64>
    ensures { AddsSize result size (encode_field name.now value.now) }
{
    let with_name = size.checked_add(name.len() as u64)?.checked_add(2)?;
    with_name.checked_add(value.len() as u64)
}

/// Adds the length of the output of [`trusted_header_hex`] to a size in bytes.
///
/// Returns `None` if the sum exceeds 64 bits. Allocates nothing.
pub fn size_with_hex(size: u64, name: &[u8], hex: &[u8]) -> Option<u64>
    ensures { AddsSize result size (encode_field name.now (str_to_ascii_lowercase hex.now)) }
{
    size_plus_field(size, name, hex)
}

/// Adds the length of the output of [`trusted_header_id`] to a size in bytes.
///
/// Returns `None` if the sum exceeds 64 bits. Allocates nothing.
#[tactic(auto, using(crate::proofs::FieldWrites::encode_id_field_len))]
pub fn size_plus_id(size: u64, name: &[u8], id: &ObjectId) -> Option<u64>
    ensures { AddsSize result size (encode_field name.now (encode_id_hex id.now)) }
{
    let with_name = size.checked_add(name.len() as u64)?.checked_add(2)?;
    with_name.checked_add(2 * id.as_bytes().len() as u64)
}

/// Adds the length of the output of [`header_field_multi_line`] to a size in bytes.
///
/// Returns `None` if the sum exceeds 64 bits. Allocates nothing.
pub fn size_with_multi_line(size: u64, name: &[u8], value: &[u8]) -> Option<u64>
    ensures { AddsSize result size (name.now ++ space ∷ folded value.now) }
{
    let with_name = size.checked_add(name.len() as u64)?.checked_add(1)?;
    size_with_folded(with_name, value)
}

/// Adds the length of the encoded lines of a value to a size, or returns `None` if the sum exceeds 64
/// bits.
#[inline(always)]
fn size_with_folded(size: u64, value: &[u8]) -> Option<u64>
    ensures { AddsSize result size (folded value.now) }
{
    let more = len_folded_in(value);
    size.checked_add(value.len() as u64)?.checked_add(more)
}

/// The number of bytes that the encoding adds to a value: a space for each line but the first, and a
/// missing final newline.
#[inline(always)]
fn len_folded_in(value: &[u8]) -> u64
    ensures { length (folded value.now) ≡ length value.now + result }
{
    match value {
        [before @ .., last] => count_newlines(before) + u64::from(*last != b'\n'),
        [] => 1,
    }
}

/// Counts the newlines.
#[inline(always)]
#[tactic(auto, using(crate::proofs::FoldedSizes::newlines_append, crate::proofs::FoldedSizes::newlines_le_len))]
fn count_newlines(content: &[u8]) -> u64
    ensures count { result ≡ newlines content.now }
    ensures bound { result ≤ length content.now }
{
    let mut count = 0;
    let mut rest = content;
    while rest.len() > PART_LEN {
        let (part, following) = rest.split_at(PART_LEN);
        count += u64::from(count_in_part(part));
        rest = following;
    }
    count + u64::from(count_in_part(rest))
}

/// Counts the newlines of at most 128 bytes in a byte, so that many bytes are compared at a time.
#[inline(always)]
#[tactic(auto, using(crate::proofs::FoldedSizes::newlines_take_succ, crate::proofs::FoldedSizes::newlines_le_len))]
fn count_in_part(part: &[u8]) -> u8
    requires { length part.now ≤ 128 }
    ensures { result ≡ newlines part.now }
{
    let mut count = 0u8;
    for byte in part {
        count += u8::from(*byte == b'\n');
    }
    count
}

/// The number of bytes whose newlines are counted in one byte.
const PART_LEN: usize = 128;

/// The maximum number of hex digits of an id.
const MAX_HEX_LEN: usize = 64;
