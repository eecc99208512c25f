//! Decoding of header fields (gitdatamodel, "commits"; gitformat-signature, "Commit signatures").
ghost use Rattle.std.specs.Prelude.{◌≡◌, ◌≢◌, ◌++◌, ◌∷◌, [], ℕ, List, IfErr, IfOk, IfSome, IfNone, MatchBool};
ghost use Rattle.std.specs.Prelude.{MatchOption, length, slice_index};
ghost use Rattle.bstr.specs.BStr.{bstr_bytes};
ghost use Rattle.gixobj_parse.specs.HeaderReading.{BorrowsOneLine, BeginsWithIdField, BeginsWithNoIdField};
ghost use Rattle.gixobj_parse.specs.HeaderReading.{BeginsWithNoKindField, BeginsWithNoContinuations, IsUnfolded};
ghost use Rattle.gixobj_parse.specs.HeaderReading.{IsHeaderFieldError, header_of};
ghost use Rattle.gixobj_hash.specs.HeaderFormat.{EndsHeader, BeginsWithField, BeginsWithHeader, BeginsWithNoField};
ghost use Rattle.gixobj_hash.specs.HeaderFormat.{IsHeaderName, BeginsWithOtherName};
ghost use Rattle.gixobj_hash.specs.ByteStrings.{IsByteFree};
ghost use Rattle.gixobj_hash.specs.declared.decode.Error.TheVariants.{Malformed};
ghost use Rattle.gixobj_hash.specs.Kind.{kind_name};
ghost use Rattle.gixobj_hash.specs.Bytes.{newline, space};

use bstr::BStr;
use gixobj_hash::Kind as ObjectKind;
use gixobj_hash::decode::Error;
use gixobj_hash::hash::Kind;
use gixobj_hash::parse::hex_hash;
use gixobj_hash::split::{has_byte, split_at_byte};
use std::alloc::Global;
use std::borrow::CowSlice;

/// Decodes the header field of this name, and returns its value and the rest of the input.
///
/// Returns `None` unless the input begins with the name, a space and a line that ends in a newline.
/// Allocates nothing.
#[inline(always)]
#[tactic(auto, using(crate::proofs::HeaderFields::has_field_of_parts, crate::proofs::HeaderFields::no_field_without_name))]
pub fn header_field<'a>(input: &'a [u8], name: &[u8]) -> Option<(&'a [u8], &'a [u8])>
    ensures found { IfSome result (λ it. BeginsWithField name.now input.now it.0.now it.1.now) }
    ensures none { IfNone result (BeginsWithNoField name.now input.now) }
{
    let Some(line) = after_name(input, name) else {
        return None;
    };
    let Some((value, rest)) = split_at_byte(line, b'\n') else {
        return None;
    };
    Some((value, rest))
}

/// Decodes the header field of this name whose value is an id in hex, and returns the hex digits and the
/// rest.
///
/// Returns `None` unless the input begins with the field of an id of this kind. Allocates nothing.
#[inline(always)]
pub fn header_id<'a>(input: &'a [u8], name: &[u8], kind: Kind) -> Option<(BStr<'a>, &'a [u8])>
    ensures found { IfSome result (λ it. BeginsWithIdField name.now kind input.now
        (bstr_bytes it.0) it.1.now) }
    ensures none { IfNone result (BeginsWithNoIdField name.now kind input.now) }
{
    let Some(line) = after_name(input, name) else {
        return None;
    };
    let Some((value, rest)) = split_at_newline(line, kind.len_in_hex()) else {
        return None;
    };
    let Some(hex) = hex_hash(value, kind) else {
        return None;
    };
    Some((hex, rest))
}

/// Splits at the newline at this position, or returns `None` if another byte or none is there.
#[inline(always)]
#[tactic(auto, using(crate::proofs::HeaderFields::take_cons_drop))]
fn split_at_newline(bytes: &[u8], index: usize) -> Option<(&[u8], &[u8])>
    ensures split { IfSome result (λ parts. bytes.now ≡ parts.0.now ++ newline ∷ parts.1.now) }
    ensures position { IfSome result (λ parts. length parts.0.now ≡ index) }
    ensures none { IfNone result (slice_index bytes.now index ≢ newline) }
{
    match bytes.get(index) {
        Some(b'\n') => Some((&bytes[..index], &bytes[index + 1..])),
        _ => None,
    }
}

/// Decodes the header field of this name whose value names a kind of objects, and returns the kind and
/// the rest.
///
/// Returns `None` unless the input begins with such a field. Allocates nothing.
pub fn header_kind<'a>(input: &'a [u8], name: &[u8]) -> Option<(ObjectKind, &'a [u8])>
    ensures found { IfSome result (λ it. BeginsWithField name.now input.now
        (kind_name it.0) it.1.now) }
    ensures none { IfNone result (BeginsWithNoKindField name.now input.now) }
{
    let Some((token, rest)) = header_field(input, name) else {
        return None;
    };
    let Some(kind) = ObjectKind::from_name(token) else {
        return None;
    };
    Some((kind, rest))
}

/// Returns the bytes after the name and a space at the beginning of the input, or `None` without them.
/// Allocates nothing.
#[inline(always)]
pub fn after_name<'a>(input: &'a [u8], name: &[u8]) -> Option<&'a [u8]>
    ensures found { IfSome result (λ rest. input.now ≡ name.now ++ space ∷ rest.now) }
    ensures none { IfNone result (BeginsWithOtherName name.now input.now) }
{
    let Some(following) = after_prefix(input, name) else {
        return None;
    };
    let Some(rest) = after_space(following) else {
        return None;
    };
    Some(rest)
}

/// Returns the bytes after a newline at the beginning of the input, or `None` without one. Allocates
/// nothing.
#[inline(always)]
pub fn after_newline(input: &[u8]) -> Option<&[u8]>
    ensures { MatchOption result ((rest : List ℕ) → input.now ≢ newline ∷ rest)
        (λ rest. input.now ≡ newline ∷ rest.now) }
{
    match input {
        [b'\n', rest @ ..] => Some(rest),
        _ => None,
    }
}

/// Decodes the header at the beginning of the input, and returns its name, its value and the rest.
///
/// A value of one line is borrowed, without its newline. A value of several lines is owned, with their
/// newlines and without the space before each line but the first. Only a value of several lines
/// allocates.
///
/// # Errors
///
/// - [`Error::Malformed`] if the input does not begin with a header.
/// - [`Error::OutOfMemory`] if the allocation of a value of several lines failed.
#[tactic(auto, using(crate::proofs::HeaderFields::has_header_of_one_line, crate::proofs::HeaderFields::has_header_of_lines))]
pub fn any_header_field(
    alloc: Global,
    input: &[u8],
) -> Result<((BStr<'_>, CowSlice<'_, u8>), &[u8]), Error>
    ensures found { IfOk result (λ it. BeginsWithHeader input.now (header_of it.0) it.1.now) }
    ensures borrowed { IfOk result (λ it. BorrowsOneLine it.0.1) }
    ensures error { IfErr result (IsHeaderFieldError input.now) }
{
    let Some((name, following)) = split_at_byte(input, b' ') else {
        return Err(Error::Malformed);
    };
    if !is_header_name(name) {
        return Err(Error::Malformed);
    }
    let Some((first, after)) = split_at_byte(following, b'\n') else {
        return Err(Error::Malformed);
    };
    match after_space(after) {
        None => Ok(((BStr::new(name), CowSlice::Borrowed(first)), after)),
        Some(_) => {
            let (value, rest) = unfolded(alloc, first, after)?;
            Ok(((BStr::new(name), CowSlice::Owned(value)), rest))
        }
    }
}

/// Decodes continuation lines, and returns the first line and these with their newlines, and the rest.
#[tactic(auto, using(crate::proofs::HeaderFields::unfolding_first, crate::proofs::HeaderFields::is_unfolded_at_end, crate::proofs::HeaderFields::unfolding_len_lt))]
fn unfolded<'a>(alloc: Global, first: &[u8], input: &'a [u8]) -> Result<(Vec<u8>, &'a [u8]), Error>
    ensures found { IfOk result (λ it. IsUnfolded first.now input.now it.0.items it.1.now) }
    ensures error { IfErr result (λ e. e ≡ Malformed → BeginsWithNoContinuations input.now) }
{
    let mut value = Vec::from_slice(alloc, first)?;
    value.push(b'\n')?;
    let mut rest = input;
    while let Some(following) = after_space(rest) {
        let Some((line, after)) = split_at_byte(following, b'\n') else {
            return Err(Error::Malformed);
        };
        value.extend_from_slice(line)?;
        value.push(b'\n')?;
        rest = after;
    }
    Ok((value, rest))
}

/// Returns the bytes after this prefix.
#[inline(always)]
#[tactic(auto, using(crate::proofs::HeaderFields::strip_prefix_match))]
fn after_prefix<'a>(input: &'a [u8], prefix: &[u8]) -> Option<&'a [u8]>
    ensures { MatchOption result ((rest : List ℕ) → input.now ≢ prefix.now ++ rest)
        (λ rest. input.now ≡ prefix.now ++ rest.now) }
{
    input.strip_prefix(prefix)
}

/// Returns the bytes after one space at the beginning of the input, or `None` without one.
/// Allocates nothing.
#[inline(always)]
pub fn after_space(input: &[u8]) -> Option<&[u8]>
    ensures { MatchOption result (EndsHeader input.now) (λ rest. input.now ≡ space ∷ rest.now) }
{
    match input {
        [b' ', rest @ ..] => Some(rest),
        _ => None,
    }
}

/// Returns whether bytes without a space are a valid name of a header.
fn is_header_name(name: &[u8]) -> bool
    ensures { MatchBool result ((name.now ≢ []) × IsByteFree newline name.now)
        (¬ IsHeaderName name.now) }
{
    !name.is_empty() && !has_byte(name, b'\n')
}
