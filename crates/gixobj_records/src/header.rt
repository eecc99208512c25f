//! The header of a record: the id, the kind and the size of an object, or the id of a missing one.
ghost use Rattle.std.specs.Prelude.{◌≡◌, ◌≢◌, ◌↔◌, ◌∷◌, ◌<◌, ◌^◌, ◌++◌, ℕ, List, IfErr, IfNone, IfOk, IfSome, IsTrue};
ghost use Rattle.std.specs.Prelude.{decimal};
ghost use Rattle.hex.specs.Hex.{IsBytes};
ghost use Rattle.gixobj_hash.specs.Bytes.{space};
ghost use Rattle.gixobj_hash.specs.Hash.{IsId, encode_id_hex};
ghost use Rattle.gixobj_hash.specs.Kind.{kind_name};
ghost use Rattle.gixobj_hash.specs.declared.hash.object_id.ObjectId.{ObjectId};
ghost use Rattle.gixobj_hash.specs.declared.kind.Kind.{Kind};
ghost use Rattle.gixobj_records.specs.Headers.{HasHeaderFault, HasNoId, IsHeader, id_field};

use gixobj_hash::Kind;
use gixobj_hash::hash::ObjectId;
use gixobj_hash::split::{are_digits, number_from_digits, split_at_byte};
use itoa::Buffer;

/// The header of a record. [`decode_header`] decodes one.
#[derive(Clone, Copy, Debug, PartialEq, Eq)]
pub enum Header {
    /// An object follows.
    Object {
        /// The id of the object.
        id: ObjectId,
        /// The kind of the object.
        kind: Kind,
        /// The length of its content in bytes.
        size: u64,
    },
    /// The repository has no object with this id.
    Missing {
        /// The id.
        id: ObjectId,
    },
}

/// Why a line is no header.
#[derive(Clone, Copy, Debug, PartialEq, Eq, thiserror::Error)]
pub enum HeaderFault {
    /// The line doesn't begin with an id in lower-case hex and a space.
    #[error("no id")]
    InvalidId,
    /// Neither `missing` nor the name of a kind and a space follow the id.
    #[error("an unknown kind")]
    UnknownKind,
    /// The size isn't a number in decimal without other bytes, or exceeds 64 bits.
    #[error("an invalid size")]
    InvalidSize,
}

/// Decodes the header of a record, a line without its newline. Allocates nothing.
///
/// # Errors
///
/// The first [`HeaderFault`] of the line.
pub fn decode_header(line: &[u8]) -> Result<Header, HeaderFault>
    ensures found { IfOk result (IsHeader line.now) }
    ensures error { IfErr result (HasHeaderFault line.now) }
{
    let Some((id, after)) = split_id(line) else {
        return Err(HeaderFault::InvalidId);
    };
    if after == b"missing".as_slice() {
        return Ok(Header::Missing { id });
    }
    let Some((kind, digits)) = split_kind(after) else {
        return Err(HeaderFault::UnknownKind);
    };
    match decode_size(digits) {
        Some(size) => Ok(Header::Object { id, kind, size }),
        None => Err(HeaderFault::InvalidSize),
    }
}

/// Splits a line at the space after an id in lower-case hex. Returns the id and the rest, or `None` if the line
/// doesn't begin so.
fn split_id(line: &[u8]) -> Option<(ObjectId, &[u8])>
    ensures found { IfSome result (λ it. IsId it.0 × (line.now ≡ id_field it.0 it.1.now)) }
    ensures none { IfNone result (HasNoId line.now) }
{
    let Some((hex, rest)) = split_at_byte(line, b' ') else {
        return None;
    };
    match decode_id(hex) {
        Some(id) => Some((id, rest)),
        None => None,
    }
}

/// Decodes an id from its hex in lower case. Returns `None` for any other bytes.
fn decode_id(hex: &[u8]) -> Option<ObjectId>
    ensures found { IfSome result (λ id. IsId id × (hex.now ≡ encode_id_hex id)) }
    ensures none { IfNone result ((id : ObjectId) → IsId id → hex.now ≢ encode_id_hex id) }
{
    let Some(id) = ObjectId::from_hex(hex) else {
        return None;
    };
    is_an_id(&id);
    let mut buffer = [0u8; 64];
    if are_equal(id.hex_to_buf(&mut buffer).as_bytes(), hex) {
        Some(id)
    } else {
        None
    }
}

/// Splits bytes at the space after the name of a kind. Returns the kind and the rest, or `None` if they don't
/// begin so.
fn split_kind(after: &[u8]) -> Option<(Kind, &[u8])>
    ensures found { IfSome result (λ it. after.now ≡ kind_name it.0 ++ space ∷ it.1.now) }
    ensures none { IfNone result ((kind : Kind) (rest : List ℕ)
        → after.now ≢ kind_name kind ++ space ∷ rest) }
{
    let Some((name, rest)) = split_at_byte(after, b' ') else {
        return None;
    };
    match Kind::from_name(name) {
        Some(kind) => Some((kind, rest)),
        None => None,
    }
}

/// Decodes a size from decimal digits without a sign or further zeros. Returns `None` for any other bytes.
fn decode_size(digits: &[u8]) -> Option<u64>
    ensures found { IfSome result (λ size. digits.now ≡ decimal size) }
    ensures none { IfNone result ((size : ℕ) → size < 2 ^ 64 → digits.now ≢ decimal size) }
{
    if digits.is_empty() {
        return None;
    }
    if !are_digits(digits) {
        return None;
    }
    let Some(size) = number_from_digits(digits) else {
        return None;
    };
    let mut buffer = Buffer::new();
    if are_equal(buffer.format(size).as_bytes(), digits) {
        Some(size)
    } else {
        None
    }
}

/// Returns whether two slices have the same bytes.
fn are_equal(left: &[u8], right: &[u8]) -> bool
    ensures { IsTrue result ↔ (left.now ≡ right.now) }
{
    left == right
}

/// Shows that an id has as many bytes as its kind.
fn is_an_id(id: &ObjectId)
    ensures { IsId id.now }
{
    are_bytes(id.as_bytes());
}

/// Shows that the elements of a slice are bytes.
fn are_bytes(bytes: &[u8])
    ensures { IsBytes bytes.now }
{
    let _length = bytes.len();
}
