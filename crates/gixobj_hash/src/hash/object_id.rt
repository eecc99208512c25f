//! Owned object ids.
ghost use Rattle.std.specs.Prelude.{◌≡◌, ◌↔◌, ◌<◌, ◌≤◌, Some, true, ◌*◌, [], length, IsSome, IfSome, IsTrue, IsOk};
ghost use Rattle.std.specs.Prelude.{IfErr, OnOk, refl};
ghost use Rattle.std.specs.List.{AllPass};
ghost use Rattle.hex.specs.Hex.{decode_of, hex_digit_value, is_hex_digit};
ghost use Rattle.std.specs.Io.KnownBytes.{Appends};
ghost use Rattle.std.proofs.Common.{rules};
ghost use Rattle.gixobj_hash.specs.Hash.{IsIdHex, IsNull, DecodesToId, hash_len, encode_id_hex, id_bytes, id_kind};
ghost use Rattle.gixobj_hash.specs.Hash.{id_of, null_id};
ghost use Rattle.gixobj_hash.specs.Hash.Borrowed.{borrowed_id};
ghost use Rattle.gixobj_hash.specs.Hash.Order.{id_cmp};
ghost use Rattle.gixobj_hash.specs.Hash.OrderLaws.{id_alike, id_cmp_total, id_partial_order, id_ties};
ghost use Rattle.gixobj_hash.specs.declared.kind.Kind.TheVariants.{Blob, Tree};

use super::{Kind, oid, verify};
use crate::parse::are_hex;
use std::cmp::Ordering;
use std::hash::{Hash, Hasher};
use std::io::Write;
use std::{fmt, io};

/// The id of an object: the digest of its loose header and its content.
///
/// [`crate::compute_hash`] computes one, and [`ObjectId::from_hex`] decodes one.
#[derive(Clone, Copy, Debug, PartialEq, Eq)]
pub enum ObjectId {
    /// A SHA-1 digest.
    Sha1([u8; 20]),
    /// A SHA-256 digest.
    Sha256([u8; 32]),
}

/// Initialization
impl ObjectId {
    /// Decodes an id from exactly 40 or 64 hex digits, of either case.
    ///
    /// Returns `None` for any other input. Allocates nothing.
    ///
    /// # Examples
    ///
    /// ```rust
    /// pub fn in_lower_case<'a>(hex: &[u8], buffer: &'a mut [u8; 64]) -> Option<&'a str> {
    ///     let id = ObjectId::from_hex(hex)?;
    ///     Some(id.hex_to_buf(buffer))
    /// }
    /// ```
    pub fn from_hex(hex: &[u8]) -> Option<ObjectId>
        ensures accepts { IsSome result ↔ IsIdHex hex.now }
        ensures value { IfSome result (DecodesToId hex.now) }
    {
        match hex.len() {
            40 => Some(ObjectId::Sha1(bytes_from_hex(hex)?)),
            64 => Some(ObjectId::Sha256(bytes_from_hex(hex)?)),
            _ => None,
        }
    }

    /// Returns the null id, whose bytes are all zero. It names no object. Allocates nothing.
    pub fn null(kind: Kind) -> ObjectId
        ensures value { result ≡ null_id kind }
        ensures is_null { IsNull result }
    {
        match kind {
            Kind::Sha1 => ObjectId::Sha1([0; 20]),
            Kind::Sha256 => ObjectId::Sha256([0; 32]),
        }
    }

    /// Returns the id of the empty tree. Allocates nothing.
    pub fn empty_tree(kind: Kind) -> ObjectId
        ensures { result ≡ id_of kind Tree [] }
    {
        match kind {
            Kind::Sha1 => ObjectId::Sha1(EMPTY_TREE_SHA1),
            Kind::Sha256 => ObjectId::Sha256(EMPTY_TREE_SHA256),
        }
    }

    /// Returns the id of the empty blob. Allocates nothing.
    pub fn empty_blob(kind: Kind) -> ObjectId
        ensures { result ≡ id_of kind Blob [] }
    {
        match kind {
            Kind::Sha1 => ObjectId::Sha1(EMPTY_BLOB_SHA1),
            Kind::Sha256 => ObjectId::Sha256(EMPTY_BLOB_SHA256),
        }
    }
}

/// Access
impl ObjectId {
    /// Returns the hash function of the id. Allocates nothing.
    pub fn kind(&self) -> Kind
        ensures { result ≡ id_kind self.now }
    {
        match self {
            ObjectId::Sha1(_) => Kind::Sha1,
            ObjectId::Sha256(_) => Kind::Sha256,
        }
    }

    /// Returns the bytes of the digest, whose number is [`Kind::len_in_bytes`]. Allocates nothing.
    pub fn as_bytes(&self) -> &[u8]
        ensures value { result.now ≡ id_bytes self.now }
        ensures len { length result.now ≡ hash_len (id_kind self.now) }
        ensures max_len { length result.now ≤ 32 }
    {
        match self {
            ObjectId::Sha1(bytes) => bytes,
            ObjectId::Sha256(bytes) => bytes,
        }
    }

    /// Borrows the id. Allocates nothing.
    pub fn as_oid(&self) -> oid<'_>
        ensures { borrowed_id result ≡ self.now }
    {
        oid::new(self.as_bytes())
    }

    /// Returns whether all bytes are zero. Allocates nothing.
    pub fn is_null(&self) -> bool
        ensures { IsTrue result ↔ IsNull self.now }
    {
        self.as_bytes().iter().all(|byte| *byte == 0)
    }

    /// Returns whether this is the id of the empty tree. Allocates nothing.
    pub fn is_empty_tree(&self) -> bool
        ensures { IsTrue result ↔ (self.now ≡ id_of (id_kind self.now) Tree []) }
    {
        *self == ObjectId::empty_tree(self.kind())
    }

    /// Writes the id as 40 or 64 hex digits in lower case. Only the writer may allocate.
    ///
    /// # Errors
    ///
    /// The error of the writer.
    pub fn write_hex_to<W: Write>(&self, out: &mut W) -> io::Result<()>
        ensures { OnOk result (Appends (W.contents out.old) (W.contents out.new)
            (encode_id_hex self.now)) }
    {
        let mut buffer = [0u8; 64];
        out.write_all(self.hex_bytes(&mut buffer))
    }

    /// Encodes the id as 40 or 64 hex digits in lower case, into a buffer.
    ///
    /// The result borrows the buffer. The contract leaves the contents of the buffer unspecified.
    /// Allocates nothing.
    pub fn hex_to_buf<'a>(&self, buffer: &'a mut [u8; 64]) -> &'a str
        ensures encoded { result.now ≡ encode_id_hex self.now }
        ensures max_len { length result.now ≤ 64 }
    {
        match str::from_utf8(self.hex_bytes(buffer)) {
            Ok(digits) => digits,
            Err(_) => unreachable!(),
        }
    }

    /// Encodes the id as 40 or 64 hex digits in lower case, as bytes.
    fn hex_bytes<'a>(&self, buffer: &'a mut [u8; 64]) -> &'a [u8]
        ensures encoded { result.now ≡ encode_id_hex self.now }
        ensures max_len { length result.now ≤ 64 }
    {
        let bytes = self.as_bytes();
        let input = &mut buffer[..2 * bytes.len()];
        let _ = hex::encode_to_slice(bytes, input);
        input
    }

    /// Compares the id with the expected one. Allocates nothing.
    ///
    /// # Errors
    ///
    /// [`verify::Error`] with both ids, if they differ.
    pub fn verify(&self, expected: oid<'_>) -> Result<(), verify::Error>
        ensures accepts { IsOk result ↔ (self.now ≡ borrowed_id expected.entry) }
        ensures error { IfErr result (λ e. (e.actual ≡ self.now)
            × (e.expected ≡ borrowed_id expected.entry)) }
    {
        let expected = expected.to_owned();
        if *self == expected {
            Ok(())
        } else {
            Err(verify::Error {
                actual: *self,
                expected,
            })
        }
    }
}

/// Compares the bytes lexicographically. Ids of different hash functions are never equal.
impl Ord for ObjectId {
    ghost cmp = { id_cmp };

    ghost total = { id_cmp_total };

    ghost matches_partial_cmp = { λ x y. refl };

    ghost matches_eq = { id_ties _ (Prim.search rules) };

    fn cmp(&self, other: &ObjectId) -> Ordering {
        let bytes = self.as_bytes().cmp(other.as_bytes());
        bytes.then(self.kind().len_in_bytes().cmp(&other.kind().len_in_bytes()))
    }
}

impl PartialOrd for ObjectId {
    ghost use Rattle.std.specs.Ordering.{as_partial_cmp};

    ghost partial_cmp = { as_partial_cmp id_cmp };

    ghost laws = { id_partial_order _ (Prim.search rules) };

    fn partial_cmp(&self, other: &ObjectId) -> Option<Ordering> {
        Some(self.cmp(other))
    }
}

/// Hashes the bytes.
impl Hash for ObjectId {
    ghost use Rattle.std.specs.Prelude.{◌∷◌};

    ghost hash_input = { λ id. id_bytes id ∷ [] };

    ghost respects_eq = { id_alike _ (Prim.search rules) };

    fn hash<H: Hasher>(&self, state: &mut H) {
        state.write(self.as_bytes());
    }
}

/// Formats the id as hex digits in lower case.
impl fmt::Display for ObjectId {
    ghost use Rattle.std.specs.Prelude.{Some};

    ghost output = { λ id. Some (encode_id_hex id) };

    fn fmt<W: fmt::Write>(&self, f: &mut fmt::Formatter<W>) -> fmt::Result {
        let mut buffer = [0u8; 64];
        f.write_str(self.hex_to_buf(&mut buffer))
    }
}

impl Default for ObjectId {
    ghost use Rattle.gixobj_hash.specs.declared.hash.kind.Kind.TheVariants.{Sha1};

    ghost is_default = { λ id. id ≡ null_id Sha1 };

    /// Returns the null id of the default hash function.
    fn default() -> ObjectId {
        ObjectId::null(Kind::default())
    }
}

/// Decodes `2 * N` hex digits of either case, or returns `None`.
fn bytes_from_hex<const N: usize>(hex: &[u8]) -> Option<[u8; N]>
    ensures accepts { IsSome result ↔ ((length hex.now ≡ 2 * N) × AllPass is_hex_digit hex.now) }
    ensures value { IfSome result (λ bytes. decode_of hex.now ≡ Ok bytes) }
{
    if hex.len() % 2 != 0 || hex.len() / 2 != N {
        return None;
    }
    if !are_hex(hex) {
        return None;
    }
    let mut bytes = [0u8; N];
    'bytes: for i in 0..N {
        bytes[i] = 16 * value_of(hex[2 * i]) + value_of(hex[2 * i + 1]);
    }
    Some(bytes)
}

/// Returns the value of a hex digit of either case.
fn value_of(digit: u8) -> u8
    requires { is_hex_digit digit ≡ true }
    ensures value { hex_digit_value digit ≡ Some result }
    ensures bounded { result < 16 }
{
    if digit <= b'9' {
        digit - b'0'
    } else if digit <= b'F' {
        digit - (b'A' - 10)
    } else {
        digit - (b'a' - 10)
    }
}

const EMPTY_TREE_SHA1: [u8; 20] = [
    0x4b, 0x82, 0x5d, 0xc6, 0x42, 0xcb, 0x6e, 0xb9, 0xa0, 0x60, 0xe5, 0x4b, 0xf8, 0xd6, 0x92, 0x88,
    0xfb, 0xee, 0x49, 0x04,
];

const EMPTY_TREE_SHA256: [u8; 32] = [
    0x6e, 0xf1, 0x9b, 0x41, 0x22, 0x5c, 0x53, 0x69, 0xf1, 0xc1, 0x04, 0xd4, 0x5d, 0x8d, 0x85, 0xef,
    0xa9, 0xb0, 0x57, 0xb5, 0x3b, 0x14, 0xb4, 0xb9, 0xb9, 0x39, 0xdd, 0x74, 0xde, 0xcc, 0x53, 0x21,
];

const EMPTY_BLOB_SHA1: [u8; 20] = [
    0xe6, 0x9d, 0xe2, 0x9b, 0xb2, 0xd1, 0xd6, 0x43, 0x4b, 0x8b, 0x29, 0xae, 0x77, 0x5a, 0xd8, 0xc2,
    0xe4, 0x8c, 0x53, 0x91,
];

const EMPTY_BLOB_SHA256: [u8; 32] = [
    0x47, 0x3a, 0x0f, 0x4c, 0x3b, 0xe8, 0xa9, 0x36, 0x81, 0xa2, 0x67, 0xe3, 0xb1, 0xe9, 0xa7, 0xdc,
    0xda, 0x11, 0x85, 0x43, 0x6f, 0xe1, 0x41, 0xf7, 0x74, 0x91, 0x20, 0xa3, 0x03, 0x72, 0x18, 0x13,
];
