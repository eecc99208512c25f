//! Borrowed object ids.
ghost use Rattle.std.specs.Prelude.{◌≡◌, ◌↔◌, ◌≤◌, ◌⊎◌, [], length, IsSome, IfSome, IsTrue, IsOk, IfErr, OnOk};
ghost use Rattle.std.specs.Io.KnownBytes.{Appends};
ghost use Rattle.gixobj_hash.specs.Hash.{IsNull, hash_len, encode_id_hex, id_bytes, id_kind, id_of, is_id_length};
ghost use Rattle.gixobj_hash.specs.declared.kind.Kind.TheVariants.{Tree};

use super::{Kind, ObjectId, verify};
use std::hash::{Hash, Hasher};
use std::io;
use std::io::Write;

/// A borrowed object id: a slice of the 20 or 32 bytes of a digest.
///
/// [`oid::try_from_bytes`] makes one from bytes, [`ObjectId::as_oid`] from an owned id.
#[derive(Clone, Copy, Debug, PartialEq, Eq, PartialOrd, Ord)]
pub struct oid<'a> {
    bytes: &'a [u8],
    ghost length_of_an_id: { IsTrue (is_id_length (length bytes.now)) },
}

impl<'a> oid<'a> {
    ghost use Rattle.gixobj_hash.specs.Hash.Borrowed.{borrowed_id};

    /// Makes an id of 20 or 32 bytes, which the contract requires. Allocates nothing.
    pub fn new(bytes: &'a [u8]) -> oid<'a>
        requires { IsTrue (is_id_length (length bytes.now)) }
        ensures { id_bytes (borrowed_id result) ≡ bytes.now }
    {
        oid { bytes }
    }

    /// Makes an id of 20 or 32 bytes, or returns `None` for any other number of bytes. Allocates nothing.
    pub fn try_from_bytes(bytes: &'a [u8]) -> Option<oid<'a>>
        ensures accepts { IsSome result ↔ IsTrue (is_id_length (length bytes.now)) }
        ensures value { IfSome result (λ id. id_bytes (borrowed_id id) ≡ bytes.now) }
    {
        if bytes.len() == 20 || bytes.len() == 32 {
            Some(oid { bytes })
        } else {
            None
        }
    }

    /// Returns the hash function of the id. Allocates nothing.
    pub fn kind(self) -> Kind
        ensures { result ≡ id_kind (borrowed_id self.entry) }
    {
        self.to_owned().kind()
    }

    /// Returns the bytes of the digest, whose number is [`Kind::len_in_bytes`]. Allocates nothing.
    pub fn as_bytes(self) -> &'a [u8]
        ensures value { result.now ≡ id_bytes (borrowed_id self.entry) }
        ensures len { length result.now ≡ hash_len (id_kind (borrowed_id self.entry)) }
    {
        self.bytes
    }

    /// Copies the id into an owned one. Allocates nothing.
    pub fn to_owned(self) -> ObjectId
        ensures { result ≡ borrowed_id self.entry }
    {
        match <[u8; 20]>::try_from(self.bytes) {
            Ok(bytes) => ObjectId::Sha1(bytes),
            Err(_) => {
                let mut bytes = [0; 32];
                bytes.copy_from_slice(self.bytes);
                ObjectId::Sha256(bytes)
            }
        }
    }

    /// Returns whether all bytes are zero. Allocates nothing.
    pub fn is_null(self) -> bool
        ensures { IsTrue result ↔ IsNull (borrowed_id self.entry) }
    {
        self.to_owned().is_null()
    }

    /// Returns whether this is the id of the empty tree. Allocates nothing.
    pub fn is_empty_tree(self) -> bool
        ensures { IsTrue result ↔ (borrowed_id self.entry
            ≡ id_of (id_kind (borrowed_id self.entry)) Tree []) }
    {
        self.to_owned().is_empty_tree()
    }

    /// Writes the id as 40 or 64 hex digits in lower case. Only the writer may allocate.
    ///
    /// # Errors
    ///
    /// The error of the writer.
    pub fn write_hex_to<W: Write>(self, out: &mut W) -> io::Result<()>
        ensures { OnOk result (Appends (W.contents out.old) (W.contents out.new)
            (encode_id_hex (borrowed_id self.entry))) }
    {
        self.to_owned().write_hex_to(out)
    }

    /// Compares the id with the expected one. Allocates nothing.
    ///
    /// # Errors
    ///
    /// [`verify::Error`] with both ids, if they differ.
    pub fn verify(self, expected: oid<'_>) -> Result<(), verify::Error>
        ensures accepts { IsOk result ↔ (borrowed_id self.entry ≡ borrowed_id expected.entry) }
        ensures error { IfErr result (λ e. (e.actual ≡ borrowed_id self.entry)
            × (e.expected ≡ borrowed_id expected.entry)) }
    {
        self.to_owned().verify(expected)
    }
}

/// Hashes the bytes, so that a borrowed id hashes like its owned form.
impl Hash for oid<'_> {
    ghost use Rattle.std.specs.Prelude.{◌∷◌};
    ghost use Rattle.gixobj_hash.specs.Hash.Borrowed.{borrowed_id};
    ghost use Rattle.std.proofs.Common.{rules};
    ghost use Rattle.std.specs.Cmp.Rules.{hashing};

    ghost hash_input = { λ it. id_bytes (borrowed_id it) ∷ [] };

    ghost respects_eq = { Prim.search (hashing, rules) };

    fn hash<H: Hasher>(&self, state: &mut H) {
        state.write(self.bytes);
    }
}
