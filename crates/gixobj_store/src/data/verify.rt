//! Verification that an object has the expected id (git-fsck, "EXTRACTED DIAGNOSTICS").
ghost use Rattle.std.specs.Prelude.{◌≡◌, ◌↔◌, IfErr, IfOk, IsOk};
ghost use Rattle.gixobj_hash.specs.Hash.{id_kind};
ghost use Rattle.gixobj_hash.specs.Hash.Borrowed.{borrowed_id};
ghost use Rattle.gixobj_store.specs.Checksums.{HasBothIds, checksum};

use super::Data;
use gixobj_hash::hash::{ObjectId, oid};
use gixobj_hash::{compute_hash, hash};

/// The error of [`Data::verify_checksum`].
#[derive(Debug, Drop, thiserror::Error)]
pub enum Error {
    /// The object has another id than the expected one. The payload has both ids.
    #[error("{0}")]
    Verify(hash::verify::Error),
}

impl From<hash::verify::Error> for Error {
    ghost use Rattle.gixobj_store.specs.declared.«data».verify.Error.TheVariants.{Verify};

    ghost from_gives = { λ error it. it ≡ Verify error };

    fn from(error: hash::verify::Error) -> Error {
        Error::Verify(error)
    }
}

impl Data<'_> {
    /// Computes the id of the object, and returns it if it is the expected one. Allocates nothing.
    ///
    /// The id is the digest of the loose header and the content, by the hash function of `expected`
    /// ([`compute_hash`]).
    ///
    /// # Errors
    ///
    /// [`Error::Verify`], with the actual and the expected id, if they differ.
    pub fn verify_checksum(&self, expected: oid<'_>) -> Result<ObjectId, Error>
        ensures accepts { IsOk result ↔ (checksum (id_kind (borrowed_id expected.entry)) self.now
            ≡ borrowed_id expected.entry) }
        ensures verified { IfOk result (λ id. id ≡ borrowed_id expected.entry) }
        ensures error { IfErr result (HasBothIds
            (checksum (id_kind (borrowed_id expected.entry)) self.now)
            (borrowed_id expected.entry)) }
    {
        let actual = compute_hash(expected.kind(), self.kind, self.bytes);
        actual.verify(expected)?;
        Ok(actual)
    }
}
