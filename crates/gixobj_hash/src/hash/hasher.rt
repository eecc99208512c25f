//! An incremental digest, SHA-1 or SHA-256.
ghost use Rattle.std.specs.Prelude.{◌≡◌, ◌++◌, [], List, ℕ};
ghost use Rattle.gixobj_hash.specs.Hash.{digest_of, id_from};
ghost use Rattle.gixobj_hash.specs.Hash.Hasher.{HoldsMessage};
ghost use Rattle.gixobj_hash.specs.declared.hash.kind.Kind.{Kind};

use super::{Kind, ObjectId};
use sha1::Sha1;
use sha2::{Digest, Sha256};

/// An incremental digest. [`Hasher::new`] begins one, and [`crate::digest::object_hasher`] one of an
/// object.
#[derive(Drop)]
pub enum Hasher {
    /// The state of a SHA-1 digest.
    Sha1(Sha1),
    /// The state of a SHA-256 digest.
    Sha256(Sha256),
}

impl Hasher {
    /// Begins a digest of the empty message. Allocates nothing.
    pub fn new(kind: Kind) -> Hasher
        ensures { HoldsMessage kind result [] }
    {
        match kind {
            Kind::Sha1 => Hasher::Sha1(Sha1::new()),
            Kind::Sha256 => Hasher::Sha256(Sha256::new()),
        }
    }

    /// Appends bytes to the message. Allocates nothing.
    pub fn update(&mut self, bytes: &[u8])
        ensures { (kind : Kind) (message : List ℕ) → HoldsMessage kind self.old message
            → HoldsMessage kind self.new (message ++ bytes.now) }
    {
        match self {
            Hasher::Sha1(hasher) => hasher.update(bytes),
            Hasher::Sha256(hasher) => hasher.update(bytes),
        }
    }

    /// Returns the digest of the message as an id. Allocates nothing.
    pub fn finalize(self) -> ObjectId
        ensures { (kind : Kind) (message : List ℕ) → HoldsMessage kind self message
            → result ≡ id_from kind (digest_of kind message) }
    {
        match self {
            Hasher::Sha1(hasher) => ObjectId::Sha1(hasher.finalize()),
            Hasher::Sha256(hasher) => ObjectId::Sha256(hasher.finalize()),
        }
    }
}
