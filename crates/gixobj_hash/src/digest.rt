//! Computes the ids of objects.
ghost use Rattle.std.specs.Prelude.{◌≡◌};
ghost use Rattle.gixobj_hash.specs.Encode.{encode_loose_header};
ghost use Rattle.gixobj_hash.specs.Hash.{id_of};
ghost use Rattle.gixobj_hash.specs.Hash.Hasher.{HoldsMessage};

use crate::hash::ObjectId;
pub use crate::hash::hasher::Hasher;
use crate::{Kind, hash};
use itoa::Buffer;

/// Computes the id of an object of this kind with this content.
///
/// The id is the digest of the loose header and the content, by the hash function `hash`. Allocates
/// nothing.
///
/// # Examples
///
/// ```rust
/// fn blob_of(alloc: Global, hash: HashKind, number: u32) -> Result<ObjectId, AllocError> {
///     let bytes = format!(in alloc; "{number}\n")?;
///     Ok(compute_hash(hash, Kind::Blob, bytes.as_bytes()))
/// }
/// ```
pub fn compute_hash(hash: hash::Kind, kind: Kind, content: &[u8]) -> ObjectId
    ensures { result ≡ id_of hash kind content.now }
{
    let mut hasher = object_hasher(hash, kind, content.len() as u64);
    hasher.update(content);
    hasher.finalize()
}

/// Begins the digest of an object of this kind, whose content has `size` bytes.
///
/// Returns a [`Hasher`] that holds the loose header. The caller appends the content to it. Allocates
/// nothing.
pub fn object_hasher(hash: hash::Kind, kind: Kind, size: u64) -> Hasher
    ensures { HoldsMessage hash result (encode_loose_header kind size) }
{
    let mut digits = Buffer::new();
    let mut hasher = Hasher::new(hash);
    hasher.update(kind.as_bytes());
    hasher.update(b" ");
    hasher.update(digits.format(size).as_bytes());
    hasher.update(&[0]);
    hasher
}
