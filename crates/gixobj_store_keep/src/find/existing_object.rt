//! The error of lookups that decode an object.
use gixobj_hash::hash::ObjectId;
use gixobj_hash::{Kind, decode};
use gixobj_store::find;

/// The error of the lookups of `FindExt` that return a decoded object.
#[derive(Debug, Drop, thiserror::Error)]
pub enum Error {
    /// The lookup failed; the payload is its error.
    #[error("{0}")]
    Find(find::Error),
    /// The bytes of the object do not decode as its kind, or an allocation failed while they were decoded.
    #[error("the object {oid}: {source}")]
    Decode {
        /// The id that was looked up.
        oid: ObjectId,
        /// The error of decoding.
        source: decode::Error,
    },
    /// The store has no object with this id.
    #[error("no object has the id {oid}")]
    NotFound {
        /// The id that was looked up.
        oid: ObjectId,
    },
    /// The object is of another kind.
    #[error("expected the object {oid} to be a {expected}, but it is a {actual}")]
    ObjectKind {
        /// The id that was looked up.
        oid: ObjectId,
        /// The kind of the object.
        actual: Kind,
        /// The expected kind.
        expected: Kind,
    },
}

impl From<find::Error> for Error {
    ghost use Rattle.std.specs.Prelude.{◌≡◌};
    ghost use Rattle.gixobj_store_keep.specs.declared.find.existing_object.Error.TheVariants as existing;

    ghost from_gives = { λ cause error. error ≡ existing.Find cause };

    fn from(cause: find::Error) -> Error {
        Error::Find(cause)
    }
}
