//! The error of lookups of objects that have to exist.
use gixobj_hash::hash::ObjectId;
use gixobj_store::find;

/// The error of [`FindExt::find`](crate::FindExt::find) and [`HeaderExt::header`](crate::HeaderExt::header).
#[derive(Debug, Drop, thiserror::Error)]
pub enum Error {
    /// The lookup failed; the payload is its error.
    #[error("{0}")]
    Find(find::Error),
    /// The store has no object with this id.
    #[error("no object has the id {oid}")]
    NotFound {
        /// The id that was looked up.
        oid: ObjectId,
    },
}

impl From<find::Error> for Error {
    ghost use Rattle.std.specs.Prelude.{◌≡◌};
    ghost use Rattle.gixobj_store_find.specs.declared.find.existing.Error.TheVariants as existing;

    ghost from_gives = { λ cause error. error ≡ existing.Find cause };

    fn from(cause: find::Error) -> Error {
        Error::Find(cause)
    }
}
