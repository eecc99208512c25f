//! Errors of lookups in an object store.
ghost use Rattle.std.specs.Prelude.{◌≡◌};
ghost use Rattle.gixobj_store.specs.declared.find.Error.TheVariants as find;

use bstr::BString;
use gixobj_hash::OutOfMemory;
use std::alloc::{AllocError, AllocFailed};

/// The error of a lookup in an object store.
#[derive(Debug, Drop, thiserror::Error)]
pub enum Error {
    /// The store failed; the payload is the message of the store.
    #[error("{0}")]
    Store(BString),
    /// An allocation failed.
    #[error("out of memory")]
    OutOfMemory,
}

impl From<OutOfMemory> for Error {
    ghost from_gives = { λ _ error. error ≡ find.OutOfMemory };

    fn from(_: OutOfMemory) -> Error {
        Error::OutOfMemory
    }
}

impl From<AllocError> for Error {
    ghost from_gives = { λ _ error. error ≡ find.OutOfMemory };

    fn from(_: AllocError) -> Error {
        Error::OutOfMemory
    }
}

impl<T: Drop> From<AllocFailed<T>> for Error {
    ghost from_gives = { λ _ error. error ≡ find.OutOfMemory };

    fn from(_: AllocFailed<T>) -> Error {
        Error::OutOfMemory
    }
}
