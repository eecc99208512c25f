//! The error of a write to an object store.
use bstr::BString;
use gixobj_encode::{encode, stream_hash};
use gixobj_hash::OutOfMemory;
use std::alloc::{AllocError, AllocFailed};

/// The error of a write: of [`Memory::write`](crate::Memory::write), and of the trait `Write`.
#[derive(Debug, Drop, thiserror::Error)]
pub enum Error {
    /// The store failed; the payload is the message of the store.
    #[error("{0}")]
    Store(BString),
    /// The object was not encoded: a value is rejected, or an allocation failed. The payload says which.
    #[error("{0}")]
    Encode(encode::Error),
    /// The stream failed or ended early, as the payload says.
    #[error("{0}")]
    Read(stream_hash::Error),
    /// An allocation of the store failed.
    #[error("out of memory")]
    OutOfMemory,
}

impl From<encode::Error> for Error {
    ghost use Rattle.std.specs.Prelude.{◌≡◌};
    ghost use Rattle.gixobj_store_keep.specs.declared.write.Error.TheVariants as write;

    ghost from_gives = { λ cause error. error ≡ write.Encode cause };

    fn from(cause: encode::Error) -> Error {
        Error::Encode(cause)
    }
}

impl From<stream_hash::Error> for Error {
    ghost use Rattle.std.specs.Prelude.{◌≡◌};
    ghost use Rattle.gixobj_store_keep.specs.declared.write.Error.TheVariants as write;

    ghost from_gives = { λ cause error. error ≡ write.Read cause };

    fn from(cause: stream_hash::Error) -> Error {
        Error::Read(cause)
    }
}

impl From<OutOfMemory> for Error {
    ghost use Rattle.std.specs.Prelude.{◌≡◌};
    ghost use Rattle.gixobj_store_keep.specs.declared.write.Error.TheVariants as write;

    ghost from_gives = { λ _ error. error ≡ write.OutOfMemory };

    fn from(_: OutOfMemory) -> Error {
        Error::OutOfMemory
    }
}

impl From<AllocError> for Error {
    ghost use Rattle.std.specs.Prelude.{◌≡◌};
    ghost use Rattle.gixobj_store_keep.specs.declared.write.Error.TheVariants as write;

    ghost from_gives = { λ _ error. error ≡ write.OutOfMemory };

    fn from(_: AllocError) -> Error {
        Error::OutOfMemory
    }
}

impl<T: Drop> From<AllocFailed<T>> for Error {
    ghost use Rattle.std.specs.Prelude.{◌≡◌};
    ghost use Rattle.gixobj_store_keep.specs.declared.write.Error.TheVariants as write;

    ghost from_gives = { λ _ error. error ≡ write.OutOfMemory };

    fn from(_: AllocFailed<T>) -> Error {
        Error::OutOfMemory
    }
}
