//! Errors of lookups, keeping and writes of stores.
ghost use Rattle.std.specs.Prelude.{◌≡◌};
ghost use Rattle.gix_object.specs.declared.error.Error.TheVariants as tool;

use super::Error;
use gixobj_store_find::find::{self, existing, existing_iter, existing_object};
use gixobj_store_find::write;
use gixobj_store_keep::KeepError;

impl From<find::Error> for Error {
    ghost from_gives = { λ cause error. error ≡ tool.Find cause };

    fn from(cause: find::Error) -> Error {
        Error::Find(cause)
    }
}

impl From<existing::Error> for Error {
    ghost from_gives = { λ cause error. error ≡ tool.Existing cause };

    fn from(cause: existing::Error) -> Error {
        Error::Existing(cause)
    }
}

impl From<existing_iter::Error> for Error {
    ghost from_gives = { λ cause error. error ≡ tool.ExistingIter cause };

    fn from(cause: existing_iter::Error) -> Error {
        Error::ExistingIter(cause)
    }
}

impl From<existing_object::Error> for Error {
    ghost from_gives = { λ cause error. error ≡ tool.ExistingObject cause };

    fn from(cause: existing_object::Error) -> Error {
        Error::ExistingObject(cause)
    }
}

impl From<KeepError> for Error {
    ghost from_gives = { λ cause error. error ≡ tool.Keep cause };

    fn from(cause: KeepError) -> Error {
        Error::Keep(cause)
    }
}

impl From<write::Error> for Error {
    ghost from_gives = { λ cause error. error ≡ tool.Write cause };

    fn from(cause: write::Error) -> Error {
        Error::Write(cause)
    }
}
