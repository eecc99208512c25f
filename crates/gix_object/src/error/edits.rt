//! Errors of edits, writes and imports.
ghost use Rattle.std.specs.Prelude.{◌≡◌};
ghost use Rattle.gix_object.specs.declared.error.Error.TheVariants as tool;
ghost use Rattle.gix_object.specs.ToolErrors.{error_of_write};

use super::Error;
use gixobj_editor::editor::{self, WriteError};
use gixobj_editor_import::{ImportError, Stopped};
use gixobj_encode::encode;
use gixobj_store_find::write;

impl From<editor::Error> for Error {
    ghost from_gives = { λ cause error. error ≡ tool.Edit cause };

    fn from(cause: editor::Error) -> Error {
        Error::Edit(cause)
    }
}

/// The error of the closure, or out of memory.
impl From<WriteError<encode::Error>> for Error {
    ghost from_gives = { λ cause error. error ≡ error_of_write tool.Encode cause };

    fn from(cause: WriteError<encode::Error>) -> Error {
        match cause {
            WriteError::Out(cause) => Error::Encode(cause),
            WriteError::OutOfMemory => Error::OutOfMemory,
        }
    }
}

/// The error of the closure, or out of memory.
impl From<WriteError<write::Error>> for Error {
    ghost from_gives = { λ cause error. error ≡ error_of_write tool.Write cause };

    fn from(cause: WriteError<write::Error>) -> Error {
        match cause {
            WriteError::Out(cause) => Error::Write(cause),
            WriteError::OutOfMemory => Error::OutOfMemory,
        }
    }
}

/// The error of the closure, or out of memory.
impl From<WriteError<Error>> for Error {
    ghost from_gives = { λ cause error. error ≡ error_of_write (λ error. error) cause };

    fn from(cause: WriteError<Error>) -> Error {
        match cause {
            WriteError::Out(cause) => cause,
            WriteError::OutOfMemory => Error::OutOfMemory,
        }
    }
}

impl From<ImportError> for Error {
    ghost from_gives = { λ cause error. error ≡ tool.Import cause };

    fn from(cause: ImportError) -> Error {
        Error::Import(cause)
    }
}

/// The error that stopped the import. What was imported before is dropped.
impl From<Stopped> for Error {
    ghost from_gives = { λ stopped error. error ≡ tool.Import stopped.error };

    fn from(stopped: Stopped) -> Error {
        Error::Import(stopped.error)
    }
}
