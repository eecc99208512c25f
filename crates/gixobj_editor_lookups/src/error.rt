//! Errors of edits by an editor or a cursor.
use crate::opening;
use bstr::BString;
use gixobj_store_keep::find::existing_object;
use std::alloc::AllocError;

/// The error of an edit by an `Editor` or a `Cursor`. The editor's files are unchanged after it.
#[derive(Debug, Drop, thiserror::Error)]
pub enum Error {
    /// A name of the path is empty.
    #[error("an empty name in a path")]
    EmptyPathComponent,
    /// A name of the path contains a `/`.
    #[error("a name with `/` in a path")]
    SlashInPathComponent,
    /// The store doesn't have a directory on the path as a tree, or its lookup failed, as the payload says.
    #[error("{0}")]
    FindExistingObject(existing_object::Error),
    /// The path of a leaf to remove is that of a directory.
    #[error("`{rela_path}` is a directory")]
    CannotRemoveNonLeaf {
        /// The path of the directory from the root, with `/` between the names.
        rela_path: BString,
    },
    /// The stored tree of a directory on the path isn't well-formed.
    #[error("a tree in the store isn't well-formed")]
    MalformedTree,
    /// An allocation failed, in a lookup or in the editor.
    #[error("out of memory")]
    OutOfMemory,
}

impl From<AllocError> for Error {
    ghost use Rattle.std.specs.Prelude.{◌≡◌};
    ghost use Rattle.gixobj_editor_lookups.specs.declared.error.Error.TheVariants.{OutOfMemory};

    ghost from_gives = { λ _ error. error ≡ OutOfMemory };

    fn from(_: AllocError) -> Error {
        Error::OutOfMemory
    }
}

impl From<opening::Error> for Error {
    ghost use Rattle.std.specs.Prelude.{◌≡◌};
    ghost use Rattle.gixobj_editor_lookups.specs.FailedOpenings.{edit_error};

    ghost from_gives = { λ cause error. error ≡ edit_error cause };

    fn from(cause: opening::Error) -> Error {
        match cause {
            opening::Error::FindExistingObject(cause) => Error::FindExistingObject(cause),
            opening::Error::MalformedTree => Error::MalformedTree,
            opening::Error::OutOfMemory => Error::OutOfMemory,
        }
    }
}
