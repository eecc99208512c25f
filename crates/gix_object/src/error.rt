//! The error of tools.
ghost use Rattle.std.specs.Prelude.{◌≡◌};
ghost use Rattle.gix_object.specs.declared.error.Error.TheVariants as tool;

mod decoding;
mod edits;
mod signatures;
mod stores;

use gixobj_editor::editor;
use gixobj_editor_import::ImportError;
use gixobj_encode::{encode, stream_hash};
use gixobj_hash::{OutOfMemory, decode, hash, kind};
use gixobj_object::LooseDecodeError;
use gixobj_signature::signature::{RunError, sign, verify};
use gixobj_store::data;
use gixobj_store_find::find::{self, existing, existing_iter, existing_object};
use gixobj_store_find::write;
use gixobj_store_keep::KeepError;
use gixobj_tag::name as tag_name;
use std::alloc::{AllocError, AllocFailed};
use std::io;

/// An error of a tool: `?` converts each error of the crate to it.
///
/// Each case has the error of the call, and prints that error's message. `OutOfMemory` comes of calls that have
/// no other error. The error of a write of the editor becomes that of its closure.
///
/// # Examples
///
/// ```rust
/// let mut buffer = Vec::new(alloc);
/// let mut tokens = store.find_commit_iter(alloc, commit.as_oid(), &mut buffer)?;
/// let mut editor = editor_of(alloc, store, tokens.tree_id()?)?;
/// editor.try_upsert(&path_names(alloc, path)?, EntryKind::Blob, blob)?;
/// ```
#[derive(Debug, Drop, thiserror::Error)]
pub enum Error {
    /// The name of a kind of object is unknown.
    #[error("{0}")]
    Kind(kind::Error),
    /// A loose header is malformed.
    #[error("{0}")]
    LooseHeader(decode::LooseHeaderDecodeError),
    /// A loose object has no header, or is too short.
    #[error("{0}")]
    LooseContent(decode::LooseContentError),
    /// A loose object isn't decoded.
    #[error("{0}")]
    Loose(LooseDecodeError),
    /// An object is malformed.
    #[error("{0}")]
    Decode(decode::Error),
    /// An id differs from the expected one.
    #[error("{0}")]
    Id(hash::verify::Error),
    /// An object has another id than the expected one.
    #[error("{0}")]
    Checksum(data::verify::Error),
    /// An object isn't encoded.
    #[error("{0}")]
    Encode(encode::Error),
    /// A tag may not have this name.
    #[error("{0}")]
    TagName(tag_name::Error),
    /// The content of an object isn't read.
    #[error("{0}")]
    Stream(stream_hash::Error),
    /// A reader or a writer failed.
    #[error("{0}")]
    Io(io::Error),
    /// A lookup failed.
    #[error("{0}")]
    Find(find::Error),
    /// An object isn't found.
    #[error("{0}")]
    Existing(existing::Error),
    /// An object isn't found as one of its kind.
    #[error("{0}")]
    ExistingIter(existing_iter::Error),
    /// An object isn't found, or isn't decoded as one of its kind.
    #[error("{0}")]
    ExistingObject(existing_object::Error),
    /// A store didn't keep a tree or a commit.
    #[error("{0}")]
    Keep(KeepError),
    /// An object isn't written to a store.
    #[error("{0}")]
    Write(write::Error),
    /// A tree isn't edited.
    #[error("{0}")]
    Edit(editor::Error),
    /// A step of an import failed.
    #[error("{0}")]
    Import(ImportError),
    /// An object isn't signed.
    #[error("{0}")]
    Sign(sign::Error),
    /// A signature isn't verified.
    #[error("{0}")]
    Verify(verify::Error),
    /// A program didn't run to its end.
    #[error("{0}")]
    Run(RunError),
    /// An allocation failed.
    #[error("out of memory")]
    OutOfMemory,
}

impl From<OutOfMemory> for Error {
    ghost from_gives = { λ _ error. error ≡ tool.OutOfMemory };

    fn from(_: OutOfMemory) -> Error {
        Error::OutOfMemory
    }
}

impl From<AllocError> for Error {
    ghost from_gives = { λ _ error. error ≡ tool.OutOfMemory };

    fn from(_: AllocError) -> Error {
        Error::OutOfMemory
    }
}

impl<T: Drop> From<AllocFailed<T>> for Error {
    ghost from_gives = { λ _ error. error ≡ tool.OutOfMemory };

    fn from(_: AllocFailed<T>) -> Error {
        Error::OutOfMemory
    }
}

impl From<io::Error> for Error {
    ghost from_gives = { λ cause error. error ≡ tool.Io cause };

    fn from(cause: io::Error) -> Error {
        Error::Io(cause)
    }
}
