//! Decoding of objects by their kind, or as loose objects (gitformat-loose, "Loose object format").
ghost use Rattle.std.specs.Prelude.{◌≡◌, IfErr, IfOk};
ghost use Rattle.gixobj_hash.specs.declared.decode.LooseContentError.TheVariants.{Short};
ghost use Rattle.gixobj_object.specs.BorrowedObjects.{BorrowsHeaderLines, HasObjectIds, IsReadyToWrite};
ghost use Rattle.gixobj_object.specs.LooseObjects.{ConvertsContentError, IsLooseObject, IsLooseObjectError};
ghost use Rattle.gixobj_object.specs.ObjectReading.{DecodesToObject, IsObjectDecodeError};
ghost use Rattle.gixobj_object.specs.declared.object.borrowed.decode.LooseDecodeError.TheVariants as loose_error;

use super::ObjectRef;
use gixobj_commit::CommitRef;
use gixobj_hash::decode::{Error, LooseContentError, LooseHeaderDecodeError, loose_content};
use gixobj_hash::{Kind, hash};
use gixobj_tag::TagRef;
use gixobj_tree::{BlobRef, TreeRef};
use std::alloc::Global;

/// The error of [`ObjectRef::from_loose`].
#[derive(Debug, Drop, thiserror::Error)]
pub enum LooseDecodeError {
    /// The input begins with no loose header, or fewer bytes follow the header than it states.
    #[error("{0}")]
    InvalidHeader(LooseHeaderDecodeError),
    /// The content is malformed for the kind in the header, or an allocation failed.
    #[error("{0}")]
    InvalidContent(Error),
    /// Fewer bytes follow the header than it states, and no `usize` holds its size. With a 64-bit `usize`
    /// this error never occurs.
    #[error("no room for an object of {size} bytes")]
    OutOfMemory {
        /// The size in the header, in bytes.
        size: u64,
    },
}

impl From<LooseHeaderDecodeError> for LooseDecodeError {
    ghost from_gives = { λ error it. it ≡ loose_error.InvalidHeader error };

    fn from(error: LooseHeaderDecodeError) -> LooseDecodeError {
        LooseDecodeError::InvalidHeader(error)
    }
}

impl From<LooseContentError> for LooseDecodeError {
    ghost from_gives = { λ error it. ConvertsContentError error it };

    fn from(error: LooseContentError) -> LooseDecodeError {
        match error {
            LooseContentError::Header(error) => LooseDecodeError::InvalidHeader(error),
            LooseContentError::Short { size } => short(size),
        }
    }
}

impl From<Error> for LooseDecodeError {
    ghost from_gives = { λ error it. it ≡ loose_error.InvalidContent error };

    fn from(error: Error) -> LooseDecodeError {
        LooseDecodeError::InvalidContent(error)
    }
}

/// Initialization
impl<'a> ObjectRef<'a> {
    /// Decodes the loose object at the start of `input`, with ids of `hash_kind`.
    ///
    /// A loose object is a header and a content of the size in the header, in bytes. Bytes after it are
    /// ignored. The content allocates as in [`ObjectRef::from_bytes`], and an error of the header may
    /// allocate a copy.
    ///
    /// # Errors
    ///
    /// - [`LooseDecodeError::InvalidHeader`], with the error of [`gixobj_hash::decode::loose_header`], if the
    ///   input begins with no header. It is out of memory if the copy for another error can't be allocated.
    /// - [`LooseDecodeError::InvalidHeader`], with [`LooseHeaderDecodeError::InvalidHeader`], if fewer bytes
    ///   follow the header than its size, and a `usize` holds the size.
    /// - [`LooseDecodeError::OutOfMemory`], with the size, if fewer bytes follow and no `usize` holds it.
    /// - [`LooseDecodeError::InvalidContent`], with the error of [`ObjectRef::from_bytes`], if that call
    ///   fails for the content.
    ///
    /// # Examples
    ///
    /// ```rust
    /// match ObjectRef::from_loose(alloc, loose, HashKind::Sha1)? {
    ///     ObjectRef::Commit(commit) => Ok(Some(commit.tree())),
    ///     ObjectRef::Tag(tag) => Ok(Some(tag.target())),
    ///     _ => Ok(None),
    /// }
    /// ```
    pub fn from_loose(
        alloc: Global,
        input: &'a [u8],
        hash_kind: hash::Kind,
    ) -> Result<ObjectRef<'a>, LooseDecodeError>
        ensures found { IfOk result (IsLooseObject hash_kind input.now) }
        ensures borrowed { IfOk result BorrowsHeaderLines }
        ensures has_ids { IfOk result HasObjectIds }
        ensures encodable { IfOk result IsReadyToWrite }
        ensures error { IfErr result (IsLooseObjectError hash_kind input.now) }
    {
        let (kind, content) = loose_content(alloc, input)?;
        Ok(ObjectRef::from_bytes(alloc, content, kind, hash_kind)?)
    }

    /// Decodes `bytes` as an object of this kind, with ids of `hash_kind`.
    ///
    /// Allocates the entries of a tree, the parents of a commit after the first, and its extra headers with
    /// their values of several lines.
    ///
    /// # Errors
    ///
    /// - [`Error::Malformed`] if `bytes` is not the encoding of an object of this kind.
    /// - [`Error::OutOfMemory`] if an allocation for a tree or a commit fails.
    ///
    /// A blob never fails.
    pub fn from_bytes(
        alloc: Global,
        bytes: &'a [u8],
        kind: Kind,
        hash_kind: hash::Kind,
    ) -> Result<ObjectRef<'a>, Error>
        ensures found { IfOk result (DecodesToObject hash_kind kind bytes.now) }
        ensures borrowed { IfOk result BorrowsHeaderLines }
        ensures has_ids { IfOk result HasObjectIds }
        ensures encodable { IfOk result IsReadyToWrite }
        ensures error { IfErr result (IsObjectDecodeError hash_kind kind bytes.now) }
    {
        match kind {
            Kind::Blob => Ok(ObjectRef::Blob(BlobRef::from_bytes(bytes))),
            _ => parsed(alloc, bytes, kind, hash_kind),
        }
    }
}

/// Decodes an object of any kind. It is never inlined, so that a blob doesn't pay for the setup of the
/// others.
#[inline(never)]
fn parsed<'a>(
    alloc: Global,
    bytes: &'a [u8],
    kind: Kind,
    hash_kind: hash::Kind,
) -> Result<ObjectRef<'a>, Error>
    ensures found { IfOk result (DecodesToObject hash_kind kind bytes.now) }
    ensures borrowed { IfOk result BorrowsHeaderLines }
    ensures has_ids { IfOk result HasObjectIds }
    ensures encodable { IfOk result IsReadyToWrite }
    ensures error { IfErr result (IsObjectDecodeError hash_kind kind bytes.now) }
{
    match kind {
        Kind::Tree => Ok(ObjectRef::Tree(TreeRef::from_bytes(alloc, bytes, hash_kind)?)),
        Kind::Blob => Ok(ObjectRef::Blob(BlobRef::from_bytes(bytes))),
        Kind::Commit => Ok(ObjectRef::Commit(CommitRef::from_bytes(alloc, bytes, hash_kind)?)),
        Kind::Tag => Ok(ObjectRef::Tag(TagRef::from_bytes(bytes, hash_kind)?)),
    }
}

/// Returns the error for a content with fewer bytes than the size in its header.
fn short(size: u64) -> LooseDecodeError
    ensures { ConvertsContentError (Short size) result }
{
    match usize::try_from(size) {
        Ok(_) => {
            let message = "the content is shorter than the size in its header";
            LooseDecodeError::InvalidHeader(LooseHeaderDecodeError::InvalidHeader { message })
        }
        Err(_) => LooseDecodeError::OutOfMemory { size },
    }
}
