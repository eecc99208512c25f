//! Decoding of objects by their kinds, and iterators over the tokens of commits and tags.
ghost use Rattle.std.specs.Prelude.{◌≡◌, ◌↔◌, IfErr, IfOk, IfSome, IsSome};
ghost use Rattle.gixobj_hash.specs.declared.kind.Kind.TheVariants as object;
ghost use Rattle.gixobj_object.specs.BorrowedObjects.{BorrowsHeaderLines, HasObjectIds, IsReadyToWrite};
ghost use Rattle.gixobj_object.specs.ObjectReading.{DecodesToObject, IsObjectDecodeError};
ghost use Rattle.gixobj_tokens.specs.TagTokenSteps.{IsAtStartOfTag};
ghost use Rattle.gixobj_tokens.specs.CommitTokenSteps.{IsAtStartOfCommit};

use crate::ObjectRef;
use gixobj_hash::Kind;
use gixobj_hash::decode::Error;
use gixobj_store::Data;
use gixobj_tokens::{CommitRefIter, TagRefIter};
use std::alloc::Global;

/// Decoding of [`Data`], the only type that implements it.
pub trait DataExt<'a> {
    /// Decodes the content as an object of its kind.
    ///
    /// Allocates the entries of a tree, the parents of a commit after the first, and its extra headers with
    /// their values of several lines.
    ///
    /// # Errors
    ///
    /// - [`Error::Malformed`] if the content is not the encoding of an object of its kind.
    /// - [`Error::OutOfMemory`] if an allocation for a tree or a commit fails.
    ///
    /// A blob never fails.
    fn decode(&self, alloc: Global) -> Result<ObjectRef<'a>, Error>;

    /// Returns an iterator over the tokens of the commit, or `None` for another kind. Allocates nothing.
    fn try_into_commit_iter(self, alloc: Global) -> Option<CommitRefIter<'a>>;

    /// Returns an iterator over the tokens of the tag, or `None` for another kind. Allocates nothing.
    fn try_into_tag_iter(self) -> Option<TagRefIter<'a>>;
}

impl<'a> DataExt<'a> for Data<'a> {
    fn decode(&self, alloc: Global) -> Result<ObjectRef<'a>, Error>
        ensures found { IfOk result (DecodesToObject self.now.object_hash self.now.kind
            self.now.bytes.now) }
        ensures borrowed { IfOk result BorrowsHeaderLines }
        ensures has_ids { IfOk result HasObjectIds }
        ensures encodable { IfOk result IsReadyToWrite }
        ensures error { IfErr result (IsObjectDecodeError self.now.object_hash self.now.kind
            self.now.bytes.now) }
    {
        ObjectRef::from_bytes(alloc, self.bytes, self.kind, self.object_hash)
    }

    fn try_into_commit_iter(self, alloc: Global) -> Option<CommitRefIter<'a>>
        ensures accepts { IsSome result ↔ (self.entry.kind ≡ object.Commit) }
        ensures reader { IfSome result (IsAtStartOfCommit self.entry.object_hash
            self.entry.bytes.now) }
    {
        match self.kind {
            Kind::Commit => Some(CommitRefIter::from_bytes(alloc, self.bytes, self.object_hash)),
            _ => None,
        }
    }

    fn try_into_tag_iter(self) -> Option<TagRefIter<'a>>
        ensures accepts { IsSome result ↔ (self.entry.kind ≡ object.Tag) }
        ensures reader { IfSome result (IsAtStartOfTag self.entry.object_hash
            self.entry.bytes.now) }
    {
        match self.kind {
            Kind::Tag => Some(TagRefIter::from_bytes(self.bytes, self.object_hash)),
            _ => None,
        }
    }
}
