//! Conversions of borrowed objects from and to trees, blobs, commits and tags, and to owned objects.
ghost use Rattle.std.specs.Prelude.{◌≡◌, IfErr, IfOk};
ghost use Rattle.gixobj_hash.specs.declared.kind.Kind.TheVariants as kind;
ghost use Rattle.gixobj_object.specs.BorrowedObjects.{HasObjectIds, IsOwnedObject, IsIntoOwnedObjectError};
ghost use Rattle.gixobj_object.specs.BorrowedObjects.{borrowed_kind};
ghost use Rattle.gixobj_object.specs.Parts.{IsPartOrBack};
ghost use Rattle.gixobj_object.specs.declared.object.borrowed.ObjectRef.TheVariants as object;

use super::ObjectRef;
use crate::Object;
use gixobj_commit::CommitRef;
use gixobj_commit::commit::owned_copy;
use gixobj_hash::decode::Error;
use gixobj_tag::TagRef;
use gixobj_tree::{BlobRef, TreeRef};
use std::alloc::Global;

/// Conversion
impl ObjectRef<'_> {
    /// Converts the object into an owned one. Allocates copies of its parts.
    ///
    /// Ids, actors and times are decoded. A malformed time becomes the start of 1970 in UTC. The hex fields
    /// of a commit or a tag must be ids, as [`ObjectRef::from_bytes`] ensures. An empty tree allocates
    /// nothing.
    ///
    /// # Errors
    ///
    /// - [`Error::Malformed`] if the line of an author, a committer or a tagger is malformed, or if bytes
    ///   follow the time of its actor.
    /// - [`Error::OutOfMemory`] otherwise, if an allocation fails.
    pub fn into_owned(self, alloc: Global) -> Result<Object, Error>
        requires { HasObjectIds self }
        ensures owned { IfOk result (IsOwnedObject self.entry) }
        ensures error { IfErr result (IsIntoOwnedObjectError self.entry) }
    {
        self.to_owned(alloc)
    }

    /// Copies the object into an owned one. Allocates copies of its parts.
    ///
    /// Ids, actors and times are decoded. A malformed time becomes the start of 1970 in UTC. The hex fields
    /// of a commit or a tag must be ids, as [`ObjectRef::from_bytes`] ensures. An empty tree allocates
    /// nothing.
    ///
    /// # Errors
    ///
    /// - [`Error::Malformed`] if the line of an author, a committer or a tagger is malformed, or if bytes
    ///   follow the time of its actor.
    /// - [`Error::OutOfMemory`] otherwise, if an allocation fails.
    pub fn to_owned(&self, alloc: Global) -> Result<Object, Error>
        requires { HasObjectIds self.now }
        ensures owned { IfOk result (IsOwnedObject self.now) }
        ensures error { IfErr result (IsIntoOwnedObjectError self.now) }
    {
        match self {
            ObjectRef::Tree(tree) => Ok(Object::Tree(tree.to_owned(alloc)?)),
            ObjectRef::Blob(blob) => Ok(Object::Blob(blob.into_owned(alloc)?)),
            ObjectRef::Commit(commit) => Ok(Object::Commit(owned_copy(alloc, commit)?)),
            ObjectRef::Tag(tag) => Ok(Object::Tag(tag.into_owned(alloc)?)),
        }
    }
}

impl<'a> From<TreeRef<'a>> for ObjectRef<'a> {
    ghost from_gives = { λ tree it. it ≡ object.Tree tree };

    fn from(tree: TreeRef<'a>) -> ObjectRef<'a> {
        ObjectRef::Tree(tree)
    }
}

impl<'a> From<BlobRef<'a>> for ObjectRef<'a> {
    ghost from_gives = { λ blob it. it ≡ object.Blob blob };

    fn from(blob: BlobRef<'a>) -> ObjectRef<'a> {
        ObjectRef::Blob(blob)
    }
}

impl<'a> From<CommitRef<'a>> for ObjectRef<'a> {
    ghost from_gives = { λ commit it. it ≡ object.Commit commit };

    fn from(commit: CommitRef<'a>) -> ObjectRef<'a> {
        ObjectRef::Commit(commit)
    }
}

impl<'a> From<TagRef<'a>> for ObjectRef<'a> {
    ghost from_gives = { λ tag it. it ≡ object.Tag tag };

    fn from(tag: TagRef<'a>) -> ObjectRef<'a> {
        ObjectRef::Tag(tag)
    }
}

/// Converts the object into its tree. The error is an object of another kind, unchanged.
impl<'a> TryFrom<ObjectRef<'a>> for TreeRef<'a> {
    type Error = ObjectRef<'a>;

    ghost try_from_gives = { IsPartOrBack borrowed_kind kind.Tree object.Tree };

    fn try_from(object: ObjectRef<'a>) -> Result<TreeRef<'a>, ObjectRef<'a>> {
        match object {
            ObjectRef::Tree(tree) => Ok(tree),
            other => Err(other),
        }
    }
}

/// Converts the object into its blob. The error is an object of another kind, unchanged.
impl<'a> TryFrom<ObjectRef<'a>> for BlobRef<'a> {
    type Error = ObjectRef<'a>;

    ghost try_from_gives = { IsPartOrBack borrowed_kind kind.Blob object.Blob };

    fn try_from(object: ObjectRef<'a>) -> Result<BlobRef<'a>, ObjectRef<'a>> {
        match object {
            ObjectRef::Blob(blob) => Ok(blob),
            other => Err(other),
        }
    }
}

/// Converts the object into its commit. The error is an object of another kind, unchanged.
impl<'a> TryFrom<ObjectRef<'a>> for CommitRef<'a> {
    type Error = ObjectRef<'a>;

    ghost try_from_gives = { IsPartOrBack borrowed_kind kind.Commit object.Commit };

    fn try_from(object: ObjectRef<'a>) -> Result<CommitRef<'a>, ObjectRef<'a>> {
        match object {
            ObjectRef::Commit(commit) => Ok(commit),
            other => Err(other),
        }
    }
}

/// Converts the object into its tag. The error is an object of another kind, unchanged.
impl<'a> TryFrom<ObjectRef<'a>> for TagRef<'a> {
    type Error = ObjectRef<'a>;

    ghost try_from_gives = { IsPartOrBack borrowed_kind kind.Tag object.Tag };

    fn try_from(object: ObjectRef<'a>) -> Result<TagRef<'a>, ObjectRef<'a>> {
        match object {
            ObjectRef::Tag(tag) => Ok(tag),
            other => Err(other),
        }
    }
}
