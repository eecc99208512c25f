//! Conversions of owned objects from and to trees, blobs, commits and tags, which allocate nothing.
ghost use Rattle.std.specs.Prelude.{◌≡◌, ◌≢◌, MatchOption};
ghost use Rattle.gixobj_hash.specs.declared.kind.Kind.TheVariants as kind;
ghost use Rattle.gixobj_object.specs.Objects.{owned_kind};
ghost use Rattle.gixobj_object.specs.Parts.{IsPartOrBack};
ghost use Rattle.gixobj_object.specs.declared.object.Object.TheVariants as object;

use super::Object;
use gixobj_commit::Commit;
use gixobj_hash::Kind;
use gixobj_tag::Tag;
use gixobj_tree::{Blob, BlobRef, Tree};

/// Conversion
impl Object {
    /// Returns the blob as a borrowed one, or `None` for an object of another kind. Allocates nothing.
    pub fn try_into_blob_ref(&self) -> Option<BlobRef<'_>>
        ensures { MatchOption result (owned_kind self.now ≢ Kind.Blob)
            (λ blob. (b : Blob) × (self.now ≡ Object.Blob b) × (blob.bytes.now ≡ b.bytes.items)) }
    {
        match self {
            Object::Blob(blob) => Some(blob.to_ref()),
            _ => None,
        }
    }

    /// Converts the object into its tree. Allocates nothing.
    ///
    /// # Errors
    ///
    /// The object, unchanged, if it is of another kind.
    pub fn try_into_tree(self) -> Result<Tree, Object>
        ensures { IsPartOrBack owned_kind Kind.Tree Object.Tree self result }
    {
        match self {
            Object::Tree(tree) => Ok(tree),
            other => Err(other),
        }
    }

    /// Converts the object into its blob. Allocates nothing.
    ///
    /// # Errors
    ///
    /// The object, unchanged, if it is of another kind.
    pub fn try_into_blob(self) -> Result<Blob, Object>
        ensures { IsPartOrBack owned_kind Kind.Blob Object.Blob self result }
    {
        match self {
            Object::Blob(blob) => Ok(blob),
            other => Err(other),
        }
    }

    /// Converts the object into its commit. Allocates nothing.
    ///
    /// # Errors
    ///
    /// The object, unchanged, if it is of another kind.
    pub fn try_into_commit(self) -> Result<Commit, Object>
        ensures { IsPartOrBack owned_kind Kind.Commit Object.Commit self result }
    {
        match self {
            Object::Commit(commit) => Ok(commit),
            other => Err(other),
        }
    }

    /// Converts the object into its tag. Allocates nothing.
    ///
    /// # Errors
    ///
    /// The object, unchanged, if it is of another kind.
    pub fn try_into_tag(self) -> Result<Tag, Object>
        ensures { IsPartOrBack owned_kind Kind.Tag Object.Tag self result }
    {
        match self {
            Object::Tag(tag) => Ok(tag),
            other => Err(other),
        }
    }

    /// Converts the object into its tree. The object must be a tree. Allocates nothing.
    pub fn into_tree(self) -> Tree
        requires { owned_kind self ≡ Kind.Tree }
        ensures { self ≡ Object.Tree result }
    {
        match self {
            Object::Tree(tree) => tree,
            _ => unreachable!(),
        }
    }

    /// Converts the object into its blob. The object must be a blob. Allocates nothing.
    pub fn into_blob(self) -> Blob
        requires { owned_kind self ≡ Kind.Blob }
        ensures { self ≡ Object.Blob result }
    {
        match self {
            Object::Blob(blob) => blob,
            _ => unreachable!(),
        }
    }

    /// Converts the object into its commit. The object must be a commit. Allocates nothing.
    pub fn into_commit(self) -> Commit
        requires { owned_kind self ≡ Kind.Commit }
        ensures { self ≡ Object.Commit result }
    {
        match self {
            Object::Commit(commit) => commit,
            _ => unreachable!(),
        }
    }

    /// Converts the object into its tag. The object must be a tag. Allocates nothing.
    pub fn into_tag(self) -> Tag
        requires { owned_kind self ≡ Kind.Tag }
        ensures { self ≡ Object.Tag result }
    {
        match self {
            Object::Tag(tag) => tag,
            _ => unreachable!(),
        }
    }
}

impl From<Tree> for Object {
    ghost from_gives = { λ tree it. it ≡ object.Tree tree };

    fn from(tree: Tree) -> Object {
        Object::Tree(tree)
    }
}

impl From<Blob> for Object {
    ghost from_gives = { λ blob it. it ≡ object.Blob blob };

    fn from(blob: Blob) -> Object {
        Object::Blob(blob)
    }
}

impl From<Commit> for Object {
    ghost from_gives = { λ commit it. it ≡ object.Commit commit };

    fn from(commit: Commit) -> Object {
        Object::Commit(commit)
    }
}

impl From<Tag> for Object {
    ghost from_gives = { λ tag it. it ≡ object.Tag tag };

    fn from(tag: Tag) -> Object {
        Object::Tag(tag)
    }
}

/// Converts the object into its tree. The error is an object of another kind, unchanged.
impl TryFrom<Object> for Tree {
    type Error = Object;

    ghost try_from_gives = { IsPartOrBack owned_kind kind.Tree object.Tree };

    fn try_from(object: Object) -> Result<Tree, Object> {
        object.try_into_tree()
    }
}

/// Converts the object into its blob. The error is an object of another kind, unchanged.
impl TryFrom<Object> for Blob {
    type Error = Object;

    ghost try_from_gives = { IsPartOrBack owned_kind kind.Blob object.Blob };

    fn try_from(object: Object) -> Result<Blob, Object> {
        object.try_into_blob()
    }
}

/// Converts the object into its commit. The error is an object of another kind, unchanged.
impl TryFrom<Object> for Commit {
    type Error = Object;

    ghost try_from_gives = { IsPartOrBack owned_kind kind.Commit object.Commit };

    fn try_from(object: Object) -> Result<Commit, Object> {
        object.try_into_commit()
    }
}

/// Converts the object into its tag. The error is an object of another kind, unchanged.
impl TryFrom<Object> for Tag {
    type Error = Object;

    ghost try_from_gives = { IsPartOrBack owned_kind kind.Tag object.Tag };

    fn try_from(object: Object) -> Result<Tag, Object> {
        object.try_into_tag()
    }
}
