//! Borrowed objects of any kind (gitdatamodel, "objects").
ghost use Rattle.std.specs.Prelude.{◌≡◌, ◌≢◌, MatchOption};
ghost use Rattle.gixobj_object.specs.BorrowedObjects.{borrowed_kind};
ghost use Rattle.gixobj_object.specs.Parts.{IsPartOrNone};

mod convert;
mod decode;
mod write;

pub use decode::LooseDecodeError;
use gixobj_commit::CommitRef;
use gixobj_hash::Kind;
use gixobj_tag::TagRef;
use gixobj_tree::{BlobRef, TreeRef};

/// A borrowed object of any kind. [`ObjectRef::from_bytes`] and [`ObjectRef::from_loose`] decode one.
#[derive(Clone, Debug, Drop, PartialEq, Eq, PartialOrd, Ord, Hash)]
pub enum ObjectRef<'a> {
    /// A directory.
    Tree(TreeRef<'a>),
    /// The content of a file.
    Blob(BlobRef<'a>),
    /// A state of a tree, with its parents.
    Commit(CommitRef<'a>),
    /// A name for another object.
    Tag(TagRef<'a>),
}

/// Access. These calls allocate nothing.
impl<'a> ObjectRef<'a> {
    /// Returns the kind of the object. Allocates nothing.
    pub fn kind(&self) -> Kind
        ensures { result ≡ borrowed_kind self.now }
    {
        match self {
            ObjectRef::Tree(_) => Kind::Tree,
            ObjectRef::Blob(_) => Kind::Blob,
            ObjectRef::Commit(_) => Kind::Commit,
            ObjectRef::Tag(_) => Kind::Tag,
        }
    }

    /// Returns the tree, or `None` for an object of another kind. Allocates nothing.
    pub fn as_tree(&self) -> Option<&TreeRef<'a>>
        ensures { MatchOption result (borrowed_kind self.now ≢ Kind.Tree)
            (λ tree. self.now ≡ ObjectRef.Tree tree.now) }
    {
        match self {
            ObjectRef::Tree(tree) => Some(tree),
            _ => None,
        }
    }

    /// Returns the blob, or `None` for an object of another kind. Allocates nothing.
    pub fn as_blob(&self) -> Option<&BlobRef<'a>>
        ensures { MatchOption result (borrowed_kind self.now ≢ Kind.Blob)
            (λ blob. self.now ≡ ObjectRef.Blob blob.now) }
    {
        match self {
            ObjectRef::Blob(blob) => Some(blob),
            _ => None,
        }
    }

    /// Returns the commit, or `None` for an object of another kind. Allocates nothing.
    pub fn as_commit(&self) -> Option<&CommitRef<'a>>
        ensures { MatchOption result (borrowed_kind self.now ≢ Kind.Commit)
            (λ commit. self.now ≡ ObjectRef.Commit commit.now) }
    {
        match self {
            ObjectRef::Commit(commit) => Some(commit),
            _ => None,
        }
    }

    /// Returns the tag, or `None` for an object of another kind. Allocates nothing.
    pub fn as_tag(&self) -> Option<&TagRef<'a>>
        ensures { MatchOption result (borrowed_kind self.now ≢ Kind.Tag)
            (λ tag. self.now ≡ ObjectRef.Tag tag.now) }
    {
        match self {
            ObjectRef::Tag(tag) => Some(tag),
            _ => None,
        }
    }

    /// Converts the object into its tree, or returns `None` for another kind. Allocates nothing.
    pub fn into_tree(self) -> Option<TreeRef<'a>>
        ensures { IsPartOrNone borrowed_kind Kind.Tree ObjectRef.Tree self.entry result }
    {
        TreeRef::try_from(self).ok()
    }

    /// Converts the object into its blob, or returns `None` for another kind. Allocates nothing.
    pub fn into_blob(self) -> Option<BlobRef<'a>>
        ensures { IsPartOrNone borrowed_kind Kind.Blob ObjectRef.Blob self.entry result }
    {
        BlobRef::try_from(self).ok()
    }

    /// Converts the object into its commit, or returns `None` for another kind. Allocates nothing.
    pub fn into_commit(self) -> Option<CommitRef<'a>>
        ensures { IsPartOrNone borrowed_kind Kind.Commit ObjectRef.Commit self.entry result }
    {
        CommitRef::try_from(self).ok()
    }

    /// Converts the object into its tag, or returns `None` for another kind. Allocates nothing.
    pub fn into_tag(self) -> Option<TagRef<'a>>
        ensures { IsPartOrNone borrowed_kind Kind.Tag ObjectRef.Tag self.entry result }
    {
        TagRef::try_from(self).ok()
    }
}
