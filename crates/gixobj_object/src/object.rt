//! Owned objects of any kind (gitdatamodel, "objects"). The modules below hold borrowed objects and decoding.
ghost use Rattle.std.specs.Prelude.{◌≡◌, ◌≢◌, MatchOption};
ghost use Rattle.gixobj_object.specs.Objects.{owned_kind};

mod borrowed;
mod convert;
mod write;

pub use borrowed::{LooseDecodeError, ObjectRef};
use gixobj_commit::Commit;
use gixobj_hash::Kind;
use gixobj_tag::Tag;
use gixobj_tree::{Blob, Tree};

/// An owned object of any kind. [`ObjectRef::into_owned`] makes one, and `From` converts a tree, blob, commit
/// or tag.
#[derive(Clone, Debug, Drop, PartialEq, Eq, PartialOrd, Ord, Hash)]
pub enum Object {
    /// A directory.
    Tree(Tree),
    /// The content of a file.
    Blob(Blob),
    /// A state of a tree, with its parents.
    Commit(Commit),
    /// A name for another object.
    Tag(Tag),
}

/// Access. These calls allocate nothing.
impl Object {
    /// Returns the kind of the object. Allocates nothing.
    pub fn kind(&self) -> Kind
        ensures { result ≡ owned_kind self.now }
    {
        match self {
            Object::Tree(_) => Kind::Tree,
            Object::Blob(_) => Kind::Blob,
            Object::Commit(_) => Kind::Commit,
            Object::Tag(_) => Kind::Tag,
        }
    }

    /// Returns the tree, or `None` for an object of another kind. Allocates nothing.
    pub fn as_tree(&self) -> Option<&Tree>
        ensures { MatchOption result (owned_kind self.now ≢ Kind.Tree)
            (λ tree. self.now ≡ Object.Tree tree.now) }
    {
        match self {
            Object::Tree(tree) => Some(tree),
            _ => None,
        }
    }

    /// Returns the blob, or `None` for an object of another kind. Allocates nothing.
    pub fn as_blob(&self) -> Option<&Blob>
        ensures { MatchOption result (owned_kind self.now ≢ Kind.Blob)
            (λ blob. self.now ≡ Object.Blob blob.now) }
    {
        match self {
            Object::Blob(blob) => Some(blob),
            _ => None,
        }
    }

    /// Returns the commit, or `None` for an object of another kind. Allocates nothing.
    pub fn as_commit(&self) -> Option<&Commit>
        ensures { MatchOption result (owned_kind self.now ≢ Kind.Commit)
            (λ commit. self.now ≡ Object.Commit commit.now) }
    {
        match self {
            Object::Commit(commit) => Some(commit),
            _ => None,
        }
    }

    /// Returns the tag, or `None` for an object of another kind. Allocates nothing.
    pub fn as_tag(&self) -> Option<&Tag>
        ensures { MatchOption result (owned_kind self.now ≢ Kind.Tag)
            (λ tag. self.now ≡ Object.Tag tag.now) }
    {
        match self {
            Object::Tag(tag) => Some(tag),
            _ => None,
        }
    }
}
