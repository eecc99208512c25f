//! The four kinds of objects and their names (`gitformat-loose`, "Loose object format").
ghost use Rattle.std.specs.Prelude.{◌≡◌, ◌↔◌, ◌≤◌, IsTrue, IfOk, IfErr, MatchOption, Ok, length};
ghost use Rattle.gixobj_hash.specs.declared.kind.Kind.{Kind};
ghost use Rattle.gixobj_hash.specs.Kind.{IsUnknownKindName, kind_name};

use bstr::BString;
use std::alloc::{AllocError, Global};
use std::fmt;

/// The kind of an object. [`Kind::from_name`] and [`Kind::from_bytes`] decode its name.
#[derive(Clone, Copy, Debug, PartialEq, Eq, PartialOrd, Ord, Hash)]
pub enum Kind {
    /// A directory: modes, names and ids.
    Tree,
    /// The content of a file, or the target of a symbolic link.
    Blob,
    /// A commit: a tree, parents, author, committer and message.
    Commit,
    /// An annotated tag: a name for another object, with a message.
    Tag,
}

/// The error of [`Kind::from_bytes`].
#[derive(Clone, Debug, Drop, thiserror::Error)]
pub enum Error {
    /// The bytes are an unknown kind of object.
    #[error("unknown object kind {kind:?}")]
    InvalidObjectKind {
        /// A copy of these bytes.
        kind: BString,
    },
    /// The bytes are an unknown kind of object, and their copy could not be allocated.
    #[error("out of memory")]
    OutOfMemory,
}

impl From<AllocError> for Error {
    ghost use Rattle.gixobj_hash.specs.declared.kind.Error.TheVariants.{OutOfMemory};

    ghost from_gives = { λ _ e. e ≡ OutOfMemory };

    fn from(_e: AllocError) -> Error {
        Error::OutOfMemory
    }
}

/// Initialization
impl Kind {
    ghost use Rattle.gixobj_hash.specs.Kind.NameError.{IsKindNameError};

    /// Decodes the name of a kind: `tree`, `blob`, `commit` or `tag`.
    ///
    /// Returns `None` for any other bytes. Allocates nothing.
    pub fn from_name(token: &[u8]) -> Option<Kind>
        ensures { MatchOption result (IsUnknownKindName token.now)
            (λ kind. token.now ≡ kind_name kind) }
    {
        match token {
            b"tree" => Some(Kind::Tree),
            b"blob" => Some(Kind::Blob),
            b"commit" => Some(Kind::Commit),
            b"tag" => Some(Kind::Tag),
            _ => None,
        }
    }

    /// Decodes the name of a kind, which [`Kind::from_name`] lists.
    ///
    /// Allocates only the copy for an error.
    ///
    /// # Errors
    ///
    /// - [`Error::InvalidObjectKind`] with a copy of the bytes, if they are an unknown kind.
    /// - [`Error::OutOfMemory`] if that copy can't be allocated.
    pub fn from_bytes(alloc: Global, s: &[u8]) -> Result<Kind, Error>
        ensures accepts { (kind : Kind) → s.now ≡ kind_name kind → result ≡ Ok kind }
        ensures found { IfOk result (λ kind. s.now ≡ kind_name kind) }
        ensures error { IfErr result (IsKindNameError s.now) }
    {
        match Kind::from_name(s) {
            Some(kind) => Ok(kind),
            None => Err(Error::InvalidObjectKind {
                kind: BString::from_slice(alloc, s)?,
            }),
        }
    }
}

/// Access
impl Kind {
    ghost use Rattle.gixobj_hash.specs.declared.kind.Kind.TheVariants.{Tree, Blob, Commit, Tag};

    /// Returns the name of the kind, as loose headers have it. Allocates nothing.
    pub fn as_bytes(&self) -> &'static [u8]
        ensures value { result.now ≡ kind_name self.now }
        ensures max_len { length result.now ≤ 6 }
    {
        match self {
            Kind::Tree => b"tree",
            Kind::Blob => b"blob",
            Kind::Commit => b"commit",
            Kind::Tag => b"tag",
        }
    }

    /// Returns whether this is the kind of trees. Allocates nothing.
    pub fn is_tree(&self) -> bool
        ensures { IsTrue result ↔ (self.now ≡ Tree) }
    {
        matches!(self, Kind::Tree)
    }

    /// Returns whether this is the kind of blobs. Allocates nothing.
    pub fn is_blob(&self) -> bool
        ensures { IsTrue result ↔ (self.now ≡ Blob) }
    {
        matches!(self, Kind::Blob)
    }

    /// Returns whether this is the kind of commits. Allocates nothing.
    pub fn is_commit(&self) -> bool
        ensures { IsTrue result ↔ (self.now ≡ Commit) }
    {
        matches!(self, Kind::Commit)
    }

    /// Returns whether this is the kind of tags. Allocates nothing.
    pub fn is_tag(&self) -> bool
        ensures { IsTrue result ↔ (self.now ≡ Tag) }
    {
        matches!(self, Kind::Tag)
    }
}

/// Formats the name of the kind.
impl fmt::Display for Kind {
    ghost use Rattle.std.specs.Prelude.{Some};

    ghost output = { λ kind. Some (kind_name kind) };

    fn fmt<W: fmt::Write>(&self, f: &mut fmt::Formatter<W>) -> fmt::Result {
        f.write_str(match self {
            Kind::Tree => "tree",
            Kind::Blob => "blob",
            Kind::Commit => "commit",
            Kind::Tag => "tag",
        })
    }
}
