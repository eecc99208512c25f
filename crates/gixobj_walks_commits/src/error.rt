//! Errors of lookups of commits.
use gixobj_hash::hash::ObjectId;
use gixobj_hash::{Kind, decode};
use gixobj_store::find;

/// The error of [`find_node`](crate::find_node) and [`peel_to_commit`](crate::peel_to_commit).
#[derive(Debug, Drop, thiserror::Error)]
pub enum NodeError {
    /// The lookup failed.
    #[error("the object {oid}: {source}")]
    Find {
        /// The id that was looked up.
        oid: ObjectId,
        /// The error of the lookup.
        source: find::Error,
    },
    /// The store has no object with this id.
    #[error("no object has the id {oid}")]
    NotFound {
        /// The id that was looked up.
        oid: ObjectId,
    },
    /// The object is of another kind.
    #[error("expected the object {oid} to be a commit, but it is a {actual}")]
    ObjectKind {
        /// The id that was looked up.
        oid: ObjectId,
        /// The kind of the object.
        actual: Kind,
    },
    /// The bytes of the object do not decode as its kind, or an allocation failed while they were decoded.
    #[error("the object {oid}: {source}")]
    Decode {
        /// The id that was looked up.
        oid: ObjectId,
        /// The error of decoding.
        source: decode::Error,
    },
    /// The object is a tag, to which as many tags lead as may be followed.
    #[error("the object {oid} is one tag too many")]
    TooManyTags {
        /// The id of the tag that wasn't followed.
        oid: ObjectId,
    },
}
