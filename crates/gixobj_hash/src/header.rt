//! The kind and the size of an object whose content has not been decoded.

use crate::Kind;

/// The kind and the size of an object: what its loose header states.
#[derive(Clone, Copy, Debug, PartialEq, Eq, PartialOrd, Ord, Hash)]
pub struct Header {
    /// The kind of the object.
    pub kind: Kind,
    /// The size of the uncompressed content, in bytes.
    pub size: u64,
}
