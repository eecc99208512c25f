//! The error of a comparison with an expected id.

use super::ObjectId;
use thiserror::Error;

/// An id differs from the expected one. It is the error of [`ObjectId::verify`].
#[derive(Clone, Copy, Debug, PartialEq, Eq, Error)]
#[error("the id is {actual} and not {expected}")]
pub struct Error {
    /// The actual id.
    pub actual: ObjectId,
    /// The expected id.
    pub expected: ObjectId,
}
