//! Object ids: hash functions, owned and borrowed ids, and the comparison of an id with an expected one.

mod borrowed;
pub(crate) mod hasher;
mod kind;
mod object_id;
pub mod verify;

pub use borrowed::oid;
pub use kind::Kind;
pub use object_id::ObjectId;
