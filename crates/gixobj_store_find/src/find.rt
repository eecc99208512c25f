//! Errors of lookups by kind, and the store that finds nothing.

pub mod existing;
pub mod existing_iter;
mod never;

pub use gixobj_store::find::Error;
pub use gixobj_store_keep::find::existing_object;
pub use never::Never;
