//! Lookups of objects by kind in object stores, and writes of objects.
#![tactic(auto)]

pub mod find;
pub mod traits;

pub use gixobj_store_keep::write;
pub use traits::{FindExt, HeaderExt, Write};
