//! Objects of any kind, owned and borrowed. They are decoded by their kind or as loose objects, converted to
//! their parts, and encoded.
#![tactic(auto)]

mod data;
mod object;

pub use data::DataExt;
pub use object::{LooseDecodeError, Object, ObjectRef};
