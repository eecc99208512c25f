//! Header fields, encoded, the trait of objects that can be written, and ids of objects whose content is
//! streamed.
#![tactic(auto)]

pub mod encode;
pub mod laws;
pub mod pieces;
pub mod stream_hash;
pub mod traits;

pub use traits::WriteTo;
