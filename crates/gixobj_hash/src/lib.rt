//! Object ids, object kinds and loose headers. Its modules `split`, `parse` and `optional` have steps that
//! decoders share: splits at a byte, numbers in digits and optional byte strings.
//!
//! A loose object is its header and then its content. The header is `<kind> <size>` and a zero byte. The id
//! of an object is the SHA-1 or SHA-256 digest of both (`gitformat-loose`, "Loose object format").
#![tactic(auto)]

pub mod decode;
pub mod digest;
pub mod encode;
pub mod hash;
mod header;
pub mod kind;
pub mod laws;
pub mod memory;
pub mod optional;
pub mod parse;
pub mod split;

pub use digest::compute_hash;
pub use header::Header;
pub use kind::Kind;
pub use memory::OutOfMemory;
