//! Decodes and encodes object ids, loose headers with their kinds, actors and times. Encodes trees and
//! blobs.
//!
//! This crate has no code. It re-exports the crates below it under the names that users know:
//!
//! - [`gixobj_hash`]: ids, kinds and loose headers;
//! - [`gixobj_parse`]: header fields, decoded;
//! - [`gixobj_encode`]: header fields, encoded, and the trait of objects that can be written;
//! - [`gixobj_actor`]: actors and times;
//! - [`gixobj_tree_entries`] and [`gixobj_tree`]: modes, entries, trees and blobs.
#![tactic(auto)]

pub mod encode;
pub mod laws;
pub mod parse;
pub mod tree;

pub use gixobj_actor::{actor, date};
pub use gixobj_encode::stream_hash::compute_stream_hash;
pub use gixobj_encode::{WriteTo, stream_hash, traits};
pub use gixobj_hash::{Header, Kind, OutOfMemory, compute_hash, decode, hash, kind};
pub use gixobj_streams::streams;
pub use gixobj_tree::{Blob, BlobRef, Tree};
