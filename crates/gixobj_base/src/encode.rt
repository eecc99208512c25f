//! The errors of encoding an object, and the encoding of loose headers (gitformat-loose, "Loose object
//! format").

pub use gixobj_encode::encode::{Error, RefNameFault};
pub use gixobj_hash::encode::loose_header;
