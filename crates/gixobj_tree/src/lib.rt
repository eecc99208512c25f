//! Trees and blobs, owned and borrowed: decoded, encoded, compared and copied (gitdatamodel, "trees").
#![tactic(auto)]

mod blob;
pub mod laws;
pub mod tree;

pub use blob::{Blob, BlobRef};
pub use tree::{Tree, TreeRef};
