//! Encodes and hashes an object.

use gix_object::hash::{Kind as HashKind, ObjectId};
use gix_object::{Commit, Kind, OutOfMemory, WriteTo, compute_hash, encode};
use std::alloc::Global;

/// Encodes a commit. Returns its id and its bytes.
pub fn written(alloc: Global, commit: &Commit) -> Result<(ObjectId, Vec<u8>), encode::Error> {
    let mut bytes = Vec::new(alloc);
    commit.write_to_vec(alloc, &mut bytes)?;
    Ok((compute_hash(HashKind::Sha1, Kind::Commit, &bytes), bytes))
}

/// Encodes a loose blob: header and content, before compression.
pub fn loose_blob(alloc: Global, content: &[u8]) -> Result<Vec<u8>, OutOfMemory> {
    let header = encode::loose_header(alloc, Kind::Blob, content.len() as u64);
    let mut loose = Vec::from_slice(alloc, &header)?;
    loose.extend_from_slice(content)?;
    Ok(loose)
}
