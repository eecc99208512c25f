//! The id of a blob from a stream.

use gix_object::hash::{Kind as HashKind, ObjectId};
use gix_object::{Kind, compute_stream_hash, stream_hash};
use std::io::Read;

/// Computes the id of a blob of `size` bytes, read from a stream. Fails with `UnexpectedEof` if there are fewer.
pub fn blob_id<R: Read>(stream: &mut R, size: u64) -> Result<ObjectId, stream_hash::Error> {
    compute_stream_hash(HashKind::Sha1, Kind::Blob, stream, size)
}
