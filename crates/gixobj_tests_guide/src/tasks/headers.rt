//! Extra headers of a commit.

use gix_object::hash::Kind as HashKind;
use gix_object::{CommitRef, decode};
use std::alloc::Global;

/// Returns whether a commit is signed, and whether it merges a tag.
pub fn signed_and_merging(alloc: Global, bytes: &[u8]) -> Result<(bool, bool), decode::Error> {
    let commit = CommitRef::from_bytes(alloc, bytes, HashKind::Sha1)?;
    let is_signed = commit.extra_headers().pgp_signature().is_some();
    let merges_a_tag = commit.extra_headers().find("mergetag").is_some();
    Ok((is_signed, merges_a_tag))
}
