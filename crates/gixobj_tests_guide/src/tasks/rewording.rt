//! Changes a commit.

use bstr::BString;
use gix_object::hash::Kind as HashKind;
use gix_object::{Commit, CommitRef, decode};
use std::alloc::Global;

/// Replaces the message and removes the extra headers: a signature would be of the old message.
pub fn reworded(alloc: Global, bytes: &[u8], message: BString) -> Result<Commit, decode::Error> {
    let mut commit = CommitRef::from_bytes(alloc, bytes, HashKind::Sha1)?.into_owned(alloc)?;
    commit.message = message;
    commit.extra_headers.clear();
    Ok(commit)
}
