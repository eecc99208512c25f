//! Commits and tags without their signatures.

use gix_object::hash::Kind as HashKind;
use gix_object::{Commit, CommitRef, Tag, TagRef, decode};
use std::alloc::Global;

/// Removes the signatures of a commit. The other headers stay.
pub fn unsigned_commit(alloc: Global, bytes: &[u8]) -> Result<Commit, decode::Error> {
    let mut commit = CommitRef::from_bytes(alloc, bytes, HashKind::Sha1)?.into_owned(alloc)?;
    commit
        .extra_headers
        .retain(|header| !is_signature(header.0.as_bytes()));
    Ok(commit)
}

/// Returns whether a header of this name has a signature of the commit.
fn is_signature(name: &[u8]) -> bool {
    name == b"gpgsig".as_slice() || name == b"gpgsig-sha256".as_slice()
}

/// Removes the signature of a tag. The newline before it ends the message then.
pub fn unsigned_tag(alloc: Global, bytes: &[u8]) -> Result<Tag, decode::Error> {
    let mut tag = TagRef::from_bytes(bytes, HashKind::Sha1)?.into_owned(alloc)?;
    if tag.signature.take().is_some() {
        tag.message.push(b'\n')?;
    }
    Ok(tag)
}
