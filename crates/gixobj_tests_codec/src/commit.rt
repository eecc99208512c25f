//! Commits, decoded at once and token by token, and written. `gixobj_tests_replay` compares decoded commits,
//! their tokens, and the bytes that are written of them.

mod allocation_failures;
mod headers;
mod tokens;
mod writers;

use gixobj_base::decode;
use gixobj_base::hash::Kind::Sha1;
use gixobj_codec::commit::{Commit, CommitRef};
use std::alloc::Global;

/// A first commit of the empty tree.
pub(crate) const PLAIN: &[u8] = b"tree 4b825dc642cb6eb9a060e54bf8d69288fbee4904\n\
    author A <a@b> 0 +0000\ncommitter A <a@b> 0 +0000\n\nhi\n";

/// The plain commit with a signature of two lines.
pub(crate) const SIGNED: &[u8] = b"tree 4b825dc642cb6eb9a060e54bf8d69288fbee4904\n\
    author A <a@b> 0 +0000\ncommitter A <a@b> 0 +0000\n\
    gpgsig A\n B\n\nhi\n";

/// Decodes a commit with SHA-1 ids.
pub(crate) fn read(alloc: Global, bytes: &[u8]) -> Result<CommitRef<'_>, decode::Error> {
    CommitRef::from_bytes(alloc, bytes, Sha1)
}

/// Returns the owned form of a decoded commit.
pub(crate) fn owned_form(alloc: Global, bytes: &[u8]) -> Result<Commit, decode::Error> {
    CommitRef::from_bytes(alloc, bytes, Sha1)?.into_owned(alloc)
}
