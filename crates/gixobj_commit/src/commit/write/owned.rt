//! Encoding of owned commits (gitdatamodel, "commits").

use super::super::Commit;
use super::{ids_size, size_with_rest, write_ids, write_rest};
use gixobj_actor::encode::{size_with_signature, trusted_header_signature};
use gixobj_encode::WriteTo;
use gixobj_encode::encode::Error;
use gixobj_hash::Kind;
use gixobj_hash::optional::borrowed;
use gixobj_streams::streams::Sink;
use std::alloc::Global;

/// Encodes a commit from the parts of its actors and times.
///
/// The names of extra headers are written without validation. Only the sink and the copy of a rejected
/// message encoding allocate.
///
/// # Errors
///
/// - [`Error::Writer`] with the sink's error. A proper prefix of the encoding is then written.
/// - [`Error::IllegalActor`] if a name or email has a `<`, a `>` or a newline. The lines before that actor
///   are then written, and `author` or `committer` and a space.
/// - [`Error::EmptyValue`] if the message encoding is empty.
/// - [`Error::NewlineInHeaderValue`] with a copy of the message encoding, if it has a newline.
/// - [`Error::OutOfMemory`] if it has a newline, and the allocation of the copy fails.
///
/// At the last three, the lines before the message encoding are written.
impl WriteTo for Commit {
    ghost use Rattle.gixobj_hash.specs.declared.kind.Kind.TheVariants as kind;
    ghost use Rattle.gixobj_commit.specs.CommitViews.{owned_commit_lines};
    ghost use Rattle.gixobj_commit.specs.CommitWriting.{IsOwnedCommitError, encode_commit};

    ghost object_kind = { λ _. kind.Commit };

    ghost encoding = { λ commit. encode_commit (owned_commit_lines commit) };

    ghost rejects = { IsOwnedCommitError };

    fn write_into<S: Sink>(&self, alloc: Global, sink: &mut S) -> Result<(), Error> {
        let (parents, encoding) = (self.parents.as_slice(), borrowed(&self.encoding));
        let (headers, message) = (self.extra_headers.as_slice(), self.message.as_bytes());
        write_ids(&self.tree, parents, sink)?;
        trusted_header_signature(b"author", &self.author, sink)?;
        trusted_header_signature(b"committer", &self.committer, sink)?;
        write_rest(alloc, encoding, headers, message, sink)
    }

    fn kind(&self) -> Kind {
        Kind::Commit
    }

    fn size(&self) -> Option<u64> {
        let (parents, encoding) = (self.parents.as_slice(), borrowed(&self.encoding));
        let (headers, message) = (self.extra_headers.as_slice(), self.message.as_bytes());
        let ids = ids_size(&self.tree, parents)?;
        let with_author = size_with_signature(ids, b"author", &self.author)?;
        let lines = size_with_signature(with_author, b"committer", &self.committer)?;
        let all = size_with_rest(lines, encoding, headers, message)?;
        Some(all)
    }
}
