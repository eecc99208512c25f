//! Ids of objects whose content is streamed (gitformat-loose, "Loose object format").
ghost use Rattle.std.specs.Prelude.{◌≡◌, ◌≤◌, ◌↔◌, [], ℕ, List, IfErr, IfOk, IsOk, OnOk, ⊤, drop, length, take};
ghost use Rattle.gixobj_hash.specs.Hash.{id_of};
ghost use Rattle.gixobj_encode.specs.StreamHash.{AddsBytes, ReadsExactly, ReadsObject, IsStreamError, SkipsExactly};
ghost use Rattle.gixobj_encode.specs.declared.stream_hash.Error.TheVariants.{UnexpectedEof};

use crate::pieces::{BUFFER_LEN, read_piece};
use gixobj_hash::digest::{Hasher, object_hasher};
use gixobj_hash::hash::ObjectId;
use gixobj_hash::{Kind, hash};
use gixobj_streams::streams::{FromRead, Source};
use std::io;
use std::io::Read;

/// The error of [`compute_stream_hash`] and of other calls that read a stream.
///
/// A proper prefix of the content has been read.
#[derive(Debug, Drop, thiserror::Error)]
pub enum Error {
    /// The stream failed.
    #[error("the stream failed: {0}")]
    Io(io::Error),
    /// The stream ended before the content did.
    #[error("the stream ended before the content did")]
    UnexpectedEof,
}

impl From<io::Error> for Error {
    ghost use Rattle.gixobj_encode.specs.declared.stream_hash.Error.TheVariants.{Io};

    ghost from_gives = { λ cause error. error ≡ Io cause };

    fn from(error: io::Error) -> Error {
        Error::Io(error)
    }
}

/// Computes the id of an object of this kind whose content is the next `len` bytes of a reader.
///
/// The id is the digest of the loose header and the content. Exactly `len` bytes are read, in pieces of
/// at most 8192 bytes, into a buffer on the stack. An interrupted read is retried. Allocates nothing.
///
/// # Errors
///
/// - [`Error::Io`] if the reader fails.
/// - [`Error::UnexpectedEof`] if the reader ends before `len` bytes.
///
/// # Examples
///
/// ```rust
/// pub fn blob_id<R: Read>(stream: &mut R, size: u64) -> Result<ObjectId, stream_hash::Error> {
///     compute_stream_hash(HashKind::Sha1, Kind::Blob, stream, size)
/// }
/// ```
pub fn compute_stream_hash<R: Read>(
    hash: hash::Kind,
    kind: Kind,
    stream: &mut R,
    len: u64,
) -> Result<ObjectId, Error>
    ensures found { IfOk result (ReadsObject hash kind (R.remaining stream.old)
        (R.remaining stream.new) len) }
    ensures error { IfErr result (IsStreamError ⊤ (R.remaining stream.old)
        (R.remaining stream.new) len) }
{
    compute_source_hash(hash, kind, &mut FromRead(stream), len)
}

/// Computes the id of an object of this kind whose content is the next `len` bytes of a slice.
///
/// The slice then begins after these bytes. Allocates nothing.
///
/// # Errors
///
/// [`Error::UnexpectedEof`] if and only if the slice has fewer bytes. The slice is then empty.
#[tactic(auto, using(crate::proofs::StreamReads::slice_digest_ok_iff, crate::proofs::StreamReads::slice_digest_id, crate::proofs::StreamReads::slice_digest_rest, crate::proofs::StreamReads::slice_digest_error))]
pub fn compute_slice_hash(
    hash: hash::Kind,
    kind: Kind,
    input: &mut &[u8],
    len: u64,
) -> Result<ObjectId, Error>
    ensures accepts { IsOk result ↔ (len ≤ length input.old.now) }
    ensures value { IfOk result (λ id. id ≡ id_of hash kind (take len input.old.now)) }
    ensures rest { OnOk result (input.new.now ≡ drop len input.old.now) }
    ensures error { IfErr result (λ error. (error ≡ UnexpectedEof) × (input.new.now ≡ [])) }
{
    compute_source_hash(hash, kind, input, len)
}

/// Computes the id of an object of this kind whose content is the next `len` bytes of a source. Allocates
/// nothing.
///
/// # Errors
///
/// - [`Error::Io`] if the source fails. Its `may_fail` then holds.
/// - [`Error::UnexpectedEof`] if the source ends before `len` bytes.
#[tactic(auto, using(crate::proofs::StreamReads::reads_object_of_digest))]
pub fn compute_source_hash<S: Source>(
    hash: hash::Kind,
    kind: Kind,
    source: &mut S,
    len: u64,
) -> Result<ObjectId, Error>
    ensures found { IfOk result (ReadsObject hash kind (S.rest source.old) (S.rest source.new)
        len) }
    ensures error { IfErr result (IsStreamError (S.may_fail source.old) (S.rest source.old)
        (S.rest source.new) len) }
    ensures stays_valid { S.may_fail source.new → S.may_fail source.old }
    ensures same_loan { S.loan source.new ≡ S.loan source.old }
{
    let mut hasher = object_hasher(hash, kind, len);
    update_from(&mut hasher, source, len)?;
    Ok(hasher.finalize())
}

/// Reads exactly the next `len` bytes of a reader, and drops them. Allocates nothing.
///
/// # Errors
///
/// - [`Error::Io`] if the reader fails.
/// - [`Error::UnexpectedEof`] if the reader ends before `len` bytes.
pub fn skip_stream<R: Read>(stream: &mut R, len: u64) -> Result<(), Error>
    ensures remaining { OnOk result (SkipsExactly (R.remaining stream.old) (R.remaining stream.new)
        len) }
    ensures error { IfErr result (IsStreamError ⊤ (R.remaining stream.old)
        (R.remaining stream.new) len) }
{
    skip_source(&mut FromRead(stream), len)
}

/// Reads exactly the next `len` bytes of a source, and drops them. Allocates nothing.
///
/// # Errors
///
/// - [`Error::Io`] if the source fails. Its `may_fail` then holds.
/// - [`Error::UnexpectedEof`] if the source ends before `len` bytes.
pub fn skip_source<S: Source>(source: &mut S, len: u64) -> Result<(), Error>
    ensures remaining { OnOk result (SkipsExactly (S.rest source.old) (S.rest source.new) len) }
    ensures error { IfErr result (IsStreamError (S.may_fail source.old) (S.rest source.old)
        (S.rest source.new) len) }
    ensures stays_valid { S.may_fail source.new → S.may_fail source.old }
    ensures same_loan { S.loan source.new ≡ S.loan source.old }
{
    let mut buffer = [0; BUFFER_LEN];
    let mut missing = len;
    while missing > 0 {
        let count = read_piece(source, &mut buffer, missing)?;
        missing -= count as u64;
    }
    Ok(())
}

/// Appends the next `len` bytes of a source to the message that is hashed.
fn update_from<S: Source>(hasher: &mut Hasher, source: &mut S, len: u64) -> Result<(), Error>
    ensures content { OnOk result ((content : List ℕ)
        × ReadsExactly (S.rest source.old) (S.rest source.new) len content
        × AddsBytes hasher.old hasher.new content) }
    ensures error { IfErr result (IsStreamError (S.may_fail source.old) (S.rest source.old)
        (S.rest source.new) len) }
    ensures stays_valid { S.may_fail source.new → S.may_fail source.old }
    ensures same_loan { S.loan source.new ≡ S.loan source.old }
{
    let mut buffer = [0; BUFFER_LEN];
    let mut missing = len;
    while missing > 0 {
        let count = read_piece(source, &mut buffer, missing)?;
        hasher.update(&buffer[..count]);
        missing -= count as u64;
    }
    Ok(())
}
