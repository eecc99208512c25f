//! Objects that are decoded and encoded again.
ghost use Rattle.std.specs.Prelude.{◌≡◌, ◌≢◌, IfErr, IfOk, Some};
ghost use Rattle.gixobj_c_codes.specs.Codes.{hash_of_code as hash_of, kind_of_code as kind_of};
ghost use Rattle.gixobj_c_reencode.specs.Reencoding.{IsFailure, IsReencodeCall, IsReencoded, failure_of_decoding};
ghost use Rattle.gixobj_c_reencode.specs.Reencoding.{failure_of_encoding};
ghost use Rattle.gixobj_hash.specs.declared.kind.Kind.TheVariants as kind;
ghost use Rattle.gixobj_hash.specs.declared.kind.Kind.TheVariants.{Blob};

use gixobj_c_codes::buffers::write_bytes;
use gixobj_c_codes::codes::{
    MALFORMED, NOT_ENCODABLE, OUT_OF_MEMORY, UNKNOWN_CODE, hash_of_code, kind_of_code,
};
use gixobj_commit::CommitRef;
use gixobj_encode::{WriteTo, encode};
use gixobj_hash::decode::Error;
use gixobj_hash::{Kind, hash};
use gixobj_tag::TagRef;
use gixobj_tree::TreeRef;
use std::alloc::Global;

/// Decodes an object, and writes its new encoding. That of a blob is the same bytes, and allocates nothing.
#[unsafe(no_mangle)]
pub extern "C" fn gixobj_reencode(
    alloc: Global,
    hash: u8,
    kind: u8,
    bytes: &[u8],
    out: &mut [u8],
    out_len: &mut usize,
) -> u32
    ensures { IsReencodeCall (hash_of hash) (kind_of kind) bytes.now out.old out.new out_len.old
        out_len.new result }
{
    let Some(hash) = hash_of_code(hash) else {
        return UNKNOWN_CODE;
    };
    let Some(kind) = kind_of_code(kind) else {
        return UNKNOWN_CODE;
    };
    write_reencoded(alloc, hash, kind, bytes, out, out_len)
}

/// Writes the new encoding of an object, or returns why there is none.
#[tactic(auto, using(crate::proofs::Reencoded::reencode_call_of_written))]
fn write_reencoded(
    alloc: Global,
    hash: hash::Kind,
    kind: Kind,
    bytes: &[u8],
    out: &mut [u8],
    out_len: &mut usize,
) -> u32
    ensures { IsReencodeCall (Some hash) (Some kind) bytes.now out.old out.new out_len.old
        out_len.new result }
{
    if let Kind::Blob = kind {
        return write_bytes(bytes, out, out_len);
    }
    match reencoded(alloc, hash, kind, bytes) {
        Ok(encoded) => write_bytes(encoded.as_slice(), out, out_len),
        Err(Failure::Malformed) => MALFORMED,
        Err(Failure::OutOfMemory) => OUT_OF_MEMORY,
        Err(Failure::NotEncodable) => NOT_ENCODABLE,
    }
}

/// Why an object has no new encoding.
#[derive(Drop)]
enum Failure {
    /// The bytes do not decode.
    Malformed,
    /// An allocation failed.
    OutOfMemory,
    /// A value of the decoded object can't be encoded.
    NotEncodable,
}

/// Returns the failure of a decoder's error.
fn decoding_failure(error: Error) -> Failure
    ensures { result ≡ failure_of_decoding error }
{
    match error {
        Error::Malformed => Failure::Malformed,
        Error::OutOfMemory => Failure::OutOfMemory,
    }
}

/// Returns the failure of an encoder's error.
fn encoding_failure(error: encode::Error) -> Failure
    ensures { result ≡ failure_of_encoding error }
{
    match error {
        encode::Error::Writer(_) | encode::Error::OutOfMemory => Failure::OutOfMemory,
        _ => Failure::NotEncodable,
    }
}

/// Returns the new encoding of an object that is no blob.
fn reencoded(alloc: Global, hash: hash::Kind, kind: Kind, bytes: &[u8]) -> Result<Vec<u8>, Failure>
    requires { kind ≢ Blob }
    ensures encoded { IfOk result (λ it. IsReencoded hash kind bytes.now it.items) }
    ensures error { IfErr result (IsFailure hash kind bytes.now) }
{
    match kind {
        Kind::Blob => unreachable!(),
        Kind::Tree => reencoded_tree(alloc, hash, bytes),
        Kind::Commit => reencoded_commit(alloc, hash, bytes),
        Kind::Tag => reencoded_tag(alloc, hash, bytes),
    }
}

/// Returns the new encoding of a tree.
fn reencoded_tree(alloc: Global, hash: hash::Kind, bytes: &[u8]) -> Result<Vec<u8>, Failure>
    ensures encoded { IfOk result (λ it. IsReencoded hash kind.Tree bytes.now it.items) }
    ensures error { IfErr result (IsFailure hash kind.Tree bytes.now) }
{
    let tree = match TreeRef::from_bytes(alloc, bytes, hash) {
        Ok(tree) => tree,
        Err(error) => return Err(decoding_failure(error)),
    };
    let mut out = Vec::new(alloc);
    match tree.write_to_vec(alloc, &mut out) {
        Ok(()) => Ok(out),
        Err(error) => Err(encoding_failure(error)),
    }
}

/// Returns the new encoding of a commit.
fn reencoded_commit(alloc: Global, hash: hash::Kind, bytes: &[u8]) -> Result<Vec<u8>, Failure>
    ensures encoded { IfOk result (λ it. IsReencoded hash kind.Commit bytes.now it.items) }
    ensures error { IfErr result (IsFailure hash kind.Commit bytes.now) }
{
    let commit = match CommitRef::from_bytes(alloc, bytes, hash) {
        Ok(commit) => commit,
        Err(error) => return Err(decoding_failure(error)),
    };
    let mut out = Vec::new(alloc);
    match commit.write_to_vec(alloc, &mut out) {
        Ok(()) => Ok(out),
        Err(error) => Err(encoding_failure(error)),
    }
}

/// Returns the new encoding of a tag.
fn reencoded_tag(alloc: Global, hash: hash::Kind, bytes: &[u8]) -> Result<Vec<u8>, Failure>
    ensures encoded { IfOk result (λ it. IsReencoded hash kind.Tag bytes.now it.items) }
    ensures error { IfErr result (IsFailure hash kind.Tag bytes.now) }
{
    let tag = match TagRef::from_bytes(bytes, hash) {
        Ok(tag) => tag,
        Err(error) => return Err(decoding_failure(error)),
    };
    let mut out = Vec::new(alloc);
    match tag.write_to_vec(alloc, &mut out) {
        Ok(()) => Ok(out),
        Err(error) => Err(encoding_failure(error)),
    }
}
