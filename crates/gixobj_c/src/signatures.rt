//! Signatures of tags and commits, and what they sign.
ghost use Rattle.std.specs.Prelude.{◌≡◌, ◌++◌, IfOk, Some};
ghost use Rattle.gixobj_c_codes.specs.Codes.{hash_of_code as hash_of};
ghost use Rattle.gixobj_c.specs.Signatures.{IsCommitSignatureCall, IsTagSignatureCall};

use crate::spans::{Span, span_before};
use gixobj_c_codes::buffers::write_two;
use gixobj_c_codes::codes::{
    DONE, MALFORMED, NOT_FOUND, OUT_OF_MEMORY, UNKNOWN_CODE, hash_of_code,
};
use gixobj_grammar::headers::find_signature;
use gixobj_hash::OutOfMemory;
use gixobj_hash::decode::Error;
use gixobj_hash::hash::Kind;
use gixobj_parse::signature;
use std::alloc::Global;

/// Finds the signature of a tag. It signs all bytes before it. Allocates nothing.
#[tactic(auto, using(crate::proofs::SignatureCalls::signature_before_end))]
#[unsafe(no_mangle)]
pub extern "C" fn gixobj_tag_signature(tag: &[u8], out: &mut Span) -> u32
    ensures { IsTagSignatureCall tag.now out.old out.new result }
{
    let Some((position, _)) = signature::find(tag) else {
        return NOT_FOUND;
    };
    let (_, signature) = tag.split_at(position);
    let span = span_before(tag, signature, 0);
    *out = span;
    DONE
}

/// Writes the signature of a commit, and the bytes that it signs. Allocates.
#[unsafe(no_mangle)]
pub extern "C" fn gixobj_commit_signature(
    alloc: Global,
    hash: u8,
    commit: &[u8],
    signature: &mut [u8],
    signature_len: &mut usize,
    signed: &mut [u8],
    signed_len: &mut usize,
) -> u32
    ensures { IsCommitSignatureCall (hash_of hash) commit.now signature.old signature.new
        signature_len.old signature_len.new signed.old signed.new signed_len.old signed_len.new
        result }
{
    let Some(hash) = hash_of_code(hash) else {
        return UNKNOWN_CODE;
    };
    write_signature(
        alloc,
        hash,
        commit,
        signature,
        signature_len,
        signed,
        signed_len,
    )
}

/// Writes the signature of a commit with ids of this hash function.
#[tactic(auto, using(crate::proofs::SignatureCalls::signature_call_of_written))]
fn write_signature(
    alloc: Global,
    hash: Kind,
    commit: &[u8],
    signature: &mut [u8],
    signature_len: &mut usize,
    signed: &mut [u8],
    signed_len: &mut usize,
) -> u32
    ensures { IsCommitSignatureCall (Some hash) commit.now signature.old signature.new
        signature_len.old signature_len.new signed.old signed.new signed_len.old signed_len.new
        result }
{
    let header = match find_signature(alloc, commit, hash) {
        Ok(Some(found)) => found,
        Ok(None) => return NOT_FOUND,
        Err(Error::Malformed) => return MALFORMED,
        Err(Error::OutOfMemory) => return OUT_OF_MEMORY,
    };
    let Ok(payload) = joined(alloc, header.before, header.after) else {
        return OUT_OF_MEMORY;
    };
    write_two(
        &header.value,
        signature,
        signature_len,
        payload.as_slice(),
        signed,
        signed_len,
    )
}

/// Copies two slices into one list, which the call allocates.
fn joined(alloc: Global, before: &[u8], after: &[u8]) -> Result<Vec<u8>, OutOfMemory>
    ensures { IfOk result (λ it. it.items ≡ before.now ++ after.now) }
{
    let mut bytes = Vec::from_slice(alloc, before)?;
    bytes.extend_from_slice(after)?;
    Ok(bytes)
}
