//! Extra headers of commits, by name.
ghost use Rattle.std.specs.Prelude.{Some};
ghost use Rattle.gixobj_c_codes.specs.Codes.{hash_of_code as hash_of};
ghost use Rattle.gixobj_c.specs.Headers.{IsCommitHeaderCall};

use gixobj_c_codes::buffers::write_bytes;
use gixobj_c_codes::codes::{MALFORMED, NOT_FOUND, OUT_OF_MEMORY, UNKNOWN_CODE, hash_of_code};
use gixobj_grammar::headers::find_header;
use gixobj_hash::decode::Error;
use gixobj_hash::hash::Kind;
use std::alloc::Global;

/// Writes the value of the first extra header of this name in a commit. Headers of several lines allocate, up to that
/// one.
#[unsafe(no_mangle)]
pub extern "C" fn gixobj_commit_header(
    alloc: Global,
    hash: u8,
    commit: &[u8],
    name: &[u8],
    out: &mut [u8],
    out_len: &mut usize,
) -> u32
    ensures { IsCommitHeaderCall (hash_of hash) commit.now name.now out.old out.new out_len.old
        out_len.new result }
{
    let Some(hash) = hash_of_code(hash) else {
        return UNKNOWN_CODE;
    };
    write_header(alloc, hash, commit, name, out, out_len)
}

/// Writes the value of the first header of this name in a commit with ids of this hash function.
#[tactic(auto, using(crate::proofs::HeaderCalls::header_call_of_written))]
fn write_header(
    alloc: Global,
    hash: Kind,
    commit: &[u8],
    name: &[u8],
    out: &mut [u8],
    out_len: &mut usize,
) -> u32
    ensures { IsCommitHeaderCall (Some hash) commit.now name.now out.old out.new
        out_len.old out_len.new
        result }
{
    match find_header(alloc, commit, hash, name) {
        Ok(Some(header)) => write_bytes(&header.value, out, out_len),
        Ok(None) => NOT_FOUND,
        Err(Error::Malformed) => MALFORMED,
        Err(Error::OutOfMemory) => OUT_OF_MEMORY,
    }
}
