//! Ids of objects.
ghost use Rattle.gixobj_c_codes.specs.Codes.{hash_of_code as hash_of, kind_of_code as kind_of};
ghost use Rattle.gixobj_c.specs.Objects.{IsIdCall, IsVerifyCall};

use gixobj_c_codes::buffers::write_prefix;
use gixobj_c_codes::codes::{DONE, MISMATCH, UNKNOWN_CODE, hash_of_code, kind_of_code};
use gixobj_hash::compute_hash;

/// Writes the id of the object of this kind and content at the beginning of `id` (git-hash-object): 20 bytes of
/// SHA-1, or 32 of SHA-256. Allocates nothing.
#[unsafe(no_mangle)]
pub extern "C" fn gixobj_id(hash: u8, kind: u8, content: &[u8], id: &mut [u8]) -> u32
    ensures { IsIdCall (hash_of hash) (kind_of kind) content.now id.old id.new result }
{
    let Some(hash) = hash_of_code(hash) else {
        return UNKNOWN_CODE;
    };
    let Some(kind) = kind_of_code(kind) else {
        return UNKNOWN_CODE;
    };
    let digest = compute_hash(hash, kind, content);
    write_prefix(digest.as_bytes(), id)
}

/// Checks whether `id` is the id of the object of this kind and content. Allocates nothing.
#[unsafe(no_mangle)]
pub extern "C" fn gixobj_verify(hash: u8, kind: u8, content: &[u8], id: &[u8]) -> u32
    ensures { IsVerifyCall (hash_of hash) (kind_of kind) content.now id.now result }
{
    let Some(hash) = hash_of_code(hash) else {
        return UNKNOWN_CODE;
    };
    let Some(kind) = kind_of_code(kind) else {
        return UNKNOWN_CODE;
    };
    let digest = compute_hash(hash, kind, content);
    if digest.as_bytes() == id {
        return DONE;
    }
    MISMATCH
}
