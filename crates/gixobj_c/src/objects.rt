//! Whether bytes are the encoding of an object.
ghost use Rattle.std.specs.Prelude.{MatchBool};
ghost use Rattle.gixobj_c_codes.specs.Codes.{hash_of_code as hash_of, kind_of_code as kind_of};
ghost use Rattle.gixobj_c.specs.Objects.{IsCheckCall, IsObject, IsTree};

use gixobj_c_codes::codes::{DONE, MALFORMED, UNKNOWN_CODE, hash_of_code, kind_of_code};
use gixobj_grammar::commits::is_commit;
use gixobj_grammar::tags::is_tag;
use gixobj_hash::{Kind, hash};
use gixobj_tree_entries::decode::decode_entry;

/// Checks whether the bytes are the encoding of an object of this kind. Allocates nothing.
#[unsafe(no_mangle)]
pub extern "C" fn gixobj_check(hash: u8, kind: u8, bytes: &[u8]) -> u32
    ensures { IsCheckCall (hash_of hash) (kind_of kind) bytes.now result }
{
    let Some(hash) = hash_of_code(hash) else {
        return UNKNOWN_CODE;
    };
    let Some(kind) = kind_of_code(kind) else {
        return UNKNOWN_CODE;
    };
    if is_object(hash, kind, bytes) {
        return DONE;
    }
    MALFORMED
}

/// Whether the bytes are the encoding of an object of this kind.
fn is_object(hash: hash::Kind, kind: Kind, bytes: &[u8]) -> bool
    ensures { MatchBool result (IsObject hash kind bytes.now) (¬ IsObject hash kind bytes.now) }
{
    match kind {
        Kind::Blob => true,
        Kind::Tree => is_tree(hash, bytes),
        Kind::Commit => is_commit(bytes, hash),
        Kind::Tag => is_tag(bytes, hash),
    }
}

/// Whether the bytes are the encoding of a tree.
fn is_tree(hash: hash::Kind, bytes: &[u8]) -> bool
    ensures { MatchBool result (IsTree hash bytes.now) (¬ IsTree hash bytes.now) }
{
    let mut rest = bytes;
    while !rest.is_empty() {
        let Some((_, following)) = decode_entry(rest, hash) else {
            return false;
        };
        rest = following;
    }
    true
}
