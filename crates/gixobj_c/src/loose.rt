//! Headers of loose objects, without a copy of what is invalid (gitformat-loose, "Loose object format").
ghost use Rattle.std.specs.Prelude.{◌≡◌, MatchOption};
ghost use Rattle.std.specs.Str.Parse.{starts_with_minus};
ghost use Rattle.gixobj_c.specs.Loose.{IsInvalidSize, IsLooseHeaderCall};
ghost use Rattle.gixobj_hash.specs.Decode.{DecodesToSize, size_digits};

use gixobj_c_codes::codes::{DONE, INVALID_SIZE, MALFORMED, UNKNOWN_KIND, kind_code};
use gixobj_hash::Kind;
use gixobj_hash::split::{are_digits, number_from_digits, split_at_byte};

/// The header of a loose object.
#[repr(C)]
#[derive(Clone, Copy)]
pub struct LooseHeader {
    /// The number of bytes of the content, as the header states it.
    pub size: u64,
    /// The number of bytes of the header.
    pub len: usize,
    /// The number of the kind.
    pub kind: u8,
}

/// Decodes the loose header at the beginning of the input. Allocates nothing.
#[unsafe(no_mangle)]
pub extern "C" fn gixobj_loose_header(input: &[u8], out: &mut LooseHeader) -> u32
    ensures { IsLooseHeaderCall input.now out.old out.new result }
{
    let Some((token, after)) = split_at_byte(input, b' ') else {
        return MALFORMED;
    };
    let Some(kind) = Kind::from_name(token) else {
        return UNKNOWN_KIND;
    };
    let Some((size_bytes, _)) = split_at_byte(after, 0) else {
        return MALFORMED;
    };
    let Some(size) = size_from_bytes(size_bytes) else {
        return INVALID_SIZE;
    };
    *out = LooseHeader {
        size,
        len: token.len() + size_bytes.len() + 2,
        kind: kind_code(kind),
    };
    DONE
}

/// Decodes a size: at most one sign, and then decimal digits. Returns `None` if it is invalid.
fn size_from_bytes(bytes: &[u8]) -> Option<u64>
    ensures { MatchOption result (IsInvalidSize bytes.now) (DecodesToSize bytes.now) }
{
    let (is_negative, digits) = split_sign(bytes);
    if digits.is_empty() {
        return None;
    }
    if !are_digits(digits) {
        return None;
    }
    match number_from_digits(digits) {
        Some(0) => Some(0),
        _ if is_negative => None,
        decoded => decoded,
    }
}

/// Returns whether the bytes begin with a minus, and the bytes after a sign.
fn split_sign(bytes: &[u8]) -> (bool, &[u8])
    ensures sign { result.0 ≡ starts_with_minus bytes.now }
    ensures digits { result.1.now ≡ size_digits bytes.now }
{
    match bytes {
        [b'-', digits @ ..] => (true, digits),
        [b'+', digits @ ..] => (false, digits),
        _ => (false, bytes),
    }
}
