//! The numbers of hash functions and of kinds of objects, and the statuses of the calls.
ghost use Rattle.std.specs.Prelude.{◌≡◌};
ghost use Rattle.gixobj_c_codes.specs.Codes.{hash_of_code, kind_code, kind_of_code};

use gixobj_hash::{Kind, hash};

/// The call succeeded.
pub const DONE: u32 = 0;
/// No byte follows the offset.
pub const AT_END: u32 = 1;
/// The bytes do not decode.
pub const MALFORMED: u32 = 2;
/// An allocation failed.
pub const OUT_OF_MEMORY: u32 = 3;
/// The number of a hash function, a kind or a state is unknown.
pub const UNKNOWN_CODE: u32 = 4;
/// A buffer is too short.
pub const BUFFER_TOO_SHORT: u32 = 5;
/// The offset is after the end.
pub const BAD_OFFSET: u32 = 6;
/// A loose header has an unknown kind.
pub const UNKNOWN_KIND: u32 = 7;
/// A loose header has an invalid size.
pub const INVALID_SIZE: u32 = 8;
/// There is none.
pub const NOT_FOUND: u32 = 9;
/// The object decodes, and one of its values can't be encoded.
pub const NOT_ENCODABLE: u32 = 10;
/// The id is another one.
pub const MISMATCH: u32 = 11;

/// A line of a script is neither empty nor a command.
pub const BAD_LINE: u32 = 12;
/// A name of a path is invalid.
pub const INVALID_NAME: u32 = 14;
/// The path of a leaf is that of a directory.
pub const IS_DIRECTORY: u32 = 15;
/// A tree does not decode, or is not well-formed.
pub const MALFORMED_TREE: u32 = 16;

/// Returns the hash function of this number, or `None`.
pub fn hash_of_code(code: u8) -> Option<hash::Kind>
    ensures { result ≡ hash_of_code code }
{
    match code {
        1 => Some(hash::Kind::Sha1),
        2 => Some(hash::Kind::Sha256),
        _ => None,
    }
}

/// Returns the kind of this number, or `None`. The numbers are those of gitformat-pack, "Object types".
pub fn kind_of_code(code: u8) -> Option<Kind>
    ensures { result ≡ kind_of_code code }
{
    match code {
        1 => Some(Kind::Commit),
        2 => Some(Kind::Tree),
        3 => Some(Kind::Blob),
        4 => Some(Kind::Tag),
        _ => None,
    }
}

/// Returns the number of a kind.
pub fn kind_code(kind: Kind) -> u8
    ensures { result ≡ kind_code kind }
{
    match kind {
        Kind::Commit => 1,
        Kind::Tree => 2,
        Kind::Blob => 3,
        Kind::Tag => 4,
    }
}
