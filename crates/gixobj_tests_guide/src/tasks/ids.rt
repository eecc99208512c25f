//! An id from hex and to hex.

use gix_object::hash::{ObjectId, verify};
use gix_object::{Kind, compute_hash};

/// Writes an id in lower-case hex. `None` if `hex` isn't 40 or 64 hex digits.
pub fn in_lower_case<'a>(hex: &[u8], buffer: &'a mut [u8; 64]) -> Option<&'a str> {
    let id = ObjectId::from_hex(hex)?;
    Some(id.hex_to_buf(buffer))
}

/// Verifies that an object of this kind and content has the expected id.
pub fn verify_content(kind: Kind, content: &[u8], expected: ObjectId) -> Result<(), verify::Error> {
    compute_hash(expected.kind(), kind, content).verify(expected.as_oid())
}
