//! Encodes the header of a loose object (`gitformat-loose`, "Loose object format").
ghost use Rattle.std.specs.Prelude.{◌≡◌};
ghost use Rattle.gixobj_hash.specs.Encode.{encode_loose_header};

use crate::Kind;
use itoa::Buffer;
use smallvec::SmallVec;
use std::alloc::Global;

/// Encodes the loose header of an object of this kind, whose content has `size` bytes.
///
/// The header is `<kind> <size>` and a zero byte, with the size in decimal: at most 28 bytes.
///
/// Allocates nothing: the list holds these bytes inline. `alloc` is only stored in the list.
///
/// # Examples
///
/// ```rust
/// pub fn loose_blob(alloc: Global, content: &[u8]) -> Result<Vec<u8>, OutOfMemory> {
///     let header = encode::loose_header(alloc, Kind::Blob, content.len() as u64);
///     let mut loose = Vec::from_slice(alloc, &header)?;
///     loose.extend_from_slice(content)?;
///     Ok(loose)
/// }
/// ```
pub fn loose_header(alloc: Global, kind: Kind, size: u64) -> SmallVec<u8, 28>
    ensures encoded { result.items ≡ encode_loose_header kind size }
    ensures inline { result.capacity ≡ 28 }
{
    let mut digits = Buffer::new();
    let mut header = SmallVec::new(alloc);
    header.extend_from_slice(kind.as_bytes()).unwrap();
    header.push_reserved(b' ');
    header
        .extend_from_slice(digits.format(size).as_bytes())
        .unwrap();
    header.push_reserved(0);
    header
}
