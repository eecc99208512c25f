//! The kind, the size and the id of a loose object.
ghost use Rattle.std.specs.Prelude.{◌≡◌, IfOk, IfErr};
ghost use Rattle.gixobj_cli_show.specs.Show.{IsShown, IsShowError, show_line};

use crate::failure::Failure;
use gixobj_hash::decode::loose_content;
use gixobj_hash::hash::ObjectId;
use gixobj_hash::{Kind, compute_hash, hash};
use itoa::Buffer;
use smallvec::SmallVec;
use std::alloc::Global;

/// The kind, the size and the id of an object. [`show`] makes one of a loose object.
#[derive(Clone, Copy, Debug, PartialEq, Eq)]
pub struct Shown {
    /// The kind of the object.
    pub kind: Kind,
    /// The length of the content in bytes.
    pub size: u64,
    /// The id of the object.
    pub id: ObjectId,
}

/// Decodes the loose object at the beginning of the input, and computes its id by this kind of hash.
///
/// Bytes after the object are ignored. Only the error of a malformed header allocates.
///
/// # Errors
///
/// - [`Failure::BadHeader`] if the input does not begin with a loose header.
/// - [`Failure::ShortData`] if fewer bytes follow the header than it states.
/// - [`Failure::OutOfMemory`] if the input does not begin with a loose header, and the allocation of the
///   error failed.
pub fn show(alloc: Global, hash: hash::Kind, input: &[u8]) -> Result<Shown, Failure>
    ensures found { IfOk result (λ shown. IsShown hash input.now shown.kind shown.size shown.id) }
    ensures error { IfErr result (IsShowError input.now) }
{
    let (kind, content) = loose_content(alloc, input)?;
    Ok(Shown {
        kind,
        size: content.len() as u64,
        id: compute_hash(hash, kind, content),
    })
}

impl Shown {
    /// Encodes the line `<kind> <size> <id>` with its newline, at most 93 bytes. Allocates nothing: they are
    /// inline.
    pub fn line(&self, alloc: Global) -> SmallVec<u8, 96>
        ensures encoded { result.items ≡ show_line self.now.kind self.now.size self.now.id }
        ensures inline { result.capacity ≡ 96 }
    {
        let mut digits = Buffer::new();
        let mut hex = [0u8; 64];
        let mut line = SmallVec::new(alloc);
        line.extend_from_slice(self.kind.as_bytes()).unwrap();
        line.push_reserved(b' ');
        line.extend_from_slice(digits.format(self.size).as_bytes())
            .unwrap();
        line.push_reserved(b' ');
        line.extend_from_slice(self.id.hex_to_buf(&mut hex).as_bytes())
            .unwrap();
        line.push_reserved(b'\n');
        line
    }
}
