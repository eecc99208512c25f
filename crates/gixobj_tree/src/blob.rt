//! Blobs, which are the contents of files.
ghost use Rattle.std.specs.Prelude.{◌≡◌, IfOk};

use gixobj_encode::{WriteTo, encode};
use gixobj_hash::{Kind, OutOfMemory};
use gixobj_streams::streams::Sink;
use std::alloc::Global;

/// The content of a file, borrowed. [`BlobRef::from_bytes`] makes one.
#[derive(Clone, Copy, Debug, PartialEq, Eq, PartialOrd, Ord, Hash)]
pub struct BlobRef<'a> {
    /// The content.
    pub bytes: &'a [u8],
}

impl<'a> BlobRef<'a> {
    /// Creates the blob of these bytes. All bytes are a valid blob. Allocates nothing.
    pub fn from_bytes(bytes: &'a [u8]) -> BlobRef<'a>
        ensures { result.bytes.now ≡ bytes.now }
    {
        BlobRef { bytes }
    }

    /// Copies the blob into an owned [`Blob`]. The copy of the content allocates.
    ///
    /// # Errors
    ///
    /// [`OutOfMemory`] if the allocation of the copy failed.
    pub fn into_owned(self, alloc: Global) -> Result<Blob, OutOfMemory>
        ensures { IfOk result (λ blob. blob.bytes.items ≡ self.entry.bytes.now) }
    {
        Ok(Blob {
            bytes: Vec::from_slice(alloc, self.bytes)?,
        })
    }
}

/// The content of a file, owned. [`BlobRef::into_owned`] makes one.
#[derive(Clone, Debug, Drop, PartialEq, Eq, PartialOrd, Ord, Hash)]
pub struct Blob {
    /// The content.
    pub bytes: Vec<u8>,
}

impl Blob {
    /// Borrows the blob. Allocates nothing.
    pub fn to_ref(&self) -> BlobRef<'_>
        ensures { result.bytes.now ≡ self.now.bytes.items }
    {
        BlobRef {
            bytes: self.bytes.as_slice(),
        }
    }
}

/// The encoding of a blob is its bytes. No value is rejected.
impl WriteTo for BlobRef<'_> {
    ghost use Rattle.gixobj_hash.specs.declared.kind.Kind.TheVariants as kind;

    ghost object_kind = { λ _. kind.Blob };

    ghost encoding = { λ blob. blob.bytes.now };

    ghost rejects = { λ _ _ _. ⊥ };

    fn write_into<S: Sink>(&self, alloc: Global, sink: &mut S) -> Result<(), encode::Error> {
        sink.write_bytes(self.bytes)?;
        Ok(())
    }

    fn kind(&self) -> Kind {
        Kind::Blob
    }

    fn size(&self) -> Option<u64> {
        Some(self.bytes.len() as u64)
    }
}

/// The encoding of a blob is its bytes. No value is rejected.
impl WriteTo for Blob {
    ghost use Rattle.gixobj_hash.specs.declared.kind.Kind.TheVariants as kind;

    ghost object_kind = { λ _. kind.Blob };

    ghost encoding = { λ blob. blob.bytes.items };

    ghost rejects = { λ _ _ _. ⊥ };

    fn write_into<S: Sink>(&self, alloc: Global, sink: &mut S) -> Result<(), encode::Error> {
        self.to_ref().write_into(alloc, sink)
    }

    fn kind(&self) -> Kind {
        self.to_ref().kind()
    }

    fn size(&self) -> Option<u64> {
        self.to_ref().size()
    }
}
