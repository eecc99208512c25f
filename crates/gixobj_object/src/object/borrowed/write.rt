//! Encoding of borrowed objects.
ghost use Rattle.gixobj_streams.specs.Writing.{IsSize};
ghost use Rattle.gixobj_object.specs.BorrowedObjects.{IsReadyToWrite, encode_borrowed_object};

use super::ObjectRef;
use gixobj_encode::WriteTo;
use gixobj_encode::encode::Error;
use gixobj_hash::Kind;
use gixobj_streams::streams::Sink;
use std::alloc::Global;

/// Encodes the tree, blob, commit or tag of the object. Allocates what that part allocates.
///
/// The hex fields of a commit must be ids, as [`ObjectRef::from_bytes`] ensures.
///
/// # Errors
///
/// The error of the encoder of that part. A blob returns only [`Error::Writer`].
impl WriteTo for ObjectRef<'_> {
    ghost use Rattle.gixobj_object.specs.BorrowedObjects.{IsReadyToWrite, IsBorrowedObjectError, borrowed_kind};
    ghost use Rattle.gixobj_object.specs.BorrowedObjects.{encode_borrowed_object};

    ghost can_write = { IsReadyToWrite };

    ghost object_kind = { borrowed_kind };

    ghost encoding = { encode_borrowed_object };

    ghost rejects = { IsBorrowedObjectError };

    fn write_into<S: Sink>(&self, alloc: Global, sink: &mut S) -> Result<(), Error> {
        match self {
            ObjectRef::Tree(tree) => tree.write_into(alloc, sink),
            ObjectRef::Blob(blob) => blob.write_into(alloc, sink),
            ObjectRef::Commit(commit) => commit.write_into(alloc, sink),
            ObjectRef::Tag(tag) => tag.write_into(alloc, sink),
        }
    }

    fn kind(&self) -> Kind {
        self.kind()
    }

    #[inline(always)]
    fn size(&self) -> Option<u64> {
        match self {
            ObjectRef::Blob(blob) => blob.size(),
            _ => Some(bytes_size(self)?),
        }
    }
}

/// Returns the size of any object. It is never inlined, so that a blob's size needs no jump and no test.
#[inline(never)]
fn bytes_size(object: &ObjectRef<'_>) -> Option<u64>
    requires { IsReadyToWrite object.now }
    ensures { IsSize result (encode_borrowed_object object.now) }
{
    match object {
        ObjectRef::Tree(tree) => tree.size(),
        ObjectRef::Blob(blob) => blob.size(),
        ObjectRef::Commit(commit) => commit.size(),
        ObjectRef::Tag(tag) => tag.size(),
    }
}
