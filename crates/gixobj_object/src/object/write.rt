//! Encoding of owned objects.

use super::Object;
use gixobj_encode::WriteTo;
use gixobj_encode::encode::Error;
use gixobj_hash::Kind;
use gixobj_streams::streams::Sink;
use std::alloc::Global;

/// Encodes the tree, blob, commit or tag of the object. Allocates what that part allocates.
///
/// # Errors
///
/// The error of the encoder of that part. A blob returns only [`Error::Writer`].
impl WriteTo for Object {
    ghost use Rattle.gixobj_object.specs.Objects.{IsOwnedObjectError, owned_kind, encode_owned_object};

    ghost object_kind = { owned_kind };

    ghost encoding = { encode_owned_object };

    ghost rejects = { IsOwnedObjectError };

    fn write_into<S: Sink>(&self, alloc: Global, sink: &mut S) -> Result<(), Error> {
        match self {
            Object::Tree(tree) => tree.write_into(alloc, sink),
            Object::Blob(blob) => blob.write_into(alloc, sink),
            Object::Commit(commit) => commit.write_into(alloc, sink),
            Object::Tag(tag) => tag.write_into(alloc, sink),
        }
    }

    fn kind(&self) -> Kind {
        self.kind()
    }

    #[inline(always)]
    fn size(&self) -> Option<u64> {
        match self {
            Object::Tree(tree) => tree.size(),
            Object::Blob(blob) => blob.size(),
            Object::Commit(commit) => commit.size(),
            Object::Tag(tag) => tag.size(),
        }
    }
}
