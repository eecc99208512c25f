//! Writes of objects to an object store.
ghost use Rattle.std.specs.Prelude.{Some, length};
ghost use Rattle.gixobj_store_find.specs.Writers.{IsWrittenObject};

mod borrowed;
mod memory;
mod shared;

use crate::write::Error;
use gixobj_encode::WriteTo;
use gixobj_hash::Kind;
use gixobj_hash::hash::ObjectId;
use std::alloc::Global;
use std::io::Read;

/// An object store to which objects are written (git-hash-object, `-w`). The calls take the content of an
/// object, neither compressed nor with a loose header.
///
/// No contract describes what a store keeps under a shared reference. An implementation states in `answers`
/// and `answers_known` which results a stream may have. By default [`Write::write`] and
/// [`Write::write_buf`] call [`Write::write_stream`].
pub trait Write {
    ghost use Rattle.std.specs.Prelude.{ℕ, List, Option, Result};
    ghost use Rattle.gixobj_hash.specs.declared.hash.object_id.ObjectId.{ObjectId};
    ghost use Rattle.gixobj_hash.specs.declared.kind.Kind.{Kind};
    ghost use Rattle.gixobj_store_keep.specs.declared.write.Error.{Error};

    /// The results that the store may return for an object of this kind and size, and a stream of these bytes
    /// if they are known.
    ghost answers: { Self → Kind → ℕ → Option (List ℕ) → Result ObjectId Error → Type 0 };

    /// The results that the store may return for a known id, this kind and size, and a stream of these bytes
    /// if they are known.
    ghost answers_known: { Self → ObjectId → Kind → ℕ → Option (List ℕ)
        → Result ObjectId Error → Type 0 };

    /// Writes an object, and returns its id.
    ///
    /// By default it allocates the encoding, and passes it to [`Write::write_stream`]. A call that fails with
    /// one of the first two errors passes no stream.
    ///
    /// # Errors
    ///
    /// - [`Error::Encode`] with the error of the encoding, if a value of the object is rejected.
    /// - [`Error::Encode`] with `Writer` of kind `OutOfMemory`, or with `OutOfMemory`, if an allocation for the
    ///   encoding fails.
    /// - Any error that the store's `answers` states for this encoding.
    fn write<T: WriteTo>(&self, alloc: Global, object: &T) -> Result<ObjectId, Error>
        requires { T.can_write object.now }
        ensures { IsWrittenObject (answers self.now) (T.object_kind object.now)
            (T.rejects object.now) (T.encoding object.now) result }
    {
        let mut input = Vec::new(alloc);
        object.write_to_vec(alloc, &mut input)?;
        self.write_stream(
            alloc,
            object.kind(),
            input.len() as u64,
            &mut input.as_slice(),
        )
    }

    /// Writes an object of this kind and content, and returns its id.
    ///
    /// By default it allocates only in [`Write::write_stream`].
    ///
    /// # Errors
    ///
    /// The errors that the store's `answers` states for this kind and content.
    fn write_buf(&self, alloc: Global, kind: Kind, from: &[u8]) -> Result<ObjectId, Error>
        ensures { answers self.now kind (length from.now) (Some from.now) result }
    {
        let mut stream = from;
        self.write_stream(alloc, kind, from.len() as u64, &mut stream)
    }

    /// Writes an object of this kind and content whose id is known. The store may trust the id.
    ///
    /// What it allocates depends on the store.
    ///
    /// # Errors
    ///
    /// The errors that the store's `answers_known` states for this id, kind and content.
    fn write_buf_with_known_id(
        &self,
        alloc: Global,
        kind: Kind,
        from: &[u8],
        id: ObjectId,
    ) -> Result<ObjectId, Error>
        ensures { answers_known self.now id kind (length from.now) (Some from.now) result };

    /// Writes an object of this kind and size in bytes, with the stream as its content, and returns its id
    /// (git-hash-object, `-w`). What it allocates, and what remains of the stream, depends on the store.
    ///
    /// # Errors
    ///
    /// The errors that the store's `answers` states for this kind, size and stream.
    fn write_stream<R: Read>(
        &self,
        alloc: Global,
        kind: Kind,
        size: u64,
        from: &mut R,
    ) -> Result<ObjectId, Error>
        ensures { answers self.now kind size (R.remaining from.old) result };

    /// Writes an object of this kind and size in bytes, with the stream as its content, whose id is known.
    ///
    /// The store may trust the id. What it allocates, and what remains of the stream, depends on the store.
    ///
    /// # Errors
    ///
    /// The errors that the store's `answers_known` states for this id, kind, size and stream.
    fn write_stream_with_known_id<R: Read>(
        &self,
        alloc: Global,
        kind: Kind,
        size: u64,
        from: &mut R,
        id: ObjectId,
    ) -> Result<ObjectId, Error>
        ensures { answers_known self.now id kind size (R.remaining from.old) result };
}
