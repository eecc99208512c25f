//! Writes to a store in memory that is in a cell, since the calls of [`Write`](crate::traits::Write) borrow the
//! store.
//!
//! No contract describes what a cell holds. [`Memory::write`] and [`Memory::write_stream`] say what they keep.
ghost use Rattle.std.specs.Prelude.{IfErr};
ghost use Rattle.gixobj_store_find.specs.InMemory.{IsInUse};

use crate::traits::Write;
use crate::write::Error;
use bstr::BString;
use gixobj_encode::WriteTo;
use gixobj_hash::Kind;
use gixobj_hash::hash::{self, ObjectId};
use gixobj_store_keep::Memory;
use std::alloc::Global;
use std::cell::{RefCell, RefMut};
use std::io::Read;

/// Writes with SHA-1 ids. The known id of an object is trusted.
///
/// A call fails with [`Error::Store`] while the cell is borrowed.
impl Write for RefCell<Memory> {
    ghost use Rattle.gixobj_store_find.specs.InMemory.{AnswersId, AnswersKnownId};

    ghost answers = { λ store. AnswersId };

    ghost answers_known = { λ store. AnswersKnownId };

    /// Stores the object, and returns its SHA-1 id. Allocates its encoding, and an entry of the store.
    ///
    /// # Errors
    ///
    /// - [`Error::Encode`] with the error of the encoding, if a value of the object is rejected.
    /// - [`Error::Encode`] with `Writer` of kind `OutOfMemory` or with `OutOfMemory`, or
    ///   [`Error::OutOfMemory`], if an allocation fails.
    /// - [`Error::Store`] if the cell is borrowed.
    fn write<T: WriteTo>(&self, alloc: Global, object: &T) -> Result<ObjectId, Error> {
        let mut content = Vec::new(alloc);
        object.write_to_vec(alloc, &mut content)?;
        self.write_buf(alloc, object.kind(), &content)
    }

    /// Stores an object of this kind and content, and returns its SHA-1 id. Allocates a copy of the content,
    /// and an entry of the store.
    ///
    /// # Errors
    ///
    /// - [`Error::OutOfMemory`] if an allocation fails.
    /// - [`Error::Store`] if the cell is borrowed.
    fn write_buf(&self, alloc: Global, kind: Kind, from: &[u8]) -> Result<ObjectId, Error> {
        let mut store = borrowed(alloc, self)?;
        Ok(store.insert(kind, hash::Kind::Sha1, from)?)
    }

    /// Stores an object of this kind and content under a known id. Allocates a copy of the content, and an
    /// entry of the store.
    ///
    /// # Errors
    ///
    /// - [`Error::OutOfMemory`] if an allocation fails.
    /// - [`Error::Store`] if the cell is borrowed.
    fn write_buf_with_known_id(
        &self,
        alloc: Global,
        kind: Kind,
        from: &[u8],
        id: ObjectId,
    ) -> Result<ObjectId, Error> {
        let mut store = borrowed(alloc, self)?;
        store.insert_known(id, kind, from)?;
        Ok(id)
    }

    /// Reads exactly `size` bytes, stores the object, and returns its SHA-1 id. Allocates the content, and an
    /// entry of the store.
    ///
    /// # Errors
    ///
    /// - [`Error::Read`] if the stream fails, or ends before `size` bytes.
    /// - [`Error::OutOfMemory`] if an allocation fails.
    /// - [`Error::Store`] if the cell is borrowed. Nothing has then been read.
    fn write_stream<R: Read>(
        &self,
        alloc: Global,
        kind: Kind,
        size: u64,
        from: &mut R,
    ) -> Result<ObjectId, Error> {
        let mut store = borrowed(alloc, self)?;
        store.write_stream(hash::Kind::Sha1, kind, size, from)
    }

    /// Reads exactly `size` bytes, and stores the object under a known id. Allocates the content, and an entry of
    /// the store.
    ///
    /// # Errors
    ///
    /// Those of [`Write::write_stream`].
    fn write_stream_with_known_id<R: Read>(
        &self,
        alloc: Global,
        kind: Kind,
        size: u64,
        from: &mut R,
        id: ObjectId,
    ) -> Result<ObjectId, Error> {
        let mut store = borrowed(alloc, self)?;
        store.write_stream_known(id, kind, size, from)?;
        Ok(id)
    }
}

/// Borrows the store of a cell.
fn borrowed(alloc: Global, store: &RefCell<Memory>) -> Result<RefMut<'_, Memory>, Error>
    ensures error { IfErr result IsInUse }
{
    match store.try_borrow_mut() {
        Ok(store) => Ok(store),
        Err(_) => Err(Error::Store(BString::from_slice(alloc, b"the store is in use")?)),
    }
}
