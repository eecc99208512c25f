//! Writes of objects to a store in memory.
ghost use Rattle.std.specs.Prelude.{◌≡◌, ◌<◌, ◌⊎◌, [], ℕ, List, IfErr, IfOk, None, OnErr, OnOk, ⊤};
ghost use Rattle.std.specs.FinMap as map;
ghost use Rattle.gixobj_encode.specs.StreamHash.{ReadsExactly};
ghost use Rattle.gixobj_streams.specs.Writing.{RejectsNothing};
ghost use Rattle.gixobj_hash.specs.Hash.{id_kind, id_of};
ghost use Rattle.gixobj_store.specs.Stores.{named};
ghost use Rattle.gixobj_store_keep.specs.Memory.{IsContentError, IsMemoryWriteError, memory_objects};
ghost use Rattle.gixobj_store_keep.specs.declared.write.Error.TheVariants as write_error;

use super::content::read_content;
use super::{Memory, Stored};
use crate::write::Error;
use gixobj_encode::WriteTo;
use gixobj_hash::hash::ObjectId;
use gixobj_hash::{Kind, compute_hash, hash};
use gixobj_streams::streams::FromRead;
use std::io::Read;

/// Writes
impl Memory {
    /// Writes an object, and returns its id (git-hash-object, `-w`). `object_hash` is the hash of that id and of
    /// the ids in the object.
    ///
    /// It replaces the object that the id named before. Allocates the encoding, and an entry of the store.
    ///
    /// # Errors
    ///
    /// The store is unchanged.
    ///
    /// - [`Error::Encode`] with the error of the encoding, if a value of the object is rejected.
    /// - [`Error::Encode`] with `Writer` of kind `OutOfMemory` or with `OutOfMemory`, or
    ///   [`Error::OutOfMemory`], if an allocation fails.
    ///
    /// # Examples
    ///
    /// ```rust
    /// let tree = store.write(HashKind::Sha1, &Tree::empty(alloc))?;
    /// ```
    pub fn write<T: WriteTo>(
        &mut self,
        object_hash: hash::Kind,
        object: &T,
    ) -> Result<ObjectId, Error>
        requires { T.can_write object.now }
        ensures id { IfOk result (λ id. id
            ≡ id_of object_hash (T.object_kind object.now) (T.encoding object.now)) }
        ensures inserted { IfOk result (λ id. memory_objects self.new
            ≡ map.insert (memory_objects self.old) id
            (record {
              kind = T.object_kind object.now;
              object_hash = object_hash;
              bytes = T.encoding object.now;
            })) }
        ensures encodable { OnOk result (RejectsNothing (T.rejects object.now)) }
        ensures unchanged { OnErr result (memory_objects self.new ≡ memory_objects self.old) }
        ensures error { IfErr result (IsMemoryWriteError (T.rejects object.now)
            (T.encoding object.now)) }
    {
        let mut bytes = Vec::new(self.alloc);
        object.write_to_vec(self.alloc, &mut bytes)?;
        self.insert_content(object_hash, object.kind(), bytes)
    }

    /// Writes an object with the next `size` bytes of the reader as its content, and returns its id
    /// (git-hash-object, `-w --stdin`). `object_hash` is the hash of that id and of the ids in the content.
    ///
    /// Exactly `size` bytes are read, and are not validated. The object replaces the one that the id named before.
    /// Allocates the content as it is read, and an entry of the store.
    ///
    /// # Errors
    ///
    /// The store is unchanged.
    ///
    /// - [`Error::Read`] with `Io` if the reader fails, or with `UnexpectedEof` if it ends before `size` bytes.
    ///   Fewer than `size` bytes have then been read.
    /// - [`Error::OutOfMemory`] if an allocation fails, after at most `size` bytes. It never comes for empty
    ///   content whose id the store has.
    pub fn write_stream<R: Read>(
        &mut self,
        object_hash: hash::Kind,
        kind: Kind,
        size: u64,
        from: &mut R,
    ) -> Result<ObjectId, Error>
        ensures inserted { IfOk result (λ id. (content : List ℕ)
            × ReadsExactly (R.remaining from.old) (R.remaining from.new) size content
            × (id ≡ id_of object_hash kind content)
            × (memory_objects self.new ≡ map.insert (memory_objects self.old) id
            (record { kind = kind; object_hash = object_hash; bytes = content }))) }
        ensures unchanged { OnErr result (memory_objects self.new ≡ memory_objects self.old) }
        ensures error { IfErr result (IsContentError ⊤ (R.remaining from.old) (R.remaining from.new)
            size) }
        ensures allocates { IfErr result (λ error. error ≡ write_error.OutOfMemory → (0 < size)
            ⊎ (named (memory_objects self.old) (id_of object_hash kind []) ≡ None)) }
    {
        let content = read_content(self.alloc, &mut FromRead(from), size)?;
        self.insert_content(object_hash, kind, content)
    }

    /// Writes an object as [`Memory::write_stream`] does, under a known id. The id is not validated.
    ///
    /// # Errors
    ///
    /// Those of [`Memory::write_stream`]; the store is unchanged.
    pub fn write_stream_known<R: Read>(
        &mut self,
        id: ObjectId,
        kind: Kind,
        size: u64,
        from: &mut R,
    ) -> Result<(), Error>
        ensures inserted { OnOk result ((content : List ℕ)
            × ReadsExactly (R.remaining from.old) (R.remaining from.new) size content
            × (memory_objects self.new ≡ map.insert (memory_objects self.old) id
            (record { kind = kind; object_hash = id_kind id; bytes = content }))) }
        ensures unchanged { OnErr result (memory_objects self.new ≡ memory_objects self.old) }
        ensures error { IfErr result (IsContentError ⊤ (R.remaining from.old) (R.remaining from.new)
            size) }
        ensures allocates { IfErr result (λ error. error ≡ write_error.OutOfMemory → (0 < size)
            ⊎ (named (memory_objects self.old) id ≡ None)) }
    {
        let content = read_content(self.alloc, &mut FromRead(from), size)?;
        self.insert_known_content(id, kind, content)
    }

    /// Inserts an object of this kind and content, and returns its id.
    fn insert_content(
        &mut self,
        object_hash: hash::Kind,
        kind: Kind,
        bytes: Vec<u8>,
    ) -> Result<ObjectId, Error>
        ensures id { IfOk result (λ id. id ≡ id_of object_hash kind bytes.items) }
        ensures inserted { IfOk result (λ id. memory_objects self.new
            ≡ map.insert (memory_objects self.old) id
            (record { kind = kind; object_hash = object_hash; bytes = bytes.items })) }
        ensures unchanged { OnErr result (memory_objects self.new ≡ memory_objects self.old) }
        ensures error { IfErr result (λ error. error ≡ write_error.OutOfMemory) }
        ensures allocates { OnErr result (named (memory_objects self.old)
            (id_of object_hash kind bytes.items) ≡ None) }
    {
        let id = compute_hash(object_hash, kind, &bytes);
        let stored = Stored {
            kind,
            object_hash,
            bytes,
        };
        self.objects.insert(id, stored)?;
        Ok(id)
    }

    /// Inserts an object of this kind and content under an id.
    fn insert_known_content(
        &mut self,
        id: ObjectId,
        kind: Kind,
        bytes: Vec<u8>,
    ) -> Result<(), Error>
        ensures inserted { OnOk result (memory_objects self.new
            ≡ map.insert (memory_objects self.old) id
            (record { kind = kind; object_hash = id_kind id; bytes = bytes.items })) }
        ensures unchanged { OnErr result (memory_objects self.new ≡ memory_objects self.old) }
        ensures error { IfErr result (λ error. error ≡ write_error.OutOfMemory) }
        ensures allocates { OnErr result (named (memory_objects self.old) id ≡ None) }
    {
        let stored = Stored {
            kind,
            object_hash: id.kind(),
            bytes,
        };
        self.objects.insert(id, stored)?;
        Ok(())
    }
}
