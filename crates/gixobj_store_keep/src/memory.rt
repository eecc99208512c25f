//! An object store in memory.

ghost use Rattle.std.specs.Prelude.{◌≡◌, ◌↔◌, IfErr, IfOk, IsOk, IsSome, IsTrue, OnErr, OnOk, is_some};
ghost use Rattle.std.specs.FinMap as map;
ghost use Rattle.gixobj_store.specs.Stores.{IsFound, IsHeaderFound, named};
ghost use Rattle.gixobj_store.specs.declared.find.Error.TheVariants as find_error;
ghost use Rattle.gixobj_hash.specs.Hash.{id_kind, id_of};
ghost use Rattle.gixobj_hash.specs.Hash.Borrowed.{borrowed_id};
ghost use Rattle.gixobj_store_keep.specs.Memory.{IsForAValue, IsUnwritten, memory_objects, remaining_ids};

mod content;
mod ids;
mod writes;

use crate::{Keep, KeepCommit, KeepError};
use bstr::BString;
use gixobj_encode::{WriteTo, encode};
use gixobj_hash::hash::{ObjectId, oid};
use gixobj_hash::{Header, Kind, OutOfMemory, compute_hash, hash};
use gixobj_store::{Data, Exists, Find, FindHeader, Store, find};
use gixobj_tree::Tree;
pub use ids::MemoryIds;
use std::alloc::Global;
use std::collections::BTreeMap;

/// An object store that keeps its objects in memory, by id. [`Memory::new`] makes one.
#[derive(Debug, Drop)]
pub struct Memory {
    alloc: Global,
    objects: BTreeMap<ObjectId, Stored>,
}

/// A kept object.
#[derive(Debug, Drop)]
struct Stored {
    kind: Kind,
    object_hash: hash::Kind,
    bytes: Vec<u8>,
}

impl Memory {
    /// Makes a store without objects. Allocates nothing; later calls allocate from `alloc`.
    pub fn new(alloc: Global) -> Memory
        ensures { memory_objects result ≡ map.empty }
    {
        Memory {
            alloc,
            objects: BTreeMap::new(alloc),
        }
    }

    /// Stores `bytes` as an object of `kind`, and returns its id. `object_hash` is the hash of that id and of
    /// the ids in `bytes`.
    ///
    /// It replaces the object that the id named before. The bytes are not validated. Allocates a copy of
    /// `bytes`, and an entry of the store.
    ///
    /// # Errors
    ///
    /// [`OutOfMemory`] if an allocation fails; then the store is unchanged.
    ///
    /// # Examples
    ///
    /// ```rust
    /// fn store(alloc: Global) -> Result<Memory, OutOfMemory> {
    ///     let mut store = Memory::new(alloc);
    ///     store.insert(Kind::Tree, HashKind::Sha1, TREE_BYTES)?;
    ///     store.insert(Kind::Commit, HashKind::Sha1, FIRST_BYTES)?;
    ///     Ok(store)
    /// }
    /// ```
    pub fn insert(
        &mut self,
        kind: Kind,
        object_hash: hash::Kind,
        bytes: &[u8],
    ) -> Result<ObjectId, OutOfMemory>
        ensures id { IfOk result (λ id. id ≡ id_of object_hash kind bytes.now) }
        ensures inserted { IfOk result (λ id. memory_objects self.new
            ≡ map.insert (memory_objects self.old) id
            (record { kind = kind; object_hash = object_hash; bytes = bytes.now })) }
        ensures unchanged { OnErr result (memory_objects self.new ≡ memory_objects self.old) }
    {
        let id = compute_hash(object_hash, kind, bytes);
        let stored = Stored {
            kind,
            object_hash,
            bytes: Vec::from_slice(self.alloc, bytes)?,
        };
        self.objects.insert(id, stored)?;
        Ok(id)
    }

    /// Stores `bytes` as an object of `kind` under a known id, whose hash is that of the ids in `bytes`.
    ///
    /// It replaces the object that the id named before. Neither the id nor the bytes are validated. Allocates
    /// a copy of `bytes`, and an entry of the store.
    ///
    /// # Errors
    ///
    /// [`OutOfMemory`] if an allocation fails; then the store is unchanged.
    pub fn insert_known(
        &mut self,
        id: ObjectId,
        kind: Kind,
        bytes: &[u8],
    ) -> Result<(), OutOfMemory>
        ensures inserted { OnOk result (memory_objects self.new
            ≡ map.insert (memory_objects self.old) id
            (record { kind = kind; object_hash = id_kind id; bytes = bytes.now })) }
        ensures unchanged { OnErr result (memory_objects self.new ≡ memory_objects self.old) }
    {
        let stored = Stored {
            kind,
            object_hash: id.kind(),
            bytes: Vec::from_slice(self.alloc, bytes)?,
        };
        self.objects.insert(id, stored)?;
        Ok(())
    }
}

/// Access
impl Memory {
    /// Returns the number of objects. Allocates nothing.
    pub fn len(&self) -> usize
        ensures { result ≡ map.len (memory_objects self.now) }
    {
        self.objects.len()
    }

    /// Returns whether the store has no object. Allocates nothing.
    #[tactic(auto, using(crate::proofs::IdsInOrder::objects_len_zero_iff))]
    pub fn is_empty(&self) -> bool
        ensures { IsTrue result ↔ (memory_objects self.now ≡ map.empty) }
    {
        self.len() == 0
    }

    /// Returns an iterator over the ids of the objects, in the order of their bytes. Allocates nothing.
    ///
    /// # Examples
    ///
    /// ```rust
    /// for id in store.ids() {
    ///     ids.push(id)?;
    /// }
    /// ```
    pub fn ids(&self) -> MemoryIds<'_>
        ensures { remaining_ids result ≡ map.keys (memory_objects self.now) }
    {
        MemoryIds {
            keys: self.objects.keys(),
        }
    }
}

impl Store for Memory {
    ghost use Rattle.std.specs.Prelude.{false};

    ghost objects = { memory_objects };

    ghost may_fail = { λ store id. false };
}

/// Lookups allocate a copy of the found object, and fail only if that allocation fails.
impl Find for Memory {
    #[tactic(auto, using(crate::proofs::Objects::named_memory_objects))]
    fn try_find<'a>(
        &self,
        id: oid<'_>,
        buffer: &'a mut Vec<u8>,
    ) -> Result<Option<Data<'a>>, find::Error>
        ensures found { IfOk result (IsFound (memory_objects self.now) (borrowed_id id.entry)) }
        ensures error { IfErr result (λ error. (error ≡ find_error.OutOfMemory)
            × IsSome (named (memory_objects self.now) (borrowed_id id.entry))) }
    {
        let Some(stored) = self.objects.get(&id.to_owned()) else {
            return Ok(None);
        };
        buffer.clear();
        buffer.extend_from_slice(&stored.bytes)?;
        Ok(Some(Data::new(buffer.as_slice(), stored.kind, stored.object_hash)))
    }
}

/// Lookups of headers never fail. Allocates nothing.
impl FindHeader for Memory {
    #[tactic(auto, using(crate::proofs::Objects::named_memory_objects))]
    fn try_header(&self, id: oid<'_>) -> Result<Option<Header>, find::Error>
        ensures found { IfOk result (IsHeaderFound (memory_objects self.now)
            (borrowed_id id.entry)) }
        ensures no_error { IsOk result }
    {
        let Some(stored) = self.objects.get(&id.to_owned()) else {
            return Ok(None);
        };
        Ok(Some(Header {
            kind: stored.kind,
            size: stored.bytes.len() as u64,
        }))
    }
}

/// Returns whether an id names an object of the store. Allocates nothing.
impl Exists for Memory {
    #[tactic(auto, using(crate::proofs::Objects::named_memory_objects))]
    fn exists(&self, id: oid<'_>) -> bool
        ensures { result ≡ is_some (named (memory_objects self.now) (borrowed_id id.entry)) }
    {
        self.objects.contains_key(&id.to_owned())
    }
}

/// Keeping fails with [`KeepError::Store`] only for a tree with a zero byte in a name, and with
/// [`KeepError::OutOfMemory`] if an allocation fails. Allocates the encoding of the tree, and an entry of the
/// store.
impl Keep for Memory {
    ghost use Rattle.gixobj_store_keep.specs.Memory.{IsMemoryKeepError};

    ghost keep_errors = { λ store id. IsMemoryKeepError };

    fn keep(&mut self, id: ObjectId, tree: &Tree) -> Result<(), KeepError> {
        let mut bytes = Vec::new(self.alloc);
        match tree.write_to_vec(self.alloc, &mut bytes) {
            Ok(()) => {}
            Err(error) => return Err(unwritten(self.alloc, error)),
        }
        let written = Stored {
            kind: Kind::Tree,
            object_hash: id.kind(),
            bytes,
        };
        self.objects.insert(id, written)?;
        Ok(())
    }
}

/// Keeping fails only if an allocation fails. Allocates a copy of the bytes, and an entry of the store.
impl KeepCommit for Memory {
    ghost use Rattle.std.specs.Prelude.{◌≡◌};
    ghost use Rattle.gixobj_store_keep.specs.declared.keeping.KeepError.TheVariants as keep;

    ghost keep_commit_errors = { λ store id bytes error. error ≡ keep.OutOfMemory };

    fn keep_commit(&mut self, id: ObjectId, bytes: &[u8]) -> Result<(), KeepError> {
        let commit = Stored {
            kind: Kind::Commit,
            object_hash: id.kind(),
            bytes: Vec::from_slice(self.alloc, bytes)?,
        };
        self.objects.insert(id, commit)?;
        Ok(())
    }
}

/// Converts the error of a tree that was not encoded: a zero byte in a name, or out of memory.
fn unwritten(alloc: Global, error: encode::Error) -> KeepError
    ensures { IsUnwritten (IsForAValue error) result }
{
    match error {
        encode::Error::Writer(_) | encode::Error::OutOfMemory => KeepError::OutOfMemory,
        _ => match BString::from_slice(alloc, b"a file name with a zero byte") {
            Ok(message) => KeepError::Store(message),
            Err(_) => KeepError::OutOfMemory,
        },
    }
}
