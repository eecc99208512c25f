//! Objects from strangers, as `git receive-pack` takes them with `receive.fsckObjects` (`git-config`). Contents of
//! `.gitmodules` and `.gitattributes` aren't checked.
ghost use Rattle.std.specs.Prelude.{◌≡◌, All, IfErr, IfOk, OnErr, OnOk};
ghost use Rattle.std.specs.FinMap as map;
ghost use Rattle.gixobj_examples_checked.specs.Stores.{AreReceived, IsReceiveError, IsTaken};
ghost use Rattle.gixobj_fsck_objects.specs.Objects.{IsReceivedObject};
ghost use Rattle.gixobj_hash.specs.Hash.{id_of};
ghost use Rattle.gixobj_store.specs.Stores.{stored};
ghost use Rattle.gixobj_store_keep.specs.Memory.{memory_objects};

use gixobj_fsck_objects::is_object_received;
use gixobj_hash::hash::{self, ObjectId};
use gixobj_hash::{Kind, OutOfMemory};
use gixobj_store::Data;
use gixobj_store_keep::Memory;
use std::alloc::{AllocError, Global};

/// Why an object isn't taken.
#[derive(Debug, Drop, PartialEq, Eq, thiserror::Error)]
pub enum ReceiveError {
    /// Git rejects the object: one of its messages counts as an error.
    #[error("git rejects the object")]
    Rejected,
    /// An allocation failed.
    #[error("out of memory")]
    OutOfMemory,
}

impl From<AllocError> for ReceiveError {
    ghost use Rattle.std.specs.Prelude.{◌≡◌};
    ghost use Rattle.gixobj_examples_checked.specs.declared.received.ReceiveError.TheVariants as receive;

    ghost from_gives = { λ _ error. error ≡ receive.OutOfMemory };

    fn from(_: AllocError) -> ReceiveError {
        ReceiveError::OutOfMemory
    }
}

impl From<OutOfMemory> for ReceiveError {
    ghost use Rattle.std.specs.Prelude.{◌≡◌};
    ghost use Rattle.gixobj_examples_checked.specs.declared.received.ReceiveError.TheVariants as receive;

    ghost from_gives = { λ _ error. error ≡ receive.OutOfMemory };

    fn from(_: OutOfMemory) -> ReceiveError {
        ReceiveError::OutOfMemory
    }
}

/// Objects in memory, each of which git takes: [`ReceivedObjects::receive`] is the only way in.
#[derive(Debug, Drop)]
pub struct ReceivedObjects {
    alloc: Global,
    objects: Memory,
}

impl ReceivedObjects {
    /// Makes a store without objects. Allocates nothing; later calls allocate from `alloc`.
    pub fn new(alloc: Global) -> ReceivedObjects
        ensures empty { memory_objects result.objects ≡ map.empty }
        ensures received { AreReceived (memory_objects result.objects) }
    {
        ReceivedObjects {
            alloc,
            objects: Memory::new(alloc),
        }
    }

    /// Takes an object if git takes it, and returns its id. Allocates what the check and [`Memory::insert`] allocate.
    ///
    /// # Errors
    ///
    /// After an error the store is unchanged.
    ///
    /// - [`ReceiveError::Rejected`] if and only if git rejects the object
    /// - [`ReceiveError::OutOfMemory`] if an allocation fails
    pub fn receive(
        &mut self,
        kind: Kind,
        object_hash: hash::Kind,
        content: &[u8],
    ) -> Result<ObjectId, ReceiveError>
        ensures accepts { OnOk result (IsReceivedObject kind object_hash content.now) }
        ensures id { IfOk result (λ id. id ≡ id_of object_hash kind content.now) }
        ensures stored { IfOk result (λ id. memory_objects self.new.objects
            ≡ map.insert (memory_objects self.old.objects) id
            (record { kind = kind; object_hash = object_hash; bytes = content.now })) }
        ensures error { IfErr result (IsReceiveError kind object_hash content.now) }
        ensures unchanged { OnErr result
            (memory_objects self.new.objects ≡ memory_objects self.old.objects) }
        ensures received { AreReceived (memory_objects self.old.objects)
            → AreReceived (memory_objects self.new.objects) }
    {
        if !is_object_received(self.alloc, kind, object_hash, content)? {
            return Err(ReceiveError::Rejected);
        }
        Ok(self.objects.insert(kind, object_hash, content)?)
    }

    /// Returns the store for lookups. Allocates nothing.
    pub fn objects(&self) -> &Memory
        ensures { result.now ≡ self.now.objects }
    {
        &self.objects
    }
}

/// Takes objects into a new store, in order. Nothing else is in it: git takes each of its objects.
///
/// Allocates what [`ReceivedObjects::receive`] allocates for each.
///
/// # Errors
///
/// The error of the first object that isn't taken.
pub fn receive_all(alloc: Global, objects: &[Data<'_>]) -> Result<ReceivedObjects, ReceiveError>
    ensures received { IfOk result (λ it. AreReceived (memory_objects it.objects)) }
    ensures accepts { OnOk result (All (λ it. IsTaken (stored it)) objects.now) }
{
    let mut store = ReceivedObjects::new(alloc);
    for it in objects {
        let _ = store.receive(it.kind, it.object_hash, it.bytes)?;
    }
    Ok(store)
}
