//! A store in memory that counts its lookups, and in which those of two ids fail.
ghost use Rattle.gixobj_store_keep.specs.Memory.{memory_objects};

use bstr::BString;
use gixobj_base::hash::{ObjectId, oid};
use gixobj_store::{Data, Find, Store, find};
use gixobj_store_keep::Memory;
use std::alloc::Global;
use std::cell::Cell;

/// The id whose lookup fails with the message [`MESSAGE`].
pub(crate) const UNREADABLE: ObjectId = ObjectId::Sha1([4; 20]);

/// The id whose lookup runs out of memory.
pub(crate) const TOO_LARGE: ObjectId = ObjectId::Sha1([5; 20]);

/// The message of the error of a lookup that fails.
pub(crate) const MESSAGE: &[u8] = b"unreadable";

/// A store of the objects of another, in which the lookups of [`UNREADABLE`] and [`TOO_LARGE`] fail.
#[derive(Drop)]
pub(crate) struct Faulty {
    /// The allocator.
    pub(crate) alloc: Global,
    /// The objects of the other ids.
    pub(crate) objects: Memory,
    /// The number of lookups, failed ones included.
    pub(crate) lookups: Cell<u64>,
}

/// Every lookup may fail.
impl Store for Faulty {
    ghost use Rattle.std.specs.Prelude.{true};

    ghost objects = { λ store. memory_objects store.objects };

    ghost may_fail = { λ store id. true };
}

impl Find for Faulty {
    fn try_find<'a>(
        &self,
        id: oid<'_>,
        buffer: &'a mut Vec<u8>,
    ) -> Result<Option<Data<'a>>, find::Error> {
        self.lookups.set(self.lookups.get().saturating_add(1));
        let wanted = id.to_owned();
        if wanted == UNREADABLE {
            return Err(find::Error::Store(BString::from_slice(self.alloc, MESSAGE)?));
        }
        if wanted == TOO_LARGE {
            return Err(find::Error::OutOfMemory);
        }
        self.objects.try_find(id, buffer)
    }
}
