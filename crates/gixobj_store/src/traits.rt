//! Traits of object stores: the model of a store and the lookups in it.
ghost use Rattle.std.specs.Prelude.{◌≡◌, IfErr, IfOk, IsFalse, is_some};
ghost use Rattle.gixobj_store.specs.Stores.{IsFound, IsHeaderFound, IsFindError, named};
ghost use Rattle.gixobj_hash.specs.Hash.Borrowed.{borrowed_id};

mod impls;

use crate::data::Data;
use crate::find::Error;
use gixobj_hash::Header;
use gixobj_hash::hash::oid;

/// The model of an object store, as contracts see it. It has no calls.
///
/// A store defines its model here, and implements [`Find`], [`FindHeader`] and [`Exists`]. The model
/// determines their results.
pub trait Store {
    ghost use Rattle.std.specs.Prelude.{Bool};
    ghost use Rattle.gixobj_store.specs.Stores.{Objects};
    ghost use Rattle.gixobj_hash.specs.declared.hash.object_id.ObjectId.{ObjectId};

    /// The object that each id names.
    ghost objects: { Self → Objects };

    /// The ids for which a lookup may fail.
    ghost may_fail: { Self → ObjectId → Bool };
}

/// An object store that looks up objects by their ids.
pub trait Find: Store {
    /// Looks up the object that `id` names, or returns `None` if it names none.
    ///
    /// The content is written to `buffer`. Without an object the buffer may hold any bytes afterwards.
    /// What else the call allocates depends on the store.
    ///
    /// # Errors
    ///
    /// - [`Error::Store`], with the message of the store, only if the lookup of `id` may fail.
    /// - [`Error::OutOfMemory`] if an allocation fails.
    ///
    /// # Examples
    ///
    /// ```rust
    /// if id.to_owned() != self.id {
    ///     return self.store.try_find(id, buffer);
    /// }
    /// buffer.clear();
    /// buffer.extend_from_slice(self.object.bytes)?;
    /// Ok(Some(Data::new(buffer.as_slice(), self.object.kind, self.object.object_hash)))
    /// ```
    fn try_find<'a>(&self, id: oid<'_>, buffer: &'a mut Vec<u8>) -> Result<Option<Data<'a>>, Error>
        ensures found { IfOk result (IsFound (Self.objects self.now) (borrowed_id id.entry)) }
        ensures error { IfErr result (IsFindError (Self.may_fail self.now)
            (borrowed_id id.entry)) };
}

/// An object store that looks up the kinds and the sizes of objects.
pub trait FindHeader: Store {
    /// Looks up the kind and the size in bytes of the object that `id` names, or returns `None` if it names
    /// none. What the call allocates depends on the store.
    ///
    /// # Errors
    ///
    /// - [`Error::Store`], with the message of the store, only if the lookup of `id` may fail.
    /// - [`Error::OutOfMemory`] if an allocation fails.
    fn try_header(&self, id: oid<'_>) -> Result<Option<Header>, Error>
        ensures found { IfOk result (IsHeaderFound (Self.objects self.now) (borrowed_id id.entry)) }
        ensures error { IfErr result (IsFindError (Self.may_fail self.now)
            (borrowed_id id.entry)) };
}

/// An object store that knows which objects it has.
pub trait Exists: Store {
    /// Returns whether `id` names an object. The result may be either if the lookup of `id` may fail.
    /// What the call allocates depends on the store.
    fn exists(&self, id: oid<'_>) -> bool
        ensures { IsFalse (Self.may_fail self.now (borrowed_id id.entry))
            → result ≡ is_some (named (Self.objects self.now) (borrowed_id id.entry)) };
}

/// An object store that looks up objects and their headers. Every store with both lookups implements it.
pub trait FindObjectOrHeader: Find + FindHeader {}

impl<T: Find + FindHeader> FindObjectOrHeader for T {}
