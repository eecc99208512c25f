//! Lookups of headers of objects that have to exist.
ghost use Rattle.std.specs.Prelude.{◌≡◌, IfErr, IfOk};
ghost use Rattle.gixobj_store.specs.Stores.{Names, StoredObject, header};
ghost use Rattle.gixobj_hash.specs.Hash.Borrowed.{borrowed_id};
ghost use Rattle.gixobj_store_find.specs.Existing.{IsExistingError};

use crate::find::existing;
use gixobj_hash::Header;
use gixobj_hash::hash::oid;
use gixobj_store::FindHeader;

/// Lookups of headers of objects that have to exist (git-cat-file, `-t` and `-s`). Implemented for every
/// [`FindHeader`].
pub trait HeaderExt: FindHeader {
    /// Looks up the kind of the object that `id` names, and the size of its content in bytes. Allocates only
    /// in the lookup.
    ///
    /// # Errors
    ///
    /// - [`existing::Error::Find`] with the error of the lookup if it fails.
    /// - [`existing::Error::NotFound`] with `id` if it names no object.
    final fn header(&self, id: oid<'_>) -> Result<Header, existing::Error>
        ensures found { IfOk result (λ it. (kept : StoredObject)
            × Names (Self.objects self.now) (borrowed_id id.entry) kept × (it ≡ header kept)) }
        ensures error { IfErr result (IsExistingError (Self.objects self.now)
            (Self.may_fail self.now) (borrowed_id id.entry)) }
    {
        match self.try_header(id)? {
            Some(header) => Ok(header),
            None => Err(existing::Error::NotFound { oid: id.to_owned() }),
        }
    }
}

impl<T: FindHeader> HeaderExt for T {}
