//! Traits of stores that keep trees and commits, and a call that keeps trees in order.

ghost use Rattle.std.specs.Prelude.{◌≡◌, All, IfErr, OnErr, OnOk};
ghost use Rattle.gixobj_hash.specs.declared.hash.object_id.ObjectId.{ObjectId};
ghost use Rattle.gixobj_store_keep.specs.Keeping.{IsStoreErrorAt, IsKeepError, IsKeepCommitError, StopsKeepingAt};
ghost use Rattle.gixobj_store_keep.specs.Keeping.{with_commit, with_tree, with_trees};
ghost use Rattle.gixobj_tree.specs.TreeEncoding.{IsEncodableTree};

use bstr::BString;
use gixobj_hash::OutOfMemory;
use gixobj_hash::hash::ObjectId;
use gixobj_store::Find;
use gixobj_tree::Tree;
use std::alloc::{AllocError, AllocFailed};

/// The error of a store that keeps trees or commits: why an object is not kept.
#[derive(Debug, Drop, thiserror::Error)]
pub enum KeepError {
    /// The store failed to keep the object; the payload is the message of the store.
    #[error("{0}")]
    Store(BString),
    /// An allocation failed.
    #[error("out of memory")]
    OutOfMemory,
}

impl From<OutOfMemory> for KeepError {
    ghost use Rattle.std.specs.Prelude.{◌≡◌};
    ghost use Rattle.gixobj_store_keep.specs.declared.keeping.KeepError.TheVariants as keep;

    ghost from_gives = { λ _ error. error ≡ keep.OutOfMemory };

    fn from(_: OutOfMemory) -> KeepError {
        KeepError::OutOfMemory
    }
}

impl From<AllocError> for KeepError {
    ghost use Rattle.std.specs.Prelude.{◌≡◌};
    ghost use Rattle.gixobj_store_keep.specs.declared.keeping.KeepError.TheVariants as keep;

    ghost from_gives = { λ _ error. error ≡ keep.OutOfMemory };

    fn from(_: AllocError) -> KeepError {
        KeepError::OutOfMemory
    }
}

impl<T: Drop> From<AllocFailed<T>> for KeepError {
    ghost use Rattle.std.specs.Prelude.{◌≡◌};
    ghost use Rattle.gixobj_store_keep.specs.declared.keeping.KeepError.TheVariants as keep;

    ghost from_gives = { λ _ error. error ≡ keep.OutOfMemory };

    fn from(_: AllocFailed<T>) -> KeepError {
        KeepError::OutOfMemory
    }
}

/// An object store that keeps trees, which lookups then find. What a call allocates depends on the store.
///
/// The relation `keep_errors` says which errors a call may return. Callers that pass an error on promise that
/// it is one of these.
pub trait Keep: Find {
    ghost use Rattle.std.specs.Prelude.{List};
    ghost use Rattle.gixobj_hash.specs.declared.hash.object_id.ObjectId.{ObjectId};
    ghost use Rattle.gixobj_store_keep.specs.declared.keeping.KeepError.{KeepError};
    ghost use Rattle.gixobj_tree_entries.specs.Entries.{EntryView};

    /// In this state, keeping this tree under this id may return this error.
    ghost keep_errors: { Self → ObjectId → List EntryView → KeepError → Type 0 };

    /// Keeps the encoding of a tree under `id`, with ids of the hash kind of `id`.
    ///
    /// It replaces the object that `id` named before. After an error each id names what it named before. The
    /// call leaves the ids for which a lookup may fail unchanged.
    ///
    /// # Errors
    ///
    /// A tree with a zero byte in a name cannot be encoded, and is never kept. Each error is one that the
    /// store's `keep_errors` states for its state before the call, `id` and the tree.
    ///
    /// - [`KeepError::Store`] with the message of the store, only if the lookup of `id` may fail or the tree
    ///   cannot be encoded.
    /// - [`KeepError::OutOfMemory`] if an allocation fails.
    fn keep(&mut self, id: ObjectId, tree: &Tree) -> Result<(), KeepError>
        ensures stored { OnOk result (Self.objects self.new
            ≡ with_tree (id, tree.now) (Self.objects self.old)) }
        ensures has_encoding { OnOk result (IsEncodableTree tree.now) }
        ensures unchanged { OnErr result (Self.objects self.new ≡ Self.objects self.old) }
        ensures error { IfErr result (IsKeepError (Self.may_fail self.old) id tree.now) }
        ensures cause { IfErr result (keep_errors self.old id tree.now) }
        ensures same_may_fail { (other : ObjectId)
            → Self.may_fail self.new other ≡ Self.may_fail self.old other };
}

/// An object store that keeps commits, which lookups then find. What a call allocates depends on the store.
///
/// The relation `keep_commit_errors` says which errors a call may return. Callers that pass an error on
/// promise that it is one of these.
pub trait KeepCommit: Find {
    ghost use Rattle.std.specs.Prelude.{ℕ, List};
    ghost use Rattle.gixobj_hash.specs.declared.hash.object_id.ObjectId.{ObjectId};
    ghost use Rattle.gixobj_store_keep.specs.declared.keeping.KeepError.{KeepError};

    /// In this state, keeping a commit of these bytes under this id may return this error.
    ghost keep_commit_errors: { Self → ObjectId → List ℕ → KeepError → Type 0 };

    /// Keeps a commit of these bytes under `id`, with ids of the hash kind of `id`.
    ///
    /// It replaces the object that `id` named before. The bytes are not validated. After an error each id
    /// names what it named before. The call leaves the ids for which a lookup may fail unchanged.
    ///
    /// # Errors
    ///
    /// Each error is one that the store's `keep_commit_errors` states for its state before the call, `id` and
    /// the bytes.
    ///
    /// - [`KeepError::Store`] with the message of the store, only if the lookup of `id` may fail.
    /// - [`KeepError::OutOfMemory`] if an allocation fails.
    fn keep_commit(&mut self, id: ObjectId, bytes: &[u8]) -> Result<(), KeepError>
        ensures stored { OnOk result (Self.objects self.new
            ≡ with_commit id bytes.now (Self.objects self.old)) }
        ensures unchanged { OnErr result (Self.objects self.new ≡ Self.objects self.old) }
        ensures error { IfErr result (IsKeepCommitError (Self.may_fail self.old) id) }
        ensures cause { IfErr result (keep_commit_errors self.old id bytes.now) }
        ensures same_may_fail { (other : ObjectId)
            → Self.may_fail self.new other ≡ Self.may_fail self.old other };
}

/// Keeps trees in order, each under its id, up to the first that is not kept.
///
/// Allocates what [`Keep::keep`] allocates for each.
///
/// # Errors
///
/// The index of the first tree that is not kept, and the error that [`Keep::keep`] returned for it. The trees
/// before it are kept then, and the others are not.
pub fn keep_all<S: Keep>(
    store: &mut S,
    trees: &[(ObjectId, Tree)],
) -> Result<(), (usize, KeepError)>
    ensures stored { OnOk result (S.objects store.new
        ≡ with_trees trees.now (S.objects store.old)) }
    ensures have_encodings { OnOk result (All (λ kept. IsEncodableTree kept.1) trees.now) }
    ensures error { IfErr result (λ it.
        StopsKeepingAt (S.may_fail store.old) trees.now (S.objects store.old) (S.objects store.new)
        it.0 it.1) }
    ensures cause { IfErr result (λ it.
        IsStoreErrorAt S.objects S.keep_errors store.old trees.now it.0 it.1) }
    ensures same_may_fail { (id : ObjectId) → S.may_fail store.new id ≡ S.may_fail store.old id }
{
    for (number, (id, tree)) in trees.iter().enumerate() {
        match store.keep(*id, tree) {
            Ok(()) => {}
            Err(error) => return Err((number, error)),
        }
    }
    Ok(())
}
