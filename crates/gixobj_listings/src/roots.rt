//! Lookups of trees in a store.
ghost use Rattle.std.specs.Prelude.{IfErr, IfOk};
ghost use Rattle.gixobj_listings.specs.Roots.{IsRoot, IsRootError};

use gix_object::find::existing_object;
use gix_object::hash::ObjectId;
use gix_object::{Find, FindExt, Tree};
use std::alloc::Global;

/// The error of [`root_in`].
#[derive(Debug, Drop, thiserror::Error)]
pub enum RootError {
    /// The lookup failed, for this cause.
    #[error("{0}")]
    Find(existing_object::Error),
    /// The stored tree isn't well-formed, as `Tree::is_well_formed` reports.
    #[error("the root isn't well-formed")]
    Malformed,
    /// Allocation of the entries failed; the tree has entries.
    #[error("out of memory")]
    OutOfMemory,
}

/// Returns the well-formed tree with this id from a store. For the empty tree's id it has no entries, and
/// isn't looked up.
///
/// Allocates a buffer, and the entries of the tree.
///
/// # Errors
///
/// - [`RootError::Find`] with the lookup's error, if the id names no tree that decodes, or the lookup fails;
/// - [`RootError::Malformed`] if the stored tree isn't well-formed;
/// - [`RootError::OutOfMemory`] if allocation of its entries fails.
pub fn root_in<S: Find>(alloc: Global, store: &S, id: ObjectId) -> Result<Tree, RootError>
    ensures found { IfOk result (λ root. IsRoot (S.objects store.now) id root) }
    ensures error { IfErr result (IsRootError (S.objects store.now) (S.may_fail store.now) id) }
{
    let mut content = Vec::new(alloc);
    let stored = match store.find_tree(alloc, id.as_oid(), &mut content) {
        Ok(stored) => stored,
        Err(error) => return Err(RootError::Find(error)),
    };
    let root = match stored.into_owned(alloc) {
        Ok(root) => root,
        Err(_) => return Err(RootError::OutOfMemory),
    };
    if !root.is_well_formed() {
        return Err(RootError::Malformed);
    }
    Ok(root)
}
