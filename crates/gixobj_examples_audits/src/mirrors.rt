//! Roots of two stores, and whether they have the same files.
ghost use Rattle.std.specs.Prelude.{◌≡◌, ◌↔◌, IfErr, IfOk, IsTrue};
ghost use Rattle.gix_object.specs.Hash.{id_kind};
ghost use Rattle.gix_object.specs.Openings.{OfTrees};
ghost use Rattle.gixobj_examples_audits.specs.Mirrors.{DecidesSameFiles, IsMirrorError};

pub mod laws;

use crate::canonical::is_canonical;
use gix_object::Find;
use gix_object::hash::ObjectId;
use gixobj_listings::roots::RootError;
use laws::equal_files_have_equal_ids;
use std::alloc::Global;

/// The error of [`is_mirrored`].
#[derive(Debug, Drop, thiserror::Error)]
pub enum MirrorError {
    /// The ids are of different kinds.
    #[error("the roots are named by different hash functions")]
    Kind,
    /// A tree at or below the root isn't found or isn't well-formed.
    #[error("the root: {0}")]
    Root(RootError),
    /// A tree at or below the copy isn't found or isn't well-formed.
    #[error("the copy: {0}")]
    Copy(RootError),
    /// This root isn't canonical, or has too many trees on a path.
    #[error("the tree {0} isn't canonical")]
    NotCanonical(ObjectId),
}

/// Returns `true` if a root of one store and its copy in another have the same files, at every depth.
///
/// Compares the ids of the roots alone, after a check by [`is_canonical`] that both are canonical to the depth.
/// The files of each are those in any table that agrees with its store. This holds if some table agrees with
/// both stores, and no tree has two ids of one kind in it. Allocates a buffer and the entries of each tree.
///
/// # Errors
///
/// - [`MirrorError::Kind`] if the ids are of different kinds;
/// - [`MirrorError::Root`] with the error of [`is_canonical`] for the root, or [`MirrorError::Copy`] with that
///   for the copy, which is checked only after a canonical root;
/// - [`MirrorError::NotCanonical`] with the first root that isn't canonical.
pub fn is_mirrored<S: Find, O: Find>(
    alloc: Global,
    store: &S,
    other: &O,
    root: ObjectId,
    copy: ObjectId,
    depth: u32,
) -> Result<bool, MirrorError>
    ensures same { IfOk result (λ same. OfTrees (S.objects store.now)
        (λ trees. OfTrees (O.objects other.now)
        (λ others. DecidesSameFiles trees others root copy same))) }
    ensures error { IfErr result (IsMirrorError (S.objects store.now) (S.may_fail store.now)
        (O.objects other.now) (O.may_fail other.now) root copy depth) }
{
    equal_files_have_equal_ids();
    if !have_same_kind(root, copy) {
        return Err(MirrorError::Kind);
    }
    match is_canonical(alloc, store, root, depth) {
        Ok(true) => {}
        Ok(false) => return Err(MirrorError::NotCanonical(root)),
        Err(error) => return Err(MirrorError::Root(error)),
    }
    match is_canonical(alloc, other, copy, depth) {
        Ok(true) => {}
        Ok(false) => return Err(MirrorError::NotCanonical(copy)),
        Err(error) => return Err(MirrorError::Copy(error)),
    }
    Ok(is_same_id(root, copy))
}

/// Returns `true` if the ids are of one kind.
fn have_same_kind(root: ObjectId, copy: ObjectId) -> bool
    ensures { IsTrue result ↔ (id_kind root ≡ id_kind copy) }
{
    root.kind() == copy.kind()
}

/// Returns `true` if the ids are equal.
fn is_same_id(root: ObjectId, copy: ObjectId) -> bool
    ensures { IsTrue result ↔ (root ≡ copy) }
{
    root == copy
}
