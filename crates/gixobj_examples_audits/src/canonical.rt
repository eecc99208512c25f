//! Canonical trees of a store: those that their files determine.
ghost use Rattle.std.specs.Prelude.{◌↔◌, IfErr, IfOk, IsTrue};
ghost use Rattle.gix_object.specs.Hash.{id_kind};
ghost use Rattle.gix_object.specs.Openings.{OfTrees};
ghost use Rattle.gix_object.specs.Tables.{IsNeverLookedUp};
ghost use Rattle.gixobj_listings.specs.Listings.{IsDirectory};
ghost use Rattle.gixobj_examples_audits.specs.Canonical.{IsCanonicalTree, IsCanonicalEntry, IsCanonicalRoot};
ghost use Rattle.gixobj_examples_audits.specs.Canonical.{IsPlainDirectory, IsUnreadBelow, NamesCanonical};

use gix_object::Find;
use gix_object::hash::{Kind, ObjectId};
use gix_object::laws::null_id_test_decides;
use gix_object::tree::{Entry, EntryKind, EntryMode};
use gixobj_listings::roots::{RootError, root_in};
use std::alloc::Global;

/// Returns `true` if a stored root is canonical, with at most `depth` trees on a path.
///
/// The empty tree is canonical. Any other tree is if it has entries, none with a null id. Each of its
/// directories has the mode `040000`, an id of the root's kind, and a canonical tree with entries in the store.
/// Trees are looked up until one isn't canonical. Allocates a buffer and the entries of each tree.
///
/// # Errors
///
/// [`RootError`] of the first tree at or below the root that isn't found or isn't well-formed. Each entry
/// before it is canonical.
pub fn is_canonical<S: Find>(
    alloc: Global,
    store: &S,
    root: ObjectId,
    depth: u32,
) -> Result<bool, RootError>
    ensures canonical { IfOk result (λ canonical. OfTrees (S.objects store.now) (λ trees.
        IsTrue canonical ↔ IsCanonicalRoot trees (id_kind root) depth root)) }
    ensures error { IfErr result (IsUnreadBelow (S.objects store.now) (S.may_fail store.now)
        (id_kind root) depth root) }
{
    if root.is_empty_tree() {
        return Ok(true);
    }
    is_canonical_tree(alloc, store, root, root.kind(), depth)
}

/// Returns `true` if the id names a canonical tree with entries.
#[cycle(checking)]
fn is_canonical_tree<S: Find>(
    alloc: Global,
    store: &S,
    id: ObjectId,
    hash: Kind,
    depth: u32,
) -> Result<bool, RootError>
    ensures canonical { IfOk result (λ canonical. OfTrees (S.objects store.now) (λ trees.
        IsTrue canonical ↔ NamesCanonical trees hash depth id)) }
    ensures error { IfErr result (IsUnreadBelow (S.objects store.now) (S.may_fail store.now) hash
        depth id) }
{
    if depth == 0 {
        return Ok(false);
    }
    if !is_looked_up(id) {
        return Ok(false);
    }
    let tree = root_in(alloc, store, id)?;
    if tree.entries.is_empty() {
        return Ok(false);
    }
    for entry in &tree.entries {
        if !is_canonical_entry(alloc, store, entry, hash, depth - 1)? {
            return Ok(false);
        }
    }
    Ok(true)
}

/// Returns `true` if an entry is canonical, with its tree.
#[cycle(checking)]
fn is_canonical_entry<S: Find>(
    alloc: Global,
    store: &S,
    entry: &Entry,
    hash: Kind,
    depth: u32,
) -> Result<bool, RootError>
    ensures canonical { IfOk result (λ canonical. OfTrees (S.objects store.now) (λ trees.
        IsTrue canonical ↔ IsCanonicalEntry trees hash (IsCanonicalTree trees hash depth) entry.now)) }
    ensures error { IfErr result (λ error. IsDirectory entry.now × IsPlainDirectory hash entry.now
        × IsUnreadBelow (S.objects store.now) (S.may_fail store.now) hash depth entry.now.id error) }
{
    null_id_test_decides();
    if entry.oid.is_null() {
        return Ok(false);
    }
    if !entry.mode.is_tree() {
        return Ok(true);
    }
    if !is_plain_directory(entry, hash) {
        return Ok(false);
    }
    is_canonical_tree(alloc, store, entry.oid, hash, depth)
}

/// Returns `true` if the entry has the mode `040000` and an id of the kind.
fn is_plain_directory(entry: &Entry, hash: Kind) -> bool
    ensures { IsTrue result ↔ IsPlainDirectory hash entry.now }
{
    entry.mode == EntryMode::from(EntryKind::Tree) && entry.oid.kind() == hash
}

/// Returns `true` if the id is neither null nor that of the empty tree.
fn is_looked_up(id: ObjectId) -> bool
    ensures { IsTrue result ↔ (¬ IsNeverLookedUp id) }
{
    null_id_test_decides();
    if id.is_null() {
        return false;
    }
    !id.is_empty_tree()
}
