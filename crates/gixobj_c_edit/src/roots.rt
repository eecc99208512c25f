//! The root that is edited.
ghost use Rattle.std.specs.Prelude.{◌≢◌, ◌↔◌, IfErr, IfNone, IfOk, IfSome, IsTrue, length};
ghost use Rattle.gixobj_editor_lookups.specs.Openings.{NamesTree};
ghost use Rattle.gixobj_c_edit.specs.Roots.{IsIdOf, IsRootError, IsRootOf, IsTreeError, IsTreeFailure, IsTreeOf};
ghost use Rattle.gixobj_editor_files.specs.Tables.{IsNeverLookedUp};
ghost use Rattle.gixobj_hash.specs.Hash.{hash_len};
ghost use Rattle.gixobj_store_keep.specs.Memory.{memory_objects};
ghost use Rattle.gixobj_tree.specs.WellFormed.{IsWellFormed};

use crate::failure::{Failure, lookup_failure};
use gixobj_hash::hash::{self, ObjectId};
use gixobj_store_keep::Memory;
use gixobj_store_keep::find::existing_tree;
use gixobj_tree::Tree;
use std::alloc::Global;

/// Returns the root with the id of these bytes. The null id and the empty tree's id are those of a root without
/// entries. Allocates the root.
///
/// # Errors
///
/// - [`Failure::Malformed`] if an id of this hash function has another length.
/// - [`Failure::NotFound`] with the id, if the store has no object of it.
/// - [`Failure::MalformedTree`] if the object isn't the encoding of a well-formed tree.
/// - [`Failure::OutOfMemory`] if an allocation fails.
pub fn root_of(
    alloc: Global,
    store: &Memory,
    hash: hash::Kind,
    root: &[u8],
) -> Result<Tree, Failure>
    ensures found { IfOk result (IsRootOf (memory_objects store.now) hash root.now) }
    ensures well_formed { IfOk result (λ tree. IsWellFormed tree) }
    ensures error { IfErr result (IsRootError (memory_objects store.now) hash root.now) }
{
    match id_of_bytes(hash, root) {
        Some(id) => tree_of_id(alloc, store, id),
        None => Err(Failure::Malformed),
    }
}

/// Returns the id of these bytes, or `None` if an id of this hash function has another length.
fn id_of_bytes(hash: hash::Kind, bytes: &[u8]) -> Option<ObjectId>
    ensures found { IfSome result (IsIdOf hash bytes.now) }
    ensures none { IfNone result (length bytes.now ≢ hash_len hash) }
{
    match hash {
        hash::Kind::Sha1 => match <[u8; 20]>::try_from(bytes) {
            Ok(bytes) => Some(ObjectId::Sha1(bytes)),
            Err(_) => None,
        },
        hash::Kind::Sha256 => match <[u8; 32]>::try_from(bytes) {
            Ok(bytes) => Some(ObjectId::Sha256(bytes)),
            Err(_) => None,
        },
    }
}

/// Returns the tree of an id, which is empty for an id that is never looked up.
fn tree_of_id(alloc: Global, store: &Memory, id: ObjectId) -> Result<Tree, Failure>
    ensures found { IfOk result (IsTreeOf (memory_objects store.now) id) }
    ensures well_formed { IfOk result (λ tree. IsWellFormed tree) }
    ensures error { IfErr result (IsTreeError (memory_objects store.now) id) }
{
    if is_not_looked_up(id) {
        return Ok(Tree::empty(alloc));
    }
    find_tree(alloc, store, id)
}

/// Returns whether the id is never looked up: the null id, and that of the empty tree.
fn is_not_looked_up(id: ObjectId) -> bool
    ensures { IsTrue result ↔ IsNeverLookedUp id }
{
    id.is_null() || id.is_empty_tree()
}

/// Looks up the well-formed tree of an id.
fn find_tree(alloc: Global, store: &Memory, id: ObjectId) -> Result<Tree, Failure>
    requires { ¬ IsNeverLookedUp id }
    ensures found { IfOk result (λ tree. NamesTree (memory_objects store.now) id tree) }
    ensures well_formed { IfOk result (λ tree. IsWellFormed tree) }
    ensures error { IfErr result (IsTreeFailure (memory_objects store.now) id) }
{
    let mut buffer = Vec::new(alloc);
    let found = match existing_tree(alloc, store, id.as_oid(), &mut buffer) {
        Ok(found) => found,
        Err(error) => return Err(lookup_failure(&error)),
    };
    let Ok(tree) = found.into_owned(alloc) else {
        return Err(Failure::OutOfMemory);
    };
    if !tree.is_well_formed() {
        return Err(Failure::MalformedTree);
    }
    Ok(tree)
}
