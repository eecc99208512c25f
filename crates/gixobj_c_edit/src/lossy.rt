//! Trees whose encoding doesn't decode to them.
ghost use Rattle.std.specs.Prelude.{◌≡◌, ◌≢◌, IfErr, IfOk, true, false};
ghost use Rattle.gixobj_c_edit.specs.Lossy.{DecodesToLossyTree, DecodesToNoLossyTree, IsLossless};
ghost use Rattle.gixobj_c_edit.specs.declared.failure.Failure.TheVariants as failure;
ghost use Rattle.gixobj_hash.specs.declared.decode.Error.TheVariants as decode;
ghost use Rattle.gixobj_tree_entries.specs.TreeDecoding.{DecodesToTree, IsMalformedTree};

use crate::failure::Failure;
use gixobj_encode::WriteTo;
use gixobj_hash::decode;
use gixobj_hash::hash::Kind;
use gixobj_tree::laws::tree_decodes_uniquely;
use gixobj_tree::{Tree, TreeRef};
use std::alloc::Global;

/// Returns whether the bytes decode to a lossy tree: its encoding doesn't decode to it. Allocates the tree, and its
/// encoding.
///
/// # Errors
///
/// [`Failure::OutOfMemory`] if an allocation fails.
pub fn is_lossy(alloc: Global, hash: Kind, bytes: &[u8]) -> Result<bool, Failure>
    ensures lossy { IfOk result (λ it. it ≡ true → DecodesToLossyTree hash bytes.now) }
    ensures not_lossy { IfOk result (λ it. it ≡ false → DecodesToNoLossyTree hash bytes.now) }
    ensures error { IfErr result (λ it. it ≡ failure.OutOfMemory) }
{
    tree_decodes_uniquely();
    let tree = match tree_of(alloc, hash, bytes) {
        Ok(tree) => tree,
        Err(decode::Error::Malformed) => return Ok(false),
        Err(decode::Error::OutOfMemory) => return Err(Failure::OutOfMemory),
    };
    match is_lossless(alloc, hash, &tree) {
        Ok(same) => Ok(!same),
        Err(failure) => Err(failure),
    }
}

/// Returns whether the encoding of the tree decodes to it.
fn is_lossless(alloc: Global, hash: Kind, tree: &Tree) -> Result<bool, Failure>
    ensures same { IfOk result (λ it. it ≡ true → IsLossless hash tree.now) }
    ensures other { IfOk result (λ it. it ≡ false → ¬ IsLossless hash tree.now) }
    ensures error { IfErr result (λ it. it ≡ failure.OutOfMemory) }
{
    let mut encoding = Vec::new(alloc);
    match tree.write_to_vec(alloc, &mut encoding) {
        Ok(()) => decodes_to(alloc, hash, &encoding, tree),
        Err(_) => Err(Failure::OutOfMemory),
    }
}

/// Returns whether the bytes decode to this tree. Allocates the tree that they decode to.
///
/// # Errors
///
/// [`Failure::OutOfMemory`] if an allocation fails.
pub fn decodes_to(alloc: Global, hash: Kind, bytes: &[u8], tree: &Tree) -> Result<bool, Failure>
    ensures same { IfOk result (λ it. it ≡ true → DecodesToTree hash bytes.now tree.now) }
    ensures other { IfOk result (λ it. it ≡ false → ¬ DecodesToTree hash bytes.now tree.now) }
    ensures error { IfErr result (λ it. it ≡ failure.OutOfMemory) }
{
    tree_decodes_uniquely();
    match tree_of(alloc, hash, bytes) {
        Ok(found) => Ok(is_same(&found, tree)),
        Err(decode::Error::Malformed) => Ok(false),
        Err(decode::Error::OutOfMemory) => Err(Failure::OutOfMemory),
    }
}

/// Returns whether the trees have the same entries.
fn is_same(tree: &Tree, other: &Tree) -> bool
    ensures same { result ≡ true → tree.now ≡ other.now }
    ensures different { result ≡ false → tree.now ≢ other.now }
{
    *tree == *other
}

/// Returns the tree that the bytes decode to.
fn tree_of(alloc: Global, hash: Kind, bytes: &[u8]) -> Result<Tree, decode::Error>
    ensures found { IfOk result (λ tree. DecodesToTree hash bytes.now tree) }
    ensures malformed { IfErr result (λ it. it ≡ decode.Malformed
        → IsMalformedTree hash bytes.now) }
{
    let found = match TreeRef::from_bytes(alloc, bytes, hash) {
        Ok(found) => found,
        Err(error) => return Err(error),
    };
    match found.into_owned(alloc) {
        Ok(tree) => Ok(tree),
        Err(_) => Err(decode::Error::OutOfMemory),
    }
}
