//! Lookups in stores that are borrowed, boxed or shared, and in one that fails.

use crate::failing::Failing;
use crate::samples::{
    BAK, BAK_BYTES, HELLO, ROOT, ROOT_BYTES, bytes_of, id, id_of_bytes, stored_trees,
};
use gixobj_hash::Kind;
use gixobj_hash::hash::{Kind as HashKind, ObjectId};
use gixobj_store::{Data, Exists, FindObjectOrHeader};
use gixobj_store_find::find;
use std::alloc::Global;
use std::rc::Rc;

/// The trees by the ids [`BAK`] and [`ROOT`].
const TREES: &[(&[u8], &[u8])] = &[(BAK, BAK_BYTES), (ROOT, ROOT_BYTES)];

/// Returns whether a store finds this object and its header by the id, and reports that it exists.
fn has_object<S: FindObjectOrHeader + Exists>(
    alloc: Global,
    store: &S,
    id: ObjectId,
    wanted: Data<'_>,
) -> bool {
    let is_header = match &store.try_header(id.as_oid()) {
        Ok(Some(it)) => it.kind == wanted.kind && it.size == wanted.bytes.len() as u64,
        _ => false,
    };
    let mut buffer = Vec::new(alloc);
    let is_object = match &store.try_find(id.as_oid(), &mut buffer) {
        Ok(Some(it)) => *it == wanted,
        _ => false,
    };
    is_header && is_object && store.exists(id.as_oid())
}

/// Returns whether a store finds the tree with these bytes, and its header, by this id of hex digits.
fn has_tree<S: FindObjectOrHeader + Exists>(
    alloc: Global,
    store: &S,
    hex: &[u8],
    bytes: &[u8],
) -> bool {
    let tree = Data::new(bytes, Kind::Tree, HashKind::Sha1);
    has_object(alloc, store, id(hex), tree)
}

/// Returns whether each of the three calls finds nothing by the id.
pub(crate) fn has_none<S: FindObjectOrHeader + Exists>(
    alloc: Global,
    store: &S,
    id: ObjectId,
) -> bool {
    let mut buffer = Vec::new(alloc);
    matches!(&store.try_header(id.as_oid()), Ok(None))
        && matches!(&store.try_find(id.as_oid(), &mut buffer), Ok(None))
        && !store.exists(id.as_oid())
}

/// Two trees, a blob that is inserted twice, and a commit with SHA-256 ids. The ids of the first three are
/// those that git computes.
#[test]
fn finds_objects_in_memory(rt: HostRuntime) {
    let (alloc, mut store) = (rt.alloc(), stored_trees(rt.alloc()));
    for &(hex, bytes) in TREES {
        assert!(rt; has_tree(alloc, &store, hex, bytes), "{hex:?}");
    }
    let blob = Data::new(bytes_of(Kind::Blob), Kind::Blob, HashKind::Sha1);
    let first = store.insert(blob.kind, blob.object_hash, blob.bytes);
    let again = store.insert(blob.kind, blob.object_hash, blob.bytes);
    assert!(rt; first.ok() == Some(id(HELLO)) && again.ok() == Some(id(HELLO)));
    assert!(rt; has_object(alloc, &store, id(HELLO), blob));
    let commit = Data::new(bytes_of(Kind::Commit), Kind::Commit, HashKind::Sha256);
    let of_commit = store.insert(commit.kind, commit.object_hash, commit.bytes);
    let of_commit = of_commit.unwrap_or(id_of_bytes(1));
    assert!(rt; has_object(alloc, &store, of_commit, commit));
    assert!(rt; has_none(alloc, &store, id_of_bytes(1)));
}

/// Returns whether a store has the tree [`BAK`], and no object by another id.
fn has_first_tree<S: FindObjectOrHeader + Exists>(alloc: Global, store: &S) -> bool {
    has_tree(alloc, store, BAK, BAK_BYTES) && has_none(alloc, store, id_of_bytes(1))
}

/// Returns whether a boxed and a shared store have the tree [`BAK`], and no object by another id.
fn has_first_tree_boxed_and_shared(alloc: Global) -> bool {
    let boxed = Box::new(alloc, stored_trees(alloc));
    match (&boxed, &Rc::new(alloc, stored_trees(alloc))) {
        (Ok(boxed), Ok(shared)) => has_first_tree(alloc, boxed) && has_first_tree(alloc, shared),
        _ => false,
    }
}

#[test]
fn finds_tree_in_borrowed_boxed_and_shared_stores(rt: HostRuntime) {
    let alloc = rt.alloc();
    assert!(rt; has_first_tree(alloc, &&stored_trees(alloc)));
    assert!(rt; has_first_tree_boxed_and_shared(alloc));
}

/// Returns whether both lookups of a store fail for the id, and it reports that no object exists.
fn fails<S: FindObjectOrHeader + Exists>(alloc: Global, store: &S, id: ObjectId) -> bool {
    let mut buffer = Vec::new(alloc);
    matches!(
        &store.try_find(id.as_oid(), &mut buffer),
        Err(find::Error::Store(_))
    ) && matches!(&store.try_header(id.as_oid()), Err(find::Error::Store(_)))
        && !store.exists(id.as_oid())
}

/// A store that failed has the object in the next lookup.
#[test]
fn finds_tree_after_failed_calls(rt: HostRuntime) {
    let alloc = rt.alloc();
    let store = Failing::new(alloc, stored_trees(alloc), &[1, 2, 3], &[]);
    assert!(rt; fails(alloc, &store, id(BAK)));
    assert!(rt; has_tree(alloc, &store, BAK, BAK_BYTES));
    assert!(rt; store.lookups() == 6);
}
