//! Lookups that require an object, for each kind: of objects of each kind, of missing and malformed objects,
//! and in a store that fails.

use crate::failing::Failing;
use crate::samples::{BAK, KINDS, bytes_of, id, id_of_bytes, stored_trees};
use gixobj_hash::hash::{Kind as HashKind, ObjectId};
use gixobj_hash::{Kind, OutOfMemory, decode};
use gixobj_store_find::find::{existing, existing_iter, existing_object};
use gixobj_store_find::{FindExt, HeaderExt, find};
use gixobj_store_keep::Memory;
use std::alloc::Global;

/// A lookup that requires an object.
#[derive(Clone, Copy, Debug)]
pub(crate) enum Lookup {
    Tree,
    Blob,
    Commit,
    Tag,
    TreeReader,
    CommitReader,
    TagReader,
    Any,
    Header,
}

/// The lookups, the kind that each requires, and whether it decodes the object.
const LOOKUPS: &[(Lookup, Option<Kind>, bool)] = &[
    (Lookup::Tree, Some(Kind::Tree), true),
    (Lookup::Blob, Some(Kind::Blob), true),
    (Lookup::Commit, Some(Kind::Commit), true),
    (Lookup::Tag, Some(Kind::Tag), true),
    (Lookup::TreeReader, Some(Kind::Tree), false),
    (Lookup::CommitReader, Some(Kind::Commit), false),
    (Lookup::TagReader, Some(Kind::Tag), false),
    (Lookup::Any, None, false),
    (Lookup::Header, None, false),
];

/// The result of a lookup, reduced to its case, with the id and the kinds of its error.
#[derive(Clone, Copy, PartialEq, Eq)]
pub(crate) enum Answer {
    Found,
    Failed,
    WithoutMemory,
    Damaged(ObjectId),
    Missing(ObjectId),
    OfKind(ObjectId, Kind, Kind),
}

/// Classifies the result of a lookup that decodes the object.
fn of_object<T: Drop>(found: Result<T, existing_object::Error>) -> Answer {
    match &found {
        Ok(_) => Answer::Found,
        Err(error) => match error {
            existing_object::Error::Find(find::Error::OutOfMemory)
            | existing_object::Error::Decode {
                source: decode::Error::OutOfMemory,
                ..
            } => Answer::WithoutMemory,
            existing_object::Error::Find(_) => Answer::Failed,
            existing_object::Error::Decode { oid, .. } => Answer::Damaged(*oid),
            existing_object::Error::NotFound { oid } => Answer::Missing(*oid),
            existing_object::Error::ObjectKind {
                oid,
                actual,
                expected,
            } => Answer::OfKind(*oid, *actual, *expected),
        },
    }
}

/// Classifies the result of a lookup that returns an iterator.
fn of_reader<T: Drop>(found: Result<T, existing_iter::Error>) -> Answer {
    match &found {
        Ok(_) => Answer::Found,
        Err(existing_iter::Error::Find(find::Error::OutOfMemory)) => Answer::WithoutMemory,
        Err(existing_iter::Error::Find(_)) => Answer::Failed,
        Err(existing_iter::Error::NotFound { oid }) => Answer::Missing(*oid),
        Err(
            existing_iter::Error::ObjectKind {
                oid,
                actual,
                expected,
            },
        ) => Answer::OfKind(*oid, *actual, *expected),
    }
}

/// Classifies the result of a lookup of any object.
fn of_any<T: Drop>(found: Result<T, existing::Error>) -> Answer {
    match &found {
        Ok(_) => Answer::Found,
        Err(existing::Error::Find(find::Error::OutOfMemory)) => Answer::WithoutMemory,
        Err(existing::Error::Find(_)) => Answer::Failed,
        Err(existing::Error::NotFound { oid }) => Answer::Missing(*oid),
    }
}

/// Makes this lookup by the id, and classifies the result.
pub(crate) fn found(alloc: Global, store: &Failing, lookup: Lookup, id: ObjectId) -> Answer {
    let mut buffer = Vec::new(alloc);
    let oid = id.as_oid();
    match lookup {
        Lookup::Tree => of_object(store.find_tree(alloc, oid, &mut buffer)),
        Lookup::Blob => of_object(store.find_blob(alloc, oid, &mut buffer)),
        Lookup::Commit => of_object(store.find_commit(alloc, oid, &mut buffer)),
        Lookup::Tag => of_object(store.find_tag(alloc, oid, &mut buffer)),
        Lookup::TreeReader => of_reader(store.find_tree_iter(oid, &mut buffer)),
        Lookup::CommitReader => of_reader(store.find_commit_iter(alloc, oid, &mut buffer)),
        Lookup::TagReader => of_reader(store.find_tag_iter(oid, &mut buffer)),
        Lookup::Any => of_any(store.find(oid, &mut buffer)),
        Lookup::Header => of_any(store.header(oid)),
    }
}

/// Returns a store with one object, and the id of the object.
pub(crate) fn store_of(
    alloc: Global,
    kind: Kind,
    input: &[u8],
) -> Result<(Failing, ObjectId), OutOfMemory> {
    let mut objects = Memory::new(alloc);
    let id = objects.insert(kind, HashKind::Sha1, input)?;
    Ok((Failing::new(alloc, objects, &[], &[]), id))
}

/// Returns whether an object of this kind is found as one of its kind, of no other kind, and as any. Each
/// error has the id that was looked up. Lookups that decode fail for a malformed one.
fn is_found_alone(alloc: Global, kind: Kind, input: &[u8], is_malformed: bool) -> bool {
    let Ok((store, id)) = store_of(alloc, kind, input) else {
        return false;
    };
    for &(lookup, wanted, decodes) in LOOKUPS {
        let expected = match wanted {
            Some(_) if decodes && is_malformed => Answer::Damaged(id),
            Some(wanted) if wanted != kind => Answer::OfKind(id, kind, wanted),
            _ => Answer::Found,
        };
        if found(alloc, &store, lookup, id) != expected {
            return false;
        }
    }
    true
}

/// Returns whether the reader of a malformed commit yields one error, and then ends.
fn yields_one_error(alloc: Global) -> bool {
    let Ok((store, id)) = store_of(alloc, Kind::Commit, b"tree 4b") else {
        return false;
    };
    let mut buffer = Vec::new(alloc);
    match store.find_commit_iter(alloc, id.as_oid(), &mut buffer) {
        Ok(mut reader) => {
            let first = reader.next();
            matches!(first, Some(Err(decode::Error::Malformed))) && reader.next().is_none()
        }
        Err(_) => false,
    }
}

/// An object is decoded by its own kind first, so each lookup that decodes fails for a malformed one. An
/// iterator is returned regardless.
#[test]
fn finds_objects_by_their_kind(rt: HostRuntime) {
    for kind in KINDS {
        let is_found = is_found_alone(rt.alloc(), kind, bytes_of(kind), false);
        let is_damaged = kind == Kind::Blob || is_found_alone(rt.alloc(), kind, b"tree", true);
        assert!(rt; is_found && is_damaged, "{kind:?}");
    }
    assert!(rt; yields_one_error(rt.alloc()));
}

/// The empty tree is found as any object only if the store has it.
#[test]
fn reports_missing_objects(rt: HostRuntime) {
    let (alloc, missing) = (rt.alloc(), id_of_bytes(1));
    let store = Failing::new(alloc, stored_trees(alloc), &[], &[]);
    for &(lookup, _, _) in LOOKUPS {
        let answer = found(alloc, &store, lookup, missing);
        assert!(rt; answer == Answer::Missing(missing), "{lookup:?}");
    }
    let empty = ObjectId::empty_tree(HashKind::Sha1);
    assert!(rt; found(alloc, &store, Lookup::Any, empty) == Answer::Missing(empty));
}

#[test]
fn fails_if_store_fails(rt: HostRuntime) {
    let alloc = rt.alloc();
    let lookups_that_fail = &[1, 2, 3, 4, 5, 6, 7, 8, 9];
    let store = Failing::new(alloc, stored_trees(alloc), lookups_that_fail, &[]);
    for &(lookup, _, _) in LOOKUPS {
        let answer = found(alloc, &store, lookup, id(BAK));
        assert!(rt; answer == Answer::Failed, "{lookup:?}");
    }
    assert!(rt; found(alloc, &store, Lookup::Tree, id(BAK)) == Answer::Found);
}

/// Returns whether the lookups of the empty tree's and the empty blob's id find a tree without entries and a
/// blob without bytes.
fn finds_empty_objects(alloc: Global, store: &Failing, kind: HashKind) -> bool {
    let (tree_id, blob_id) = (ObjectId::empty_tree(kind), ObjectId::empty_blob(kind));
    let (mut of_tree, mut of_blob) = (Vec::new(alloc), Vec::new(alloc));
    let tree = store.find_tree(alloc, tree_id.as_oid(), &mut of_tree);
    let blob = store.find_blob(alloc, blob_id.as_oid(), &mut of_blob);
    match (&tree, &blob) {
        (Ok(tree), Ok(blob)) => tree.entries.is_empty() && blob.bytes.is_empty(),
        _ => false,
    }
}

/// The empty tree and the empty blob are found without the store, which would fail in each lookup.
#[test]
fn finds_empty_objects_without_store(rt: HostRuntime) {
    let alloc = rt.alloc();
    let store = Failing::new(alloc, Memory::new(alloc), &[1, 2, 3, 4], &[]);
    for kind in [HashKind::Sha1, HashKind::Sha256] {
        assert!(rt; finds_empty_objects(alloc, &store, kind), "{kind:?}");
    }
    assert!(rt; store.lookups() == 0);
}

/// Returns whether the header of an object of this kind has its kind and its size in bytes.
fn has_header(alloc: Global, kind: Kind) -> bool {
    let Ok((store, id)) = store_of(alloc, kind, bytes_of(kind)) else {
        return false;
    };
    match &store.header(id.as_oid()) {
        Ok(header) => header.kind == kind && header.size == bytes_of(kind).len() as u64,
        Err(_) => false,
    }
}

#[test]
fn finds_headers(rt: HostRuntime) {
    for kind in KINDS {
        assert!(rt; has_header(rt.alloc(), kind), "{kind:?}");
    }
}
