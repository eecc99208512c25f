//! Lookups in which any allocation may fail: the error of each contains out of memory, and a second lookup
//! with memory succeeds.

use crate::existing::{Answer, Lookup, found, store_of};
use crate::paths::{self, at_path};
use crate::samples::{ROOT_BYTES, VERSION_1, bytes_of, id, two_trees};
use gixobj_hash::Kind;
use gixobj_hash::hash::Kind as HashKind;
use gixobj_tree_entries::EntryKind;
use std::alloc::Global;

/// The two lookups of each kind of object.
const LOOKUPS: &[(Kind, Lookup, Lookup)] = &[
    (Kind::Tree, Lookup::Tree, Lookup::TreeReader),
    (Kind::Blob, Lookup::Blob, Lookup::Any),
    (Kind::Commit, Lookup::Commit, Lookup::CommitReader),
    (Kind::Tag, Lookup::Tag, Lookup::TagReader),
];

/// Makes these lookups of an object of this kind, each again after a failed allocation, and returns whether
/// all find it. Returns `None` if the store can't be allocated.
fn finds(alloc: Global, kind: Kind, lookups: [Lookup; 2]) -> Option<bool> {
    let (store, id) = store_of(alloc, kind, bytes_of(kind)).ok()?;
    for lookup in lookups {
        let mut answer = found(alloc, &store, lookup, id);
        if answer == Answer::WithoutMemory {
            answer = found(alloc, &store, lookup, id);
        }
        if answer != Answer::Found {
            return Some(false);
        }
    }
    Some(true)
}

#[test]
fn finds_objects_whatever_allocation_fails(rt: HostRuntime) {
    for &(kind, one, other) in LOOKUPS {
        let mut is_found = finds(rt.alloc(), kind, [one, other]);
        if is_found.is_none() {
            is_found = finds(rt.alloc(), kind, [one, other]);
        }
        assert!(rt; is_found == Some(true), "{kind:?}");
    }
}

/// Looks up the entry at the path `bak/test.txt`, again after a failed allocation. Returns `None` if the store
/// can't be allocated.
fn answer_at_path(alloc: Global) -> Option<paths::Answer> {
    let store = two_trees(alloc).ok()?;
    let (tree, path) = ((ROOT_BYTES, HashKind::Sha1), b"bak/test.txt".as_slice());
    let mut answer = at_path(alloc, &store, tree, path, "test.txt");
    if answer == paths::Answer::WithoutMemory {
        answer = at_path(alloc, &store, tree, path, "test.txt");
    }
    Some(answer)
}

#[test]
fn finds_entry_by_path_whatever_allocation_fails(rt: HostRuntime) {
    let mut answer = answer_at_path(rt.alloc());
    if answer.is_none() {
        answer = answer_at_path(rt.alloc());
    }
    let entry = paths::Answer::Entry(EntryKind::Blob, id(VERSION_1));
    assert!(rt; answer == Some(entry));
}
