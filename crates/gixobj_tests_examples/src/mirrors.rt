//! Roots of two stores in memory, with the ids that `git write-tree` prints.

use gix_object::Memory;
use gix_object::hash::{Kind, ObjectId};
use gix_object::tree::EntryKind;
use gixobj_examples_audits::canonical::is_canonical;
use gixobj_examples_audits::mirrors::{MirrorError, is_mirrored};
use gixobj_tests_api::samples::{id, tree_of};
use std::alloc::Global;

const FILE: &[u8] = b"587be6b4c3f93f93c489c0111bba5596147a26cb";

const RUN: &[u8] = b"e69de29bb2d1d6434b8b29ae775ad8c2e48c5391";

/// The directory `deep`, with the file `x`.
const DEEP: &[u8] = b"ab69b4abf3bb84d4e268bd42d84e4a9a5e242bd3";

/// The root, with the directory `deep` and the program `run.sh`.
const ROOT: &[u8] = b"695c20eb4f8015b2efb978adee24011d24bf38c5";

/// The empty tree.
const EMPTY: &[u8] = b"4b825dc642cb6eb9a060e54bf8d69288fbee4904";

/// The entries of a root with this directory `deep`: kind, name and id.
fn root_rows(deep: &[u8]) -> [(EntryKind, &'static [u8], ObjectId); 2] {
    [
        (EntryKind::Tree, b"deep", id(deep)),
        (EntryKind::BlobExecutable, b"run.sh", id(RUN)),
    ]
}

/// Writes the tree of these entries. The null id if memory runs out.
fn written(
    alloc: Global,
    store: &mut Memory,
    rows: &[(EntryKind, &'static [u8], ObjectId)],
) -> ObjectId {
    let written = store.write(Kind::Sha1, &tree_of(alloc, rows));
    written.unwrap_or(ObjectId::null(Kind::Sha1))
}

/// A store of both trees, and the id of the root.
fn full_store(alloc: Global) -> (Memory, ObjectId) {
    let mut store = Memory::new(alloc);
    let _ = written(alloc, &mut store, &[(EntryKind::Blob, b"x", id(FILE))]);
    let root = written(alloc, &mut store, &root_rows(DEEP));
    (store, root)
}

#[test]
fn mirrors_root_of_git(rt: HostRuntime) {
    let alloc = rt.alloc();
    let (store, first) = full_store(alloc);
    let (other, second) = full_store(alloc);
    assert!(rt; first == id(ROOT));
    assert!(rt; is_mirrored(alloc, &store, &other, first, second, 2).unwrap_or(false));
    assert!(rt; !is_mirrored(alloc, &store, &other, first, id(DEEP), 2).unwrap_or(true));
}

#[test]
fn rejects_roots_that_are_not_canonical(rt: HostRuntime) {
    let alloc = rt.alloc();
    let (store, first) = full_store(alloc);
    let mut other = Memory::new(alloc);
    let second = written(alloc, &mut other, &root_rows(DEEP));
    let third = written(alloc, &mut other, &root_rows(EMPTY));
    assert!(rt; !is_canonical(alloc, &store, first, 1).unwrap_or(true));
    assert!(rt; !is_canonical(alloc, &other, third, 2).unwrap_or(true));
    let copy = is_mirrored(alloc, &store, &other, first, second, 2);
    assert!(rt; matches!(copy, Err(MirrorError::Copy(_))));
}
