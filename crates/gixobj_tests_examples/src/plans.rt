//! An entry that is inserted into a stored tree or into the empty one.

use crate::samples::{FIRST, SECOND, is_root};
use gix_object::find::Never;
use gix_object::hash::{Kind as HashKind, ObjectId};
use gix_object::tree::EntryKind;
use gix_object::tree::editor::{Error, WriteError, Written};
use gix_object::{Find, Kind, Memory, Tree, WriteTo, encode};
use gixobj_examples_edits::planner::{PlanError, RootError, is_tree, with_entry_in_stored};
use gixobj_tests_api::samples::{id, path_of, tree_of};
use std::alloc::Global;

/// Encodes a tree.
fn encode_tree(alloc: Global, tree: &Tree) -> Result<Vec<u8>, encode::Error> {
    let mut content = Vec::new(alloc);
    tree.write_to(alloc, &mut content)?;
    Ok(content)
}

/// Stores a tree of one entry and returns its id. `None` if memory runs out.
fn insert_tree(
    alloc: Global,
    store: &mut Memory,
    name: &str,
    kind: EntryKind,
    id: ObjectId,
) -> Option<ObjectId> {
    let tree = tree_of(alloc, &[(kind, name.as_bytes(), id)]);
    match encode_tree(alloc, &tree) {
        Ok(bytes) => store.insert(Kind::Tree, HashKind::Sha1, &bytes).ok(),
        Err(_) => None,
    }
}

/// A store with a file of the first id at the path of `names`, its last name first, and the id of the root.
pub(crate) fn stored(alloc: Global, names: &[&str]) -> (Memory, ObjectId) {
    let mut store = Memory::new(alloc);
    let mut kind = EntryKind::Blob;
    let mut oid = id(FIRST);
    for name in names {
        oid = insert_tree(alloc, &mut store, name, kind, oid).unwrap_or(id(b""));
        kind = EntryKind::Tree;
    }
    (store, oid)
}

/// Id that `git mktree --missing` prints for the directory `a` alone, with the files `b` of the first id and
/// `x` of the second.
const IN_DIRECTORY: &[u8] = b"42306307596042142f124b5146c180127d63b0d6";

/// Id that `git mktree --missing` prints for `040000 tree f09792be40f18f537c28b624b7bc7771f25082e1`, a tab
/// and `a`, and `100644 blob`, the second id, a tab and `x`. It prints the id of `a` for `100644 blob`, the
/// first id, a tab and `b`.
const AT_THE_ROOT: &[u8] = b"fa0919f1e8adc1e676ab04434a2d7f5842aeed3e";

/// Id that `git mktree --missing` prints for the file `x` with the second id alone.
const X_ALONE: &[u8] = b"5805b676e247eb9a8046ad0c4d249cd2fb2513df";

/// Id that `git mktree --missing` prints for the file `hello.txt` with the first id alone.
const HELLO_ALONE: &[u8] = b"aaa96ced2d9a1c8e72c56b253a0e2fe78393feb7";

/// Names the result of a plan.
fn outcome_name(planned: &Result<Written, PlanError<encode::Error>>) -> &'static str {
    match planned {
        Ok(written) if is_root(written, IN_DIRECTORY, 2) => "in the directory",
        Ok(written) if is_root(written, AT_THE_ROOT, 1) => "at the root",
        Ok(written) if is_root(written, X_ALONE, 1) => "alone",
        Ok(written) if is_root(written, HELLO_ALONE, 1) => "hello alone",
        Err(PlanError::Root(RootError::Find(_))) => "no root",
        Err(PlanError::Root(RootError::Malformed)) => "malformed root",
        Err(PlanError::Edit(Error::EmptyPathComponent)) => "empty name",
        Err(PlanError::Write(WriteError::Out(_))) => "not written",
        _ => "otherwise",
    }
}

/// Names the result of an insertion of a file into the root of a store.
fn outcome<S: Find + Drop>(
    alloc: Global,
    stored: (S, ObjectId),
    names: &[&str],
    file: &[u8],
) -> &'static str {
    let (store, root) = stored;
    let (path, file) = (path_of(alloc, names), id(file));
    let out = |tree: &Tree| tree.compute_id(alloc, HashKind::Sha1);
    let kind = EntryKind::Blob;
    outcome_name(&with_entry_in_stored(alloc, root, store, &path, kind, file, out))
}

#[test]
fn inserts_file_into_stored_and_empty_trees(rt: HostRuntime) {
    let alloc = rt.alloc();
    let empty = ObjectId::empty_tree(HashKind::Sha1);
    let below = outcome(alloc, stored(alloc, &["b", "a"]), &["a", "x"], SECOND);
    assert!(rt; below == "in the directory");
    assert!(rt; outcome(alloc, stored(alloc, &["b", "a"]), &["x"], SECOND) == "at the root");
    assert!(rt; outcome(alloc, (Never, empty), &["x"], SECOND) == "alone");
    assert!(rt; outcome(alloc, (Never, empty), &["hello.txt"], FIRST) == "hello alone");
}

/// The encoding of a tree with the file `test.txt`, as `git mktree` writes it.
const ENCODED: &[u8] =
    b"100644 test.txt\0\x83\xba\xae\x61\x80\x4e\x65\xcc\x73\xa7\x20\x1a\x72\x52\x75\x0c\x76\x06\x6a\x30";

/// `ENCODED` without its last byte.
const TRUNCATED: &[u8] =
    b"100644 test.txt\0\x83\xba\xae\x61\x80\x4e\x65\xcc\x73\xa7\x20\x1a\x72\x52\x75\x0c\x76\x06\x6a";

#[test]
fn rejects_invalid_roots_and_names(rt: HostRuntime) {
    let alloc = rt.alloc();
    let null = ObjectId::null(HashKind::Sha1);
    assert!(rt; is_tree(ENCODED, HashKind::Sha1));
    assert!(rt; !is_tree(TRUNCATED, HashKind::Sha1));
    assert!(rt; outcome(alloc, (Never, null), &["x"], SECOND) == "no root");
    assert!(rt; outcome(alloc, stored(alloc, &["a/b"]), &["x"], SECOND) == "malformed root");
    assert!(rt; outcome(alloc, stored(alloc, &["b"]), &["x", ""], SECOND) == "empty name");
    assert!(rt; outcome(alloc, stored(alloc, &["b"]), &["\0"], SECOND) == "not written");
}
