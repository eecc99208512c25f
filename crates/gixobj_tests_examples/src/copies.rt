//! Round trips of trees, and a loose object whose id is verified.

use crate::object_samples::is_copy;
use gix_object::hash::Kind;
use gix_object::{Tree, TreeRef, decode};
use gixobj_examples_objects::store::{TakeError, round_trip, taken_over, tree_copy_of};
use gixobj_tests_api::samples::id;
use std::alloc::Global;

/// The encoding of a tree with the file `test.txt`, as `git mktree` writes it.
const TREE: &[u8] =
    b"100644 test.txt\0\x83\xba\xae\x61\x80\x4e\x65\xcc\x73\xa7\x20\x1a\x72\x52\x75\x0c\x76\x06\x6a\x30";

/// `TREE` without its last byte.
const TRUNCATED: &[u8] =
    b"100644 test.txt\0\x83\xba\xae\x61\x80\x4e\x65\xcc\x73\xa7\x20\x1a\x72\x52\x75\x0c\x76\x06\x6a";

/// A blob. `HELLO_ID` is the id that `git hash-object` prints for it.
const HELLO: &[u8] = b"hello\n";

const HELLO_ID: &[u8] = b"ce013625030ba8dba906f756967f9e9ca394464a";

/// Decodes a tree.
fn tree_of(alloc: Global, bytes: &[u8]) -> Result<Tree, decode::Error> {
    let tree = TreeRef::from_bytes(alloc, bytes, Kind::Sha1)?;
    Ok(tree.into_owned(alloc)?)
}

/// Whether a tree equals its decoded encoding.
fn round_trips(alloc: Global, tree: &Tree) -> bool {
    matches!(&round_trip(alloc, tree, Kind::Sha1), Ok(same) if *same == *tree)
}

#[test]
fn copies_tree_and_rejects_truncated_one(rt: HostRuntime) {
    let alloc = rt.alloc();
    assert!(rt; is_copy(&tree_copy_of(alloc, TREE, Kind::Sha1), TREE));
    assert!(rt; tree_copy_of(alloc, TRUNCATED, Kind::Sha1).is_err());
    let tree = tree_of(alloc, TREE);
    assert!(rt; matches!(&tree, Ok(tree) if round_trips(alloc, tree)));
}

#[test]
fn takes_over_blob_only_under_its_id(rt: HostRuntime) {
    let alloc = rt.alloc();
    let hello = id(HELLO_ID);
    assert!(rt;
        is_copy(
            &taken_over(alloc, b"blob 6\0hello\n", hello.as_oid()),
            HELLO
        )
    );
    let other = taken_over(alloc, b"blob 5\0hello", hello.as_oid());
    assert!(rt; matches!(&other, Err(TakeError::Verify(_))));
}
