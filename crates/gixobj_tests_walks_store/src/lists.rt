//! Lists of the commits of a small store, as `git rev-list` prints them.

use gixobj_hash::hash::{Kind as HashKind, ObjectId};
use gixobj_hash::{Kind, OutOfMemory};
use gixobj_store_keep::Memory;
use gixobj_walks_commits::NodeError;
use gixobj_walks_graph::Order;
use gixobj_walks_store::{WalkError, is_ancestor, list_commits, merge_bases, peel_to_commits};
use std::alloc::Global;

const A: &[u8] = b"af54a611f67b6498c39ebe8936700e597956dda5";

const B: &[u8] = b"5fe926734d10c1917e67dd549b07124712e3fd68";

const C: &[u8] = b"c9563a2ec0afc00545577d5314f49241aee75921";

const D: &[u8] = b"18ab51d93ae4e14f87ad91182dbde1fc907e8f47";

const M: &[u8] = b"d639153b1b35c34e656bea4b760861497d292e4e";

/// A tag of the commit [`M`].
const V1: &[u8] = b"5858c3ad571876de03d20b7a5cd76871282360ab";
/// A tag of the tag [`V1`].
const V2: &[u8] = b"77d45fed4bd543b079ce53ac142eaddae48bfa92";
/// A tag of the empty tree.
const OF_TREE: &[u8] = b"bfc35c1135bbf2ffb99a889764da017182d557fb";

const EMPTY_TREE: &[u8] = b"4b825dc642cb6eb9a060e54bf8d69288fbee4904";

/// The commits and the tags, as `git cat-file` prints them, and the empty tree.
const OBJECTS: [(Kind, &[u8]); 9] = [
    (
        Kind::Commit,
        b"tree 4b825dc642cb6eb9a060e54bf8d69288fbee4904\n\
        author A <a@example.com> 1700000000 +0000\n\
        committer C <c@example.com> 1700000000 +0000\n\
        \nroot\n",
    ),
    (
        Kind::Commit,
        b"tree 4b825dc642cb6eb9a060e54bf8d69288fbee4904\n\
        parent af54a611f67b6498c39ebe8936700e597956dda5\n\
        author A <a@example.com> 1700000010 +0000\n\
        committer C <c@example.com> 1700000010 +0000\n\
        \nleft\n",
    ),
    (
        Kind::Commit,
        b"tree 4b825dc642cb6eb9a060e54bf8d69288fbee4904\n\
        parent af54a611f67b6498c39ebe8936700e597956dda5\n\
        author A <a@example.com> 1700000020 +0000\n\
        committer C <c@example.com> 1700000020 +0000\n\
        \nright\n",
    ),
    (
        Kind::Commit,
        b"tree 4b825dc642cb6eb9a060e54bf8d69288fbee4904\n\
        parent 5fe926734d10c1917e67dd549b07124712e3fd68\n\
        author A <a@example.com> 1700000030 +0000\n\
        committer C <c@example.com> 1700000030 +0000\n\
        \nmore\n",
    ),
    (
        Kind::Commit,
        b"tree 4b825dc642cb6eb9a060e54bf8d69288fbee4904\n\
        parent 18ab51d93ae4e14f87ad91182dbde1fc907e8f47\n\
        parent c9563a2ec0afc00545577d5314f49241aee75921\n\
        author A <a@example.com> 1700000040 +0000\n\
        committer C <c@example.com> 1700000040 +0000\n\
        \nmerge\n",
    ),
    (
        Kind::Tag,
        b"object d639153b1b35c34e656bea4b760861497d292e4e\n\
        type commit\n\
        tag v1\n\
        tagger C <c@example.com> 1700000050 +0000\n\
        \nt\n",
    ),
    (
        Kind::Tag,
        b"object 5858c3ad571876de03d20b7a5cd76871282360ab\n\
        type tag\n\
        tag v2\n\
        tagger C <c@example.com> 1700000050 +0000\n\
        \nt\n",
    ),
    (
        Kind::Tag,
        b"object 4b825dc642cb6eb9a060e54bf8d69288fbee4904\n\
        type tree\n\
        tag vt\n\
        tagger C <c@example.com> 1700000050 +0000\n\
        \nt\n",
    ),
    (Kind::Tree, b""),
];

/// Decodes an id of hex digits; other bytes yield the null id.
fn id(hex: &[u8]) -> ObjectId {
    ObjectId::from_hex(hex).unwrap_or(ObjectId::null(HashKind::Sha1))
}

/// Stores the objects.
fn store_of(alloc: Global) -> Result<Memory, OutOfMemory> {
    let mut store = Memory::new(alloc);
    for (kind, content) in &OBJECTS {
        store.insert(*kind, HashKind::Sha1, content)?;
    }
    Ok(store)
}

/// Returns whether these commits are listed from these ids.
fn lists(
    alloc: Global,
    tips: &[ObjectId],
    hidden: &[ObjectId],
    order: Order,
    expected: &[ObjectId],
) -> bool {
    let Ok(store) = store_of(alloc) else {
        return false;
    };
    let Ok(tips) = peel_to_commits(alloc, &store, tips, 2) else {
        return false;
    };
    let listed = list_commits(alloc, &store, &tips, hidden, order);
    matches!(&listed, Ok(ids) if ids.as_slice() == expected)
}

#[test]
fn lists_by_date(rt: HostRuntime) {
    let alloc = rt.alloc();
    let all = [id(M), id(D), id(C), id(B), id(A)];
    assert!(rt; lists(alloc, &[id(M)], &[], Order::Date, &all));
    assert!(rt; lists(alloc, &[id(A), id(M), id(M)], &[], Order::Date, &all));
    assert!(rt;
        lists(
            alloc,
            &[id(M)],
            &[id(B)],
            Order::Date,
            &[id(M), id(D), id(C)]
        )
    );
}

#[test]
fn lists_in_topological_order(rt: HostRuntime) {
    let alloc = rt.alloc();
    let all = [id(M), id(C), id(D), id(B), id(A)];
    assert!(rt; lists(alloc, &[id(M)], &[], Order::Topological, &all));
    assert!(rt;
        lists(
            alloc,
            &[id(M)],
            &[id(B)],
            Order::Topological,
            &[id(M), id(C), id(D)]
        )
    );
}

/// A tag of a tag lists the commit, and a tag of a tree lists nothing.
#[test]
fn follows_tags(rt: HostRuntime) {
    let alloc = rt.alloc();
    let some = [id(M), id(D), id(C)];
    assert!(rt; lists(alloc, &[id(V2), id(OF_TREE)], &[id(B)], Order::Date, &some));
    assert!(rt; lists(alloc, &[id(EMPTY_TREE)], &[], Order::Date, &[]));
}

/// Returns the id of the lookup that fails if this id is a tip.
fn unread(alloc: Global, tip: ObjectId) -> Option<ObjectId> {
    let store = store_of(alloc).ok()?;
    match list_commits(alloc, &store, &[tip], &[], Order::Date) {
        Err(WalkError::Node(NodeError::NotFound { oid })) => Some(oid),
        Err(WalkError::Node(NodeError::ObjectKind { oid, .. })) => Some(oid),
        _ => None,
    }
}

/// The id of a tree, of a tag, and of no object.
#[test]
fn fails_if_id_names_no_commit(rt: HostRuntime) {
    let missing: &[u8] = b"1111111111111111111111111111111111111111";
    for hex in [EMPTY_TREE, V1, missing] {
        assert!(rt; unread(rt.alloc(), id(hex)) == Some(id(hex)));
    }
}

/// Returns whether two commits have this merge base alone.
fn have_base(alloc: Global, one: ObjectId, other: ObjectId, base: ObjectId) -> bool {
    let Ok(store) = store_of(alloc) else {
        return false;
    };
    let found = merge_bases(alloc, &store, one, other);
    matches!(&found, Ok(ids) if ids.as_slice() == [base].as_slice())
}

/// `git merge-base --all` prints the same.
#[test]
fn finds_merge_bases(rt: HostRuntime) {
    let alloc = rt.alloc();
    assert!(rt; have_base(alloc, id(D), id(C), id(A)));
    assert!(rt; have_base(alloc, id(M), id(C), id(C)));
}

/// Returns whether a commit is an ancestor of another one, or the same. `None` if that isn't found.
fn reaches(alloc: Global, ancestor: ObjectId, commit: ObjectId) -> Option<bool> {
    let store = store_of(alloc).ok()?;
    is_ancestor(alloc, &store, ancestor, commit).ok()
}

/// `git merge-base --is-ancestor` has the same status.
#[test]
fn tests_ancestors(rt: HostRuntime) {
    let alloc = rt.alloc();
    assert!(rt; reaches(alloc, id(B), id(M)) == Some(true));
    assert!(rt; reaches(alloc, id(C), id(D)) == Some(false));
    assert!(rt; reaches(alloc, id(C), id(C)) == Some(true));
}
