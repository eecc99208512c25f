//! Walks through a caller's own store of three commits and their trees, and logs of them.

use gix_object::hash::{Kind as HashKind, ObjectId};
use gix_object::{Data, Exists, FindHeader, Kind};
use gixobj_examples_edits::history::{Error, ancestor, entry_of, history_len};
use gixobj_examples_edits::shelf::Shelf;
use gixobj_listings::history::{CommitLog, LogEnd, LoggedCommit, log};
use gixobj_tests_api::samples::{id, path_of};
use std::alloc::Global;

/// Id that `git mktree --missing` prints for the file `test.txt` with the id
/// `83baae61804e65cc73a7201a7252750c76066a30`.
const BAK: &[u8] = b"d8329fc1cc938780ffdd9f94e0d364e0ea74f579";

const BAK_BYTES: &[u8] = b"100644 test.txt\0\
    \x83\xba\xae\x61\x80\x4e\x65\xcc\x73\xa7\x20\x1a\x72\x52\x75\x0c\x76\x06\x6a\x30";

/// Id that `git mktree --missing` prints for the tree `BAK` as `bak`, and two files.
const ROOT: &[u8] = b"3c4e9cd789d88d8d89c1073707c3585e41b0e614";

const ROOT_BYTES: &[u8] = b"40000 bak\0\
    \xd8\x32\x9f\xc1\xcc\x93\x87\x80\xff\xdd\x9f\x94\xe0\xd3\x64\xe0\xea\x74\xf5\x79\
    100644 new.txt\0\
    \xfa\x49\xb0\x77\x97\x23\x91\xad\x58\x03\x70\x50\xf2\xa7\x5f\x74\xe3\x67\x1e\x92\
    100644 test.txt\0\
    \x1f\x7a\x7a\x47\x2a\xbf\x3d\xd9\x64\x3f\xd6\x15\xf6\xda\x37\x9c\x4a\xcb\x3e\x3a";

/// Id that `git hash-object -t commit` prints for the first commit.
const FIRST: &[u8] = b"bd428a258222b05846c102abd2c3ce6b7f34b5f8";

const FIRST_BYTES: &[u8] = b"tree d8329fc1cc938780ffdd9f94e0d364e0ea74f579\n\
    author A <a@b> 0 +0000\n\
    committer A <a@b> 0 +0000\n\
    \nfirst\n";

/// Id that `git hash-object -t commit` prints for the second commit.
const SECOND: &[u8] = b"528c29ecfcd64f329e231522dc53495bf0e9b054";

const SECOND_BYTES: &[u8] = b"tree 3c4e9cd789d88d8d89c1073707c3585e41b0e614\n\
    parent bd428a258222b05846c102abd2c3ce6b7f34b5f8\n\
    author A <a@b> 0 +0000\n\
    committer A <a@b> 0 +0000\n\
    \nsecond\n";

/// Id that `git hash-object -t commit` prints for a merge of the second commit with another.
const MERGE: &[u8] = b"4d7085ad2b70de744c3cd6a783e8e3d50d8bfc6a";

const MERGE_BYTES: &[u8] = b"tree 3c4e9cd789d88d8d89c1073707c3585e41b0e614\n\
    parent 528c29ecfcd64f329e231522dc53495bf0e9b054\n\
    parent cc6d06b3595138e52f1f6523cddf1944996abc70\n\
    author A <a@b> 0 +0000\n\
    committer A <a@b> 0 +0000\n\
    \nMerge the\nside\n\nBody.\n";

/// Id that `git hash-object` prints for `hello` and a newline.
const HELLO: &[u8] = b"ce013625030ba8dba906f756967f9e9ca394464a";

/// Id that `git rev-parse` prints for `bak/test.txt` in the second commit.
const VERSION_1: &[u8] = b"83baae61804e65cc73a7201a7252750c76066a30";

fn object(hex: &[u8], kind: Kind, bytes: &'static [u8]) -> (ObjectId, Data<'static>) {
    (id(hex), Data::new(bytes, kind, HashKind::Sha1))
}

/// The merge, the second commit, the first, both trees, and a blob, with their ids.
fn objects() -> [(ObjectId, Data<'static>); 6] {
    [
        object(MERGE, Kind::Commit, MERGE_BYTES),
        object(SECOND, Kind::Commit, SECOND_BYTES),
        object(FIRST, Kind::Commit, FIRST_BYTES),
        object(BAK, Kind::Tree, BAK_BYTES),
        object(ROOT, Kind::Tree, ROOT_BYTES),
        object(HELLO, Kind::Blob, b"hello\n"),
    ]
}

#[test]
fn finds_objects_on_shelf(rt: HostRuntime) {
    let objects = objects();
    let store = Shelf { objects: &objects };
    let tree = store.try_header(id(BAK).as_oid());
    assert!(rt; matches!(&tree, Ok(Some(it)) if it.kind == Kind::Tree && it.size == 36));
    assert!(rt; store.exists(id(BAK).as_oid()));
    let blob = store.try_header(id(HELLO).as_oid());
    assert!(rt; matches!(&blob, Ok(Some(it)) if it.kind == Kind::Blob && it.size == 6));
    assert!(rt; store.exists(id(HELLO).as_oid()));
    assert!(rt; !store.exists(ObjectId::empty_blob(HashKind::Sha1).as_oid()));
}

#[test]
fn finds_ancestor_in_each_generation(rt: HostRuntime) {
    let alloc = rt.alloc();
    let objects = objects();
    let store = Shelf { objects: &objects };
    assert!(rt; ancestor(alloc, &store, id(SECOND), 0).ok() == Some(id(SECOND)));
    assert!(rt; ancestor(alloc, &store, id(SECOND), 1).ok() == Some(id(FIRST)));
    assert!(rt;
        matches!(
            &ancestor(alloc, &store, id(SECOND), 2),
            Err(Error::NoParent(_))
        )
    );
}

/// Names the result of the lookup of a path in the tree of a commit.
fn found_at(alloc: Global, commit: &[u8], names: &[&str]) -> &'static str {
    let objects = objects();
    let store = Shelf { objects: &objects };
    match &entry_of(alloc, &store, id(commit), &path_of(alloc, names)) {
        Ok(Some(it))
            if it.oid == id(VERSION_1) && it.filename.as_bytes() == b"test.txt".as_slice() => {
            "version 1"
        }
        Ok(None) => "nothing",
        Err(Error::Commit(_)) => "no commit",
        _ => "otherwise",
    }
}

/// The last lookup is of a tree as a commit.
#[test]
fn finds_entries_at_paths_of_commits_only(rt: HostRuntime) {
    let alloc = rt.alloc();
    assert!(rt; found_at(alloc, SECOND, &["bak", "test.txt"]) == "version 1");
    assert!(rt; found_at(alloc, FIRST, &["test.txt"]) == "version 1");
    assert!(rt; found_at(alloc, SECOND, &["bak", "new.txt"]) == "nothing");
    assert!(rt; found_at(alloc, ROOT, &["bak"]) == "no commit");
}

/// Whether this is the commit of that id and title, by the author of both.
fn is_logged(commit: &LoggedCommit, hex: &[u8], title: &[u8]) -> bool {
    commit.id == id(hex)
        && commit.title.as_bytes() == title
        && commit.author.as_bytes() == b"A".as_slice()
        && commit.email.as_bytes() == b"a@b".as_slice()
}

/// Whether these are the second commit and the first.
fn are_both(second: &LoggedCommit, first: &LoggedCommit) -> bool {
    is_logged(second, SECOND, b"second") && is_logged(first, FIRST, b"first")
}

/// Names the end of a log of commits.
fn end_name(log: &CommitLog) -> &'static str {
    match (log.commits.as_slice(), &log.end) {
        ([merge, second, first], LogEnd::Root)
            if is_logged(merge, MERGE, b"Merge the side") && are_both(second, first) => {
            "merge and both"
        }
        ([second, first], LogEnd::Root) if are_both(second, first) => "both",
        ([_], LogEnd::Unread { id: at, .. }) if *at == id(FIRST) => "second, without first",
        ([_], LogEnd::TooLong { id: at }) if *at == id(FIRST) => "second, before first",
        ([], LogEnd::TooLong { .. }) => "none",
        _ => "otherwise",
    }
}

/// Names the end of a log over a store of the first `count` objects, with at most `max_commits`.
fn logged(alloc: Global, count: usize, tip: &[u8], max_commits: u32) -> &'static str {
    let all = objects();
    let store = Shelf {
        objects: all.get(..count).unwrap_or(&[]),
    };
    match &log(alloc, &store, id(tip), max_commits) {
        Ok(log) => end_name(log),
        Err(_) => "no log",
    }
}

/// The log of the merge is the one that `git log --first-parent` prints. No log needs the trees.
#[test]
fn logs_commits_by_first_parents(rt: HostRuntime) {
    let alloc = rt.alloc();
    assert!(rt; logged(alloc, 3, MERGE, 9) == "merge and both");
    assert!(rt; logged(alloc, 5, SECOND, 2) == "both");
    assert!(rt; logged(alloc, 3, SECOND, 1) == "second, before first");
    assert!(rt; logged(alloc, 3, SECOND, 0) == "none");
    assert!(rt; logged(alloc, 2, SECOND, 2) == "second, without first");
}

/// The number is the one that `git rev-list --first-parent --count` prints.
#[test]
fn counts_commits_by_first_parents(rt: HostRuntime) {
    let alloc = rt.alloc();
    let objects = objects();
    let store = Shelf { objects: &objects };
    assert!(rt; matches!(&history_len(alloc, &store, id(MERGE), 9), Ok(Some(3))));
    assert!(rt; matches!(&history_len(alloc, &store, id(MERGE), 3), Ok(Some(3))));
    assert!(rt; matches!(&history_len(alloc, &store, id(MERGE), 2), Ok(None)));
}
