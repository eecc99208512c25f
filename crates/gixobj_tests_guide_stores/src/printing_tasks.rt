//! Calls the examples of docs/GUIDE.md once that print, and the one that edits a commit.

use crate::more_tasks::{NESTED, nested};
use crate::tasks::{commit_edits, prints, programs, records, stored_commits};
use bstr::BString;
use gix_object::date::Time;
use gix_object::hash::ObjectId;
use gix_object::{Error, Exists, Memory};
use gixobj_tests_api::objects::{BLOB, SECOND, TREE};
use gixobj_tests_api::samples::{actor, id, string_of};
use std::alloc::Global;

/// What `git cat-file --batch` prints for both commits.
const BATCH: &[u8] = b"df0d5713d06ef4f4e7699d6813312b896de0436b commit 176\n\
    tree 6a1189fc1d3cfd1b49810fec0ce01390b8239044\n\
    parent cfe258e596ae478f05508755d7b1559681b5833a\n\
    author A U Thor <a@b> 7 +0100\n\
    committer A <a@b> 8 +0000\n\
    \nsecond\n\nSigned-off-by: A\n\n\
    cfe258e596ae478f05508755d7b1559681b5833a commit 102\n\
    tree 4b825dc642cb6eb9a060e54bf8d69288fbee4904\n\
    author A <a@b> 0 +0000\n\
    committer A <a@b> 0 +0000\n\
    \nfirst\n\n";

/// What `git log --first-parent --format='%H %s'` prints for the second commit.
const LOG: &[u8] = b"df0d5713d06ef4f4e7699d6813312b896de0436b second\n\
    cfe258e596ae478f05508755d7b1559681b5833a first\n";

/// What `git cat-file --batch` prints for an id without object.
const MISSING: &[u8] = b"cfe258e596ae478f05508755d7b1559681b5833a missing\n";

/// Whether the log of the second commit, read from these bytes, has both lines.
fn is_logged(alloc: Global, mut batch: &[u8]) -> bool {
    let mut out = Vec::new(alloc);
    match programs::read_objects(alloc, &mut batch) {
        Ok(store) => programs::print_log(alloc, &store, id(SECOND), &mut out).is_ok()
            && out.as_slice() == LOG,
        Err(_) => false,
    }
}

/// Whether no store is made of these bytes.
fn is_rejected(alloc: Global, mut batch: &[u8]) -> bool {
    programs::read_objects(alloc, &mut batch).is_err()
}

#[test]
fn prints_log_of_batch(rt: HostRuntime) {
    let alloc = rt.alloc();
    assert!(rt; is_logged(alloc, BATCH));
    assert!(rt; is_rejected(alloc, MISSING));
    assert!(rt;
        is_rejected(
            alloc,
            b"cfe258e596ae478f05508755d7b1559681b5833a blob 6\nhello"
        )
    );
}

/// Whether these are two titles.
fn are_titles(titles: &[BString], one: &[u8], two: &[u8]) -> bool {
    match titles {
        [first, second] => first.as_bytes() == one && second.as_bytes() == two,
        _ => false,
    }
}

/// Whether these bytes have the titles of the second commit and of its first parent.
fn has_titles(alloc: Global, batch: &[u8]) -> bool {
    match records::titles(alloc, batch, id(SECOND)) {
        Ok(titles) => are_titles(&titles, b"second", b"first"),
        Err(_) => false,
    }
}

#[test]
fn lists_titles_of_records(rt: HostRuntime) {
    assert!(rt; has_titles(rt.alloc(), BATCH));
    assert!(rt; records::titles(rt.alloc(), MISSING, id(SECOND)).is_err());
}

/// What `git ls-tree -r` prints for the nested tree.
const FILES: &[u8] = b"100644 blob ce013625030ba8dba906f756967f9e9ca394464a\tdocs/a.txt\n\
    100755 blob e69de29bb2d1d6434b8b29ae775ad8c2e48c5391\tdocs/run.sh\n\
    100644 blob ce013625030ba8dba906f756967f9e9ca394464a\tz.txt\n";

/// What `git diff-tree -r --name-status` prints for the tree and the nested one.
const CHANGES: &[u8] = b"D\ta.txt\nA\tdocs/a.txt\nA\tdocs/run.sh\nD\trun.sh\nA\tz.txt\n";

/// Whether the files of the nested tree are printed.
fn are_files_printed(alloc: Global, store: &Memory) -> bool {
    let mut out = Vec::new(alloc);
    prints::print_files(alloc, store, id(NESTED), &mut out).is_ok() && out.as_slice() == FILES
}

/// Whether the changes from the tree to the nested one are printed.
fn are_changes_printed(alloc: Global, store: &Memory) -> bool {
    let mut out = Vec::new(alloc);
    prints::print_changes(alloc, store, id(TREE), id(NESTED), &mut out).is_ok()
        && out.as_slice() == CHANGES
}

#[test]
fn prints_files_and_changes(rt: HostRuntime) {
    let alloc = rt.alloc();
    let store = nested(alloc);
    assert!(rt; are_files_printed(alloc, &store));
    assert!(rt; are_changes_printed(alloc, &store));
}

/// Commits the file `docs/c.txt` on top of the second commit.
fn committed(alloc: Global, store: &mut Memory) -> Result<ObjectId, Error> {
    let time = Time::new(3600, 3600).unwrap_or_default();
    let author = actor(alloc, b"A U Thor", b"author@example.com", time)?;
    let message = string_of(alloc, b"third\n");
    commit_edits::commit_file(
        alloc,
        store,
        id(SECOND),
        b"docs/c.txt",
        id(BLOB),
        author,
        message,
    )
}

/// Id that `git commit-tree` prints for the third commit.
const THIRD: &[u8] = b"83b68fd50eefc68e504890b688b1d402aeda2170";

/// Id that `git mktree` prints for the directory `docs` with `c.txt`.
const DOCS: &[u8] = b"2bcada35da78a7011b5497fcf851bb11e2353a39";

#[test]
fn commits_edited_tree(rt: HostRuntime) {
    let alloc = rt.alloc();
    let mut store = stored_commits(alloc);
    let third = committed(alloc, &mut store).ok();
    assert!(rt; third == Some(id(THIRD)));
    assert!(rt; store.exists(id(THIRD).as_oid()) && store.exists(id(DOCS).as_oid()));
}
