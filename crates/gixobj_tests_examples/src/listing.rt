//! Lists and comparisons of two small trees, with the results of `git ls-tree -r` and `git diff-tree -r`.

use crate::samples::has_names;
use gix_object::hash::Kind as HashKind;
use gix_object::tree::{EntryKind, EntryMode};
use gix_object::{Memory, Tree};
use gixobj_listings::differences::{Change, changes};
use gixobj_listings::listing::{File, ListError, UnreadError, files_of};
use gixobj_tests_api::samples::{id, tree_of};
use std::alloc::Global;

const HELLO: &[u8] = b"ce013625030ba8dba906f756967f9e9ca394464a";

pub(crate) const EMPTY: &[u8] = b"e69de29bb2d1d6434b8b29ae775ad8c2e48c5391";

const LINK: &[u8] = b"8d14cbf983b3fad683171c9418998d9f68340823";

const Z: &[u8] = b"b68025345d5301abad4d9ec9166f455243a0d746";

const X: &[u8] = b"587be6b4c3f93f93c489c0111bba5596147a26cb";

pub(crate) const CHANGED: &[u8] = b"5ea2ed416fbd4a4cbe227b75fe255dd7fa6bd4d6";

pub(crate) const IN: &[u8] = b"4935e88d323e7973308dd73cccf2837fc3c7de22";

/// Ids that `git write-tree` prints for the first tree and its directories.
pub(crate) const FIRST: &[u8] = b"9b651e6bf0707c29dbcb9ca62bc34dd78aa22301";

const DOCS: &[u8] = b"695c20eb4f8015b2efb978adee24011d24bf38c5";

const DEEP: &[u8] = b"ab69b4abf3bb84d4e268bd42d84e4a9a5e242bd3";

/// Ids that `git write-tree` prints for the second tree and its directories.
pub(crate) const SECOND: &[u8] = b"e7b82b777edbc48e3f69f593594c5c4b464de36d";

const SECOND_DOCS: &[u8] = b"9eabd18f4549d751e89cd911ee113bb3b5d05633";

const SECOND_DEEP: &[u8] = b"b44c656b4143fb2c41a33dc73f2c83d3995b04b8";

const A_TXT: &[u8] = b"dfcec44e7a32446d48ecfd378aa5d18bdee4bf74";

/// An entry of a tree: kind, name and id.
type EntryRow = (EntryKind, &'static [u8], &'static [u8]);

/// The first tree.
const FIRST_TREE: &[EntryRow] = &[
    (EntryKind::Blob, b"a.txt", HELLO),
    (EntryKind::Blob, b"docs-z", Z),
    (EntryKind::Tree, b"docs", DOCS),
    (EntryKind::Link, b"link", LINK),
];

/// The second tree.
const SECOND_TREE: &[EntryRow] = &[
    (EntryKind::Tree, b"a.txt", A_TXT),
    (EntryKind::Blob, b"docs-z", Z),
    (EntryKind::Tree, b"docs", SECOND_DOCS),
    (EntryKind::Link, b"link", LINK),
];

/// Both trees and their directories, with their ids.
const TREES: [(&[EntryRow], &[u8]); 7] = [
    (&[(EntryKind::Blob, b"x", X)], DEEP),
    (
        &[
            (EntryKind::Tree, b"deep", DEEP),
            (EntryKind::BlobExecutable, b"run.sh", EMPTY),
        ],
        DOCS,
    ),
    (FIRST_TREE, FIRST),
    (&[(EntryKind::Blob, b"x", CHANGED)], SECOND_DEEP),
    (&[(EntryKind::Blob, b"in", IN)], A_TXT),
    (
        &[
            (EntryKind::Tree, b"deep", SECOND_DEEP),
            (EntryKind::Blob, b"run.sh", EMPTY),
        ],
        SECOND_DOCS,
    ),
    (SECOND_TREE, SECOND),
];

/// The files that `git ls-tree -r` prints for the first tree: kinds, ids and paths.
const LISTING: [(EntryKind, &[u8], &[&str]); 5] = [
    (EntryKind::Blob, HELLO, &["a.txt"]),
    (EntryKind::Blob, Z, &["docs-z"]),
    (EntryKind::Blob, X, &["docs", "deep", "x"]),
    (EntryKind::BlobExecutable, EMPTY, &["docs", "run.sh"]),
    (EntryKind::Link, LINK, &["link"]),
];

/// A change as `git diff-tree -r --name-status` prints it: its letter, and the names of its path.
type ChangeRow = (&'static str, &'static [&'static str]);

/// What it prints for both trees.
pub(crate) const CHANGES: [ChangeRow; 4] = [
    ("D", &["a.txt"]),
    ("A", &["a.txt", "in"]),
    ("M", &["docs", "deep", "x"]),
    ("M", &["docs", "run.sh"]),
];

/// The tree of these entries. With fewer if memory runs out.
fn tree_in(alloc: Global, rows: &[EntryRow]) -> Tree {
    let mut entries = Vec::new(alloc);
    for &(kind, name, hex) in rows {
        let _ = entries.push((kind, name, id(hex)));
    }
    tree_of(alloc, &entries)
}

/// A store of both trees; whether they have git's ids.
pub(crate) fn store(alloc: Global) -> (Memory, bool) {
    let mut store = Memory::new(alloc);
    let mut has_ids = true;
    for &(rows, hex) in &TREES {
        let written = store.write(HashKind::Sha1, &tree_in(alloc, rows));
        has_ids = written.ok() == Some(id(hex)) && has_ids;
    }
    (store, has_ids)
}

/// Whether a listed file has this kind, id and path.
fn is_file(alloc: Global, file: &File, kind: EntryKind, hex: &[u8], names: &[&str]) -> bool {
    file.mode == EntryMode::from(kind) && file.id == id(hex) && has_names(alloc, &file.path, names)
}

/// Whether the files of the first tree are listed as git lists them.
fn are_listed(alloc: Global, files: &[File]) -> bool {
    for (file, &(kind, hex, names)) in files.iter().zip(&LISTING) {
        if !is_file(alloc, file, kind, hex, names) {
            return false;
        }
    }
    files.len() == LISTING.len()
}

/// The letter of a change.
fn letter(change: &Change) -> &'static str {
    match (change.before, change.after) {
        (None, _) => "A",
        (_, None) => "D",
        _ => "M",
    }
}

/// Whether these are the changes of the rows.
pub(crate) fn are_changes(alloc: Global, changes: &[Change], rows: &[ChangeRow]) -> bool {
    for (change, &(wanted, names)) in changes.iter().zip(rows) {
        if letter(change) != wanted || !has_names(alloc, &change.path, names) {
            return false;
        }
    }
    changes.len() == rows.len()
}

#[test]
fn lists_files_and_changes_as_git(rt: HostRuntime) {
    let alloc = rt.alloc();
    let (store, has_ids) = store(alloc);
    assert!(rt; has_ids);
    let files = files_of(alloc, &store, id(FIRST), 3);
    assert!(rt; matches!(&files, Ok(files) if are_listed(alloc, files)));
    let changed = changes(alloc, &store, id(FIRST), id(SECOND), 3);
    assert!(rt; matches!(&changed, Ok(found) if are_changes(alloc, found, &CHANGES)));
    let unchanged = changes(alloc, &store, id(FIRST), id(FIRST), 3);
    assert!(rt; matches!(&unchanged, Ok(found) if found.is_empty()));
}

/// Names the directory at which a listing stops, and the cause, if its path has these names.
fn stops_at(alloc: Global, listed: &Result<Vec<File>, ListError>, names: &[&str]) -> &'static str {
    match listed {
        Err(ListError::Directory { path, .. }) if !has_names(alloc, path, names) => "another path",
        Err(
            ListError::Directory {
                id: at,
                cause: UnreadError::TooDeep,
                ..
            },
        ) if *at == id(DEEP) => "deep, too deep",
        Err(
            ListError::Directory {
                id: at,
                cause: UnreadError::Tree(_),
                ..
            },
        ) if *at == id(DOCS) => "docs, not read",
        _ => "otherwise",
    }
}

/// A store of the first tree without its directories.
fn store_of_first(alloc: Global) -> Memory {
    let mut store = Memory::new(alloc);
    let _ = store.write(HashKind::Sha1, &tree_in(alloc, FIRST_TREE));
    store
}

#[test]
fn stops_at_first_directory_that_is_not_read(rt: HostRuntime) {
    let alloc = rt.alloc();
    let (store, _) = store(alloc);
    let listed = files_of(alloc, &store, id(FIRST), 2);
    assert!(rt; stops_at(alloc, &listed, &["docs", "deep"]) == "deep, too deep");
    let listed = files_of(alloc, &store_of_first(alloc), id(FIRST), 3);
    assert!(rt; stops_at(alloc, &listed, &["docs"]) == "docs, not read");
}

/// Changes to a tree that has only the directory `docs`. The store lacks it; both trees have it.
const TO_DOCS: [ChangeRow; 3] = [("D", &["a.txt"]), ("D", &["docs-z"]), ("D", &["link"])];

#[test]
fn opens_no_equal_directories(rt: HostRuntime) {
    let alloc = rt.alloc();
    let mut store = store_of_first(alloc);
    let docs = tree_in(alloc, &[(EntryKind::Tree, b"docs", DOCS)]);
    let docs = store.write(HashKind::Sha1, &docs).unwrap_or(id(b""));
    let changed = changes(alloc, &store, id(FIRST), docs, 3);
    assert!(rt; matches!(&changed, Ok(found) if are_changes(alloc, found, &TO_DOCS)));
}
