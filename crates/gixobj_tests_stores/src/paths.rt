//! Lookups of entries along paths through the trees of a store.

use crate::failing::{Failing, OFFLINE};
use crate::samples::{BAK, ROOT, ROOT_BYTES, VERSION_1, id, names, stored_trees};
use gixobj_hash::Kind;
use gixobj_hash::hash::{Kind as HashKind, ObjectId};
use gixobj_store::tree::path_names;
use gixobj_store::{Find, TreeRefIter};
use gixobj_store_find::find;
use gixobj_tree::tree::Entry;
use gixobj_tree_entries::EntryKind;
use std::alloc::Global;

/// The result of a lookup, reduced to its case.
#[derive(Clone, Copy, PartialEq, Eq)]
pub(crate) enum Answer {
    Entry(EntryKind, ObjectId),
    /// An entry of another name than the last one of the path.
    OfAnotherName,
    Nothing,
    /// The error of a store that fails, with its message.
    Offline,
    WithoutMemory,
    Failed,
}

/// Classifies the result of a lookup of an entry with this name.
fn classify(found: &Result<Option<Entry>, find::Error>, name: &str) -> Answer {
    match found {
        Ok(Some(entry)) if entry.filename.as_bytes() == name.as_bytes() => {
            Answer::Entry(entry.mode.kind(), entry.oid)
        }
        Ok(Some(_)) => Answer::OfAnotherName,
        Ok(None) => Answer::Nothing,
        Err(find::Error::OutOfMemory) => Answer::WithoutMemory,
        Err(find::Error::Store(message)) if message.as_bytes() == OFFLINE => Answer::Offline,
        Err(_) => Answer::Failed,
    }
}

/// A tree's encoding, and the kind of its ids.
pub(crate) type Encoded = (&'static [u8], HashKind);

/// Looks up the entry at a path from this tree. Its last name is `name`.
pub(crate) fn at_path<S: Find>(
    alloc: Global,
    store: &S,
    tree: Encoded,
    path: &[u8],
    name: &str,
) -> Answer {
    let mut buffer = Vec::new(alloc);
    let reader = TreeRefIter::from_bytes(tree.0, tree.1);
    let found = reader.lookup_entry_by_path(alloc, store, &mut buffer, path);
    classify(&found, name)
}

/// The tree [`ROOT`].
const FROM_ROOT: Encoded = (ROOT_BYTES, HashKind::Sha1);

/// A tree of two entries: a blob with the mode of a directory, and the tree [`BAK`] with the mode of a file.
const MIXED: Encoded = (
    b"40000 blob\0\
    \x7c\x4f\x37\x27\x7f\xed\x15\xcf\x3c\x1f\x1a\x81\x36\xb7\x5a\xbd\x99\x63\x38\xee\
    100644 file\0\
    \xd8\x32\x9f\xc1\xcc\x93\x87\x80\xff\xdd\x9f\x94\xe0\xd3\x64\xe0\xea\x74\xf5\x79",
    HashKind::Sha1,
);

/// Two entries of one name, and a third after a malformed one.
const TWICE: Encoded = (
    b"100644 a\0aaaaaaaaaaaaaaaaaaaa40000 a\0bbbbbbbbbbbbbbbbbbbb!100644 c\0cccccccccccccccccccc",
    HashKind::Sha1,
);

/// The encoding of a tree of one file, whose id has 32 bytes.
const FILE_OF_SHA256: &[u8] = b"100644 b\0\
    \x07\x07\x07\x07\x07\x07\x07\x07\x07\x07\x07\x07\x07\x07\x07\x07\
    \x07\x07\x07\x07\x07\x07\x07\x07\x07\x07\x07\x07\x07\x07\x07\x07";

/// A tree of the tree [`FILE_OF_SHA256`] as `a`, by the id that git computes.
const ABOVE_SHA256: Encoded = (
    b"40000 a\0\
    \x5a\x6d\xbd\x4b\x20\x61\x9c\x8f\x7f\xbd\x8d\x59\x5a\x8b\x4c\xad\
    \x1f\xe0\x85\xb0\x5f\xbf\x1d\x91\x59\x69\x21\xb9\xe1\x85\x14\x26",
    HashKind::Sha256,
);

/// The ids of the file of each of the last two trees.
const FIRST_OF_TWICE: &[u8] = b"6161616161616161616161616161616161616161";

const OF_SHA256: &[u8] = b"0707070707070707070707070707070707070707070707070707070707070707";

/// A tree, a path from it, and the name, kind and id of the entry, if there is one.
type Row = (
    Encoded,
    &'static [u8],
    Option<(&'static str, EntryKind, &'static [u8])>,
);

/// Paths with an entry; without a name; below a file that the store lacks; with a missing name, first or last.
/// The part `.` is a name. A path through a blob finds nothing, and one through an entry with a file's mode and
/// a tree's id finds the entry. Of two entries of one name the first is found, and none after a malformed one.
const ROWS: &[Row] = &[
    (
        FROM_ROOT,
        b"bak//test.txt",
        Some(("test.txt", EntryKind::Blob, VERSION_1)),
    ),
    (FROM_ROOT, b"bak", Some(("bak", EntryKind::Tree, BAK))),
    (FROM_ROOT, b"/bak/", Some(("bak", EntryKind::Tree, BAK))),
    (FROM_ROOT, b"//bak", Some(("bak", EntryKind::Tree, BAK))),
    (FROM_ROOT, b"", None),
    (FROM_ROOT, b"/", None),
    (FROM_ROOT, b"new.txt/q", None),
    (FROM_ROOT, b"none", None),
    (FROM_ROOT, b"none/test.txt", None),
    (FROM_ROOT, b"bak/none", None),
    (FROM_ROOT, b"./bak", None),
    (FROM_ROOT, b"bak/.", None),
    (MIXED, b"blob/q", None),
    (
        MIXED,
        b"file/test.txt",
        Some(("test.txt", EntryKind::Blob, VERSION_1)),
    ),
    (TWICE, b"a", Some(("a", EntryKind::Blob, FIRST_OF_TWICE))),
    (TWICE, b"c", None),
    (
        ABOVE_SHA256,
        b"a/b",
        Some(("b", EntryKind::Blob, OF_SHA256)),
    ),
];

#[test]
fn finds_entries_at_paths(rt: HostRuntime) {
    let mut store = stored_trees(rt.alloc());
    let blob = store.insert(Kind::Blob, HashKind::Sha1, b"100644 q\0");
    assert!(rt; blob.ok() == Some(id(b"7c4f37277fed15cf3c1f1a8136b75abd996338ee")));
    let tree = store.insert(Kind::Tree, HashKind::Sha256, FILE_OF_SHA256);
    assert!(rt; tree.is_ok());
    for &(tree, path, wanted) in ROWS {
        let (name, expected) = match wanted {
            Some((name, kind, hex)) => (name, Answer::Entry(kind, id(hex))),
            None => ("", Answer::Nothing),
        };
        let answer = at_path(rt.alloc(), &store, tree, path, name);
        assert!(rt; answer == expected, "{path:?}");
    }
}

/// Looks up the entry of these names from this tree; `Failed` if they can't be allocated.
fn at_names<S: Find>(alloc: Global, store: &S, tree: Encoded, path: &[&str]) -> Answer {
    let Ok(names) = names(alloc, path) else {
        return Answer::Failed;
    };
    let mut buffer = Vec::new(alloc);
    let reader = TreeRefIter::from_bytes(tree.0, tree.1);
    let found = reader.lookup_entry(alloc, store, &mut buffer, &names);
    classify(&found, path.last().copied().unwrap_or(""))
}

/// Names of a path, and whether there is an entry.
const NAMES: &[(&[&str], bool)] = &[
    (&["bak", "test.txt"], true),
    (&["bak", "", "test.txt"], false),
    (&["bak/test.txt"], false),
    (&[], false),
];

/// Names are looked up unchanged: an empty one, or one with a slash, like others.
#[test]
fn looks_up_names_unchanged(rt: HostRuntime) {
    let store = stored_trees(rt.alloc());
    for &(path, is_there) in NAMES {
        let expected = match is_there {
            true => Answer::Entry(EntryKind::Blob, id(VERSION_1)),
            false => Answer::Nothing,
        };
        let answer = at_names(rt.alloc(), &store, FROM_ROOT, path);
        assert!(rt; answer == expected, "{path:?}");
    }
}

/// A tree of one entry, the tree [`ROOT`] as `top`.
const TOP: Encoded = (
    b"40000 top\0\
    \x3c\x4e\x9c\xd7\x89\xd8\x8d\x8d\x89\xc1\x07\x37\x07\xc3\x58\x5e\x41\xb0\xe6\x14",
    HashKind::Sha1,
);

/// The names and the path of a file from the tree [`TOP`].
const FILE_NAMES: &[&str] = &["top", "bak", "test.txt"];

const FILE_PATH: &[u8] = b"top/bak/test.txt";

/// The lookups that fail if the store fails for the first entry on the path, or for the second, both times.
/// With each, the number of lookups along the path.
const FAILURES: &[(&'static [u64], u64)] = &[(&[1, 2], 1), (&[2, 4], 2)];

/// The path `top` needs no lookup. A lookup by names and then one by a path fail with the message of the store,
/// each after `count` lookups in it. The next ones find the file, by two lookups each.
#[test]
fn returns_message_of_store_that_fails_on_path(rt: HostRuntime) {
    let alloc = rt.alloc();
    let file = Answer::Entry(EntryKind::Blob, id(VERSION_1));
    let top = Answer::Entry(EntryKind::Tree, id(ROOT));
    for &(lookups, count) in FAILURES {
        let store = Failing::new(alloc, stored_trees(alloc), lookups, &[]);
        assert!(rt; at_path(alloc, &store, TOP, b"top", "top") == top);
        assert!(rt; store.lookups() == 0);
        assert!(rt; at_names(alloc, &store, TOP, FILE_NAMES) == Answer::Offline);
        assert!(rt; store.lookups() == count);
        let by_path = at_path(alloc, &store, TOP, FILE_PATH, "test.txt");
        assert!(rt; by_path == Answer::Offline, "{count}");
        let failed = store.lookups();
        assert!(rt; failed == count.saturating_add(count));
        assert!(rt; at_names(alloc, &store, TOP, FILE_NAMES) == file);
        assert!(rt; store.lookups() == failed.saturating_add(2));
        let by_path = at_path(alloc, &store, TOP, FILE_PATH, "test.txt");
        assert!(rt; by_path == file, "{count}");
        assert!(rt; store.lookups() == failed.saturating_add(4));
    }
}

/// Paths with their names: empty parts are skipped, and dots are names.
const NAMED_PATHS: &[(&[u8], &[&[u8]])] = &[
    (b"", &[]),
    (b"///", &[]),
    (b"a", &[b"a"]),
    (b"/src//lib.rs/", &[b"src", b"lib.rs"]),
    (b"./..", &[b".", b".."]),
];

/// Returns whether a path has these names, or `None` if an allocation fails.
fn has_names(alloc: Global, path: &[u8], wanted: &[&[u8]]) -> Option<bool> {
    let found = path_names(alloc, path).ok()?;
    if found.len() != wanted.len() {
        return Some(false);
    }
    for (name, part) in found.iter().zip(wanted) {
        if name.as_bytes() != *part {
            return Some(false);
        }
    }
    Some(true)
}

#[test]
fn splits_paths_whatever_allocation_fails(rt: HostRuntime) {
    for &(path, names) in NAMED_PATHS {
        let mut holds = has_names(rt.alloc(), path, names);
        if holds.is_none() {
            holds = has_names(rt.alloc(), path, names);
        }
        assert!(rt; holds == Some(true), "{path:?}");
    }
}
