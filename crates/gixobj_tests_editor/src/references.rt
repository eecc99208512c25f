//! Edits that return the editor or the cursor: the state after edits that fail, and after one that succeeds.
//! Ids are those that `git mktree --missing` and `git hash-object` print.

use crate::entries::{Got, gets_all, gets_all_by};
use crate::faulty::{Faulty, MESSAGE, TOO_LARGE, UNREADABLE};
use crate::samples::{
    FILE, TREE_OF_B, cursor_of, inserts_directory, path_of, removed, stored, tree_of, upserted,
    upserted_by, writes,
};
use gixobj_base::hash::{Kind as HashKind, ObjectId};
use gixobj_base::tree::EntryKind;
use gixobj_base::{Kind, Tree};
use gixobj_editor::editor::{Cursor, Editor, Error};
use gixobj_store::find;
use gixobj_store_keep::Memory;
use gixobj_store_keep::find::existing_object;
use std::alloc::Global;
use std::cell::Cell;

/// An id that the store lacks.
const UNKNOWN: ObjectId = ObjectId::Sha1([3; 20]);

/// A tree whose entries are out of order.
const UNORDERED: &[u8] = b"100644 b\0aaaaaaaaaaaaaaaaaaaa100644 a\0aaaaaaaaaaaaaaaaaaaa";

/// Stores a tree of five directories, and returns its id. The directory `a` has the file `b`, the entries of `m`
/// are out of order, and the lookups of the others fail.
fn stored_directories(alloc: Global, store: &mut Memory) -> Option<ObjectId> {
    let a = store.insert(Kind::Tree, HashKind::Sha1, TREE_OF_B).ok()?;
    let m = store.insert(Kind::Tree, HashKind::Sha1, UNORDERED).ok()?;
    let tree = tree_of(
        alloc,
        &[
            (EntryKind::Tree, b"a", a),
            (EntryKind::Tree, b"l", TOO_LARGE),
            (EntryKind::Tree, b"m", m),
            (EntryKind::Tree, b"o", UNREADABLE),
            (EntryKind::Tree, b"u", UNKNOWN),
        ],
    );
    match tree {
        Ok(tree) => stored(alloc, store, &tree),
        Err(_) => None,
    }
}

/// Returns an editor of a root of only the directory `d`, that of [`stored_directories`], after a cursor opened
/// it. If an allocation fails, the directory isn't open.
fn with_open_directory(alloc: Global) -> Editor<Faulty> {
    let mut objects = Memory::new(alloc);
    let id = stored_directories(alloc, &mut objects);
    let lookups = Cell::new(0);
    let store = Faulty {
        alloc,
        objects,
        lookups,
    };
    let mut editor = Editor::new(Tree::empty(alloc), store, HashKind::Sha1);
    let _ = inserts_directory(alloc, &mut editor, b"d", id.unwrap_or(UNKNOWN))
        && cursor_of(alloc, &mut editor, b"d").is_ok();
    editor
}

/// The id of the root that has the directory `d`.
const ROOT: &[u8] = b"67b72d04629fa282134fd12c4be3247379660bc7";

/// Why an edit fails.
#[derive(Clone, Copy, Debug)]
enum Failure {
    EmptyName,
    Slash,
    /// The store lacks the id [`UNKNOWN`].
    NotFound,
    /// The store fails with its message.
    Store,
    Malformed,
    OutOfMemory,
    /// The leaf to remove is the directory `d/a`.
    Directory,
}

/// Returns whether an edit failed so.
fn is_failure<T>(answer: &Result<T, Error>, wanted: Failure) -> bool {
    match (answer, wanted) {
        (Err(Error::EmptyPathComponent), Failure::EmptyName) => true,
        (Err(Error::SlashInPathComponent), Failure::Slash) => true,
        (
            Err(Error::FindExistingObject(existing_object::Error::NotFound { oid })),
            Failure::NotFound,
        ) => *oid == UNKNOWN,
        (
            Err(Error::FindExistingObject(existing_object::Error::Find(find::Error::Store(it)))),
            Failure::Store,
        ) => it.as_bytes() == MESSAGE,
        (Err(Error::MalformedTree), Failure::Malformed) => true,
        (Err(Error::OutOfMemory), Failure::OutOfMemory) => true,
        (Err(Error::CannotRemoveNonLeaf { rela_path }), Failure::Directory) => {
            rela_path.as_bytes() == b"d/a".as_slice()
        }
        _ => false,
    }
}

/// A call that edits.
#[derive(Clone, Copy, Debug)]
enum Edit {
    Upsert,
    Remove,
    RemoveLeaf,
}

/// A call that fails at a path below the directory `d`, and the number of its lookups.
type Row = (Edit, &'static [u8], Failure, u64);

const ROWS: &[Row] = &[
    (Edit::Upsert, b"d ", Failure::EmptyName, 0),
    (Edit::Remove, b"d ", Failure::EmptyName, 0),
    (Edit::RemoveLeaf, b"d ", Failure::EmptyName, 0),
    (Edit::Upsert, b"d x/y", Failure::Slash, 0),
    (Edit::Remove, b"d x/y", Failure::Slash, 0),
    (Edit::RemoveLeaf, b"d x/y", Failure::Slash, 0),
    (Edit::Upsert, b"d u x/y", Failure::Slash, 0),
    (Edit::Upsert, b"d u x", Failure::NotFound, 1),
    (Edit::Remove, b"d u x", Failure::NotFound, 1),
    (Edit::RemoveLeaf, b"d u x", Failure::NotFound, 1),
    (Edit::Upsert, b"d o x", Failure::Store, 1),
    (Edit::Remove, b"d o x", Failure::Store, 1),
    (Edit::RemoveLeaf, b"d o x", Failure::Store, 1),
    (Edit::Upsert, b"d m x", Failure::Malformed, 1),
    (Edit::Remove, b"d m x", Failure::Malformed, 1),
    (Edit::RemoveLeaf, b"d m x", Failure::Malformed, 1),
    (Edit::Upsert, b"d l x", Failure::OutOfMemory, 1),
    (Edit::Remove, b"d l x", Failure::OutOfMemory, 1),
    (Edit::RemoveLeaf, b"d l x", Failure::OutOfMemory, 1),
    (Edit::RemoveLeaf, b"d a", Failure::Directory, 0),
];

/// The number of bytes of a path below `d` before that from `d`.
const BELOW: usize = 2;

/// Entries in the directory `d`, and entries that aren't there or aren't open.
const ENTRIES: &[(&[u8], Got)] = &[
    (b"d a", Got::Directory),
    (b"d l", Got::Entry(EntryKind::Tree, TOO_LARGE)),
    (b"d m", Got::Directory),
    (b"d o", Got::Entry(EntryKind::Tree, UNREADABLE)),
    (b"d u", Got::Entry(EntryKind::Tree, UNKNOWN)),
    (b"d ", Got::Nothing),
    (b"d x", Got::Nothing),
    (b"d x/y", Got::Nothing),
    (b"d a b", Got::Nothing),
    (b"d l x", Got::Nothing),
    (b"d m x", Got::Nothing),
    (b"d o x", Got::Nothing),
    (b"d u x", Got::Nothing),
];

/// Makes the call of a row by the editor, and returns whether it fails so.
fn fails(alloc: Global, editor: &mut Editor<Faulty>, row: &Row) -> bool {
    let (edit, path, failure, _) = *row;
    let Ok(path) = path_of(alloc, path) else {
        return false;
    };
    match edit {
        Edit::Upsert => is_failure(&editor.upsert(&path, EntryKind::Blob, FILE), failure),
        Edit::Remove => is_failure(&editor.remove(&path), failure),
        Edit::RemoveLeaf => is_failure(&editor.remove_leaf(&path), failure),
    }
}

/// Returns whether the call of a row by the editor fails so, makes only the lookups of its row, and leaves all
/// entries.
fn is_failed(alloc: Global, editor: &mut Editor<Faulty>, row: &Row) -> bool {
    let lookups = editor.lookups().saturating_add(row.3);
    fails(alloc, editor, row) && editor.lookups() == lookups && gets_all(alloc, editor, ENTRIES)
}

/// The ids of the tree of the directory `d` without the directory `a`, and of the root that has it.
const WITHOUT_A: &[&[u8]] = &[
    b"c4863e8c397f11724368594effb332887b4fa6d9",
    b"4181a971db895b9c57d00b7a4085a70c278ba870",
];

/// Removes the file `d/a/b` as a leaf, and returns whether that succeeds.
fn is_leaf_removed(alloc: Global, editor: &mut Editor<Faulty>) -> bool {
    match path_of(alloc, b"d a b") {
        Ok(path) => editor.remove_leaf(&path).is_ok(),
        Err(_) => false,
    }
}

/// No failed edit changes the editor, nor does a cursor that isn't made. Then a leaf is removed. The editor counts
/// the lookups of the store.
#[test]
fn editor_is_unchanged_after_failed_edits(rt: HostRuntime) {
    let mut editor = with_open_directory(rt.alloc());
    assert!(rt; gets_all(rt.alloc(), &editor, ENTRIES) && editor.lookups() == 1);
    for row in ROWS {
        assert!(rt; is_failed(rt.alloc(), &mut editor, row), "{row:?}");
    }
    let lookups = editor.lookups();
    assert!(rt; upserted(rt.alloc(), &mut editor, b"a/b") == 2);
    assert!(rt; matches!(cursor_of(rt.alloc(), &mut editor, b"d u x/y"), Err(2)));
    assert!(rt; editor.lookups() == lookups);
    assert!(rt; writes(rt.alloc(), &mut editor, 1, &[ROOT]));
    assert!(rt; is_leaf_removed(rt.alloc(), &mut editor));
    assert!(rt; writes(rt.alloc(), &mut editor, 0, WITHOUT_A));
    assert!(rt; editor.lookups() == editor.store_mut().lookups.get());
}

/// Makes the call of a row by a cursor at the directory `d`, and returns whether it fails so.
fn fails_by(alloc: Global, cursor: &mut Cursor<'_, Faulty>, row: &Row) -> bool {
    let (edit, path, failure, _) = *row;
    let Ok(path) = path_of(alloc, path.get(BELOW..).unwrap_or(&[])) else {
        return false;
    };
    match edit {
        Edit::Upsert => is_failure(&cursor.upsert(&path, EntryKind::Blob, FILE), failure),
        Edit::Remove => is_failure(&cursor.remove(&path), failure),
        Edit::RemoveLeaf => is_failure(&cursor.remove_leaf(&path), failure),
    }
}

/// Returns whether the call of a row by a cursor at the directory `d` fails so and leaves all entries. Then it
/// inserts the file `x`.
fn is_failed_by(alloc: Global, editor: &mut Editor<Faulty>, row: &Row) -> bool {
    let Ok(mut cursor) = cursor_of(alloc, editor, b"d") else {
        return false;
    };
    fails_by(alloc, &mut cursor, row)
        && gets_all_by(alloc, &cursor, BELOW, ENTRIES)
        && upserted_by(alloc, &mut cursor, b"x") == 0
}

/// Returns whether a call by a cursor fails as [`is_failed_by`] says, and makes only the lookups of its row.
/// The file that the cursor inserts after it has to be in the directory `d`. It is removed.
fn keeps_prefix(alloc: Global, editor: &mut Editor<Faulty>, row: &Row) -> bool {
    let lookups = editor.lookups().saturating_add(row.3);
    is_failed_by(alloc, editor, row)
        && editor.lookups() == lookups
        && gets_all(
            alloc,
            editor,
            &[(b"d x", Got::Entry(EntryKind::Blob, FILE))],
        )
        && removed(alloc, editor, b"d x") == 0
}

#[test]
fn editor_is_unchanged_after_failed_edits_by_cursor(rt: HostRuntime) {
    let mut editor = with_open_directory(rt.alloc());
    for row in ROWS {
        assert!(rt; keeps_prefix(rt.alloc(), &mut editor, row), "{row:?}");
    }
    assert!(rt; gets_all(rt.alloc(), &editor, ENTRIES));
    assert!(rt; writes(rt.alloc(), &mut editor, 1, &[ROOT]));
}
