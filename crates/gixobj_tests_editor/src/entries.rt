//! Entries that an editor and a cursor return after scripts.

use crate::samples::{FILE, NULL, cursor_of, empty_editor, is_run, path_of, upserted};
use gixobj_base::OutOfMemory;
use gixobj_base::hash::ObjectId;
use gixobj_base::tree::{Entry, EntryKind};
use gixobj_editor::editor::{Cursor, Editor};
use gixobj_store_keep::Memory;
use std::alloc::{AllocError, Global};

const OTHER: ObjectId = ObjectId::Sha1([2; 20]);

/// The expected result of `get` at a path.
#[derive(Clone, Copy)]
pub(crate) enum Got {
    Nothing,
    /// A directory of any id.
    Directory,
    /// An entry of this kind and id.
    Entry(EntryKind, ObjectId),
}

/// Paths and their expected entries.
type Entries = &'static [(&'static [u8], Got)];

/// A script, and the expected entries after it: by the editor, and by a cursor at a directory. The row also has
/// the number of lookups.
struct Row {
    name: &'static str,
    script: &'static str,
    gets: Entries,
    cursor: (&'static [u8], Entries),
    lookups: u64,
}

/// A script that inserts the directory `a` by the id of a stored tree, which isn't opened.
const CLOSED: &str = "upsert blob 0101010101010101010101010101010101010101 a/b
write
root
upsert tree ba0ec9c341e1d7e56243006b86ff39209e431800 a
";

const ROWS: &[Row] = &[
    Row {
        name: "shut-directories-and-files",
        script: CLOSED,
        gets: &[
            (b"a", Got::Directory),
            (b".", Got::Nothing),
            (b"a b", Got::Nothing),
        ],
        cursor: (b".", &[]),
        lookups: 0,
    },
    Row {
        name: "a-stored-directory-is-opened",
        script: "upsert blob 0101010101010101010101010101010101010101 a/b
write
root
upsert tree ba0ec9c341e1d7e56243006b86ff39209e431800 a
upsert blob 0202020202020202020202020202020202020202 a/c
",
        gets: &[
            (b"a", Got::Directory),
            (b".", Got::Nothing),
            (b"a b", Got::Entry(EntryKind::Blob, FILE)),
            (b"a c", Got::Entry(EntryKind::Blob, OTHER)),
            (b"a b c", Got::Nothing),
        ],
        cursor: (b".", &[]),
        lookups: 1,
    },
    Row {
        name: "missing-directories-are-made",
        script: "upsert tree 4b825dc642cb6eb9a060e54bf8d69288fbee4904 a
upsert blob 0202020202020202020202020202020202020202 a/b/c
",
        gets: &[
            (b"a b", Got::Entry(EntryKind::Tree, NULL)),
            (b"a b c", Got::Entry(EntryKind::Blob, OTHER)),
        ],
        cursor: (b".", &[]),
        lookups: 0,
    },
    Row {
        name: "a-directory-in-place-of-a-file",
        script: "upsert blob 0101010101010101010101010101010101010101 a
at a remove .
",
        gets: &[(b"a", Got::Entry(EntryKind::Tree, NULL))],
        cursor: (b".", &[]),
        lookups: 0,
    },
    Row {
        name: "nothing-of-a-refused-edit",
        script: "upsert blob 0101010101010101010101010101010101010101 q/
",
        gets: &[(b"q", Got::Nothing)],
        cursor: (b".", &[]),
        lookups: 0,
    },
    Row {
        name: "a-cursor-at-the-root",
        script: CLOSED,
        gets: &[],
        cursor: (b".", &[(b"a", Got::Directory), (b"a c", Got::Nothing)]),
        lookups: 0,
    },
    Row {
        name: "a-cursor-at-the-root-behind-an-edit-by-another",
        script: "upsert blob 0101010101010101010101010101010101010101 a/b
write
root
upsert tree ba0ec9c341e1d7e56243006b86ff39209e431800 a
at . upsert blob 0101010101010101010101010101010101010101 a/c
",
        gets: &[],
        cursor: (b".", &[(b"a c", Got::Entry(EntryKind::Blob, FILE))]),
        lookups: 1,
    },
    Row {
        name: "files-of-a-directory",
        script: CLOSED,
        gets: &[],
        cursor: (
            b"a",
            &[
                (b".", Got::Nothing),
                (b"b", Got::Entry(EntryKind::Blob, FILE)),
                (b"c", Got::Nothing),
            ],
        ),
        lookups: 1,
    },
];

/// Returns whether an entry is the expected one.
fn is_got(found: Result<Option<&Entry>, OutOfMemory>, wanted: Got) -> bool {
    match (found, wanted) {
        (Ok(None), Got::Nothing) => true,
        (Ok(Some(entry)), Got::Directory) => entry.mode.kind() == EntryKind::Tree,
        (Ok(Some(entry)), Got::Entry(kind, id)) => entry.mode.kind() == kind && entry.oid == id,
        _ => false,
    }
}

/// Returns whether [`Editor::get`] returns the expected entry for each path.
pub(crate) fn gets_all<S>(alloc: Global, editor: &Editor<S>, entries: &[(&[u8], Got)]) -> bool {
    for (path, wanted) in entries {
        let Ok(path) = path_of(alloc, path) else {
            return false;
        };
        if !is_got(editor.get(&path), *wanted) {
            return false;
        }
    }
    true
}

/// Returns whether [`Cursor::get`] returns the expected entry for each path without its first `skipped` bytes.
pub(crate) fn gets_all_by<S>(
    alloc: Global,
    cursor: &Cursor<'_, S>,
    skipped: usize,
    entries: &[(&[u8], Got)],
) -> bool {
    for (path, wanted) in entries {
        let Ok(path) = path_of(alloc, path.get(skipped..).unwrap_or(&[])) else {
            return false;
        };
        if !is_got(cursor.get(&path), *wanted) {
            return false;
        }
    }
    true
}

/// Returns whether a cursor at a directory returns these entries.
fn gets_all_at(
    alloc: Global,
    editor: &mut Editor<Memory>,
    directory: &[u8],
    entries: &[(&[u8], Got)],
) -> bool {
    match cursor_of(alloc, editor, directory) {
        Ok(cursor) => gets_all_by(alloc, &cursor, 0, entries),
        Err(_) => false,
    }
}

/// Returns whether `get` returns all expected entries of a row after its script, with the expected number of
/// lookups.
fn is_all_got(alloc: Global, row: &Row) -> bool {
    let mut editor = empty_editor(alloc);
    is_run(alloc, &mut editor, row.script.as_bytes())
        && gets_all(alloc, &editor, row.gets)
        && gets_all_at(alloc, &mut editor, row.cursor.0, row.cursor.1)
        && editor.lookups() == row.lookups
}

#[test]
fn returns_entries_after_scripts(rt: HostRuntime) {
    for row in ROWS {
        assert!(rt; is_all_got(rt.alloc(), row), "{}", row.name);
    }
}

/// Builds a path of a thousand names, with spaces between them.
fn thousand_names(alloc: Global) -> Result<Vec<u8>, AllocError> {
    let mut path = Vec::from_slice(alloc, b"d")?;
    for _ in 1..1000u16 {
        path.extend_from_slice(b" d")?;
    }
    Ok(path)
}

/// Inserts the file at a path of a thousand names, and returns whether `get` returns it.
fn is_got_deep(alloc: Global) -> bool {
    let mut editor = empty_editor(alloc);
    let Ok(path) = thousand_names(alloc) else {
        return false;
    };
    let wanted = Got::Entry(EntryKind::Blob, FILE);
    upserted(alloc, &mut editor, path.as_slice()) == 0
        && gets_all(alloc, &editor, &[(path.as_slice(), wanted)])
}

#[test]
fn inserts_at_path_of_thousand_names(rt: HostRuntime) {
    assert!(rt; is_got_deep(rt.alloc()));
}
