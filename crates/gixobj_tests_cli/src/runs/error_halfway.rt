//! Edits in one directory, by one command, and a root that is rejected: a failed command or edit leaves the rest of
//! the run to be done. Ids are those that `git mktree --missing` prints.

use crate::runs::samples::{editor_over, reports, run_on};
use bstr::BString;
use gixobj_base::Tree;
use gixobj_base::hash::ObjectId;
use gixobj_base::tree::{Entry, EntryKind};
use gixobj_editor::{Command, Edit};
use std::alloc::{AllocError, Global};

const FILE: ObjectId = ObjectId::Sha1([1; 20]);

/// Builds an edit that inserts a file of this name.
fn insertion_of(alloc: Global, name: &[u8]) -> Result<Edit, AllocError> {
    let name = BString::from_slice(alloc, name)?;
    Ok(Edit::Upsert {
        path: vec![in alloc; name]?,
        kind: EntryKind::Blob,
        id: FILE,
    })
}

/// Builds edits that insert files of these names.
fn insertions_of(alloc: Global, names: &[&[u8]]) -> Result<Vec<Edit>, AllocError> {
    let mut edits = Vec::new(alloc);
    for name in names {
        edits.push(insertion_of(alloc, name)?)?;
    }
    Ok(edits)
}

/// Builds a command that inserts files of these names into the directory `a`, and one that writes the root.
fn in_a_and_written(alloc: Global, names: &[&[u8]]) -> Result<Vec<Command>, AllocError> {
    let name = BString::from_slice(alloc, b"a")?;
    let prefix = vec![in alloc; name]?;
    let edits = insertions_of(alloc, names)?;
    let at = Command::At { prefix, edits };
    Ok(vec![in alloc; at, Command::Edit(Edit::Write)]?)
}

/// Returns whether commands on the empty root have this report, if there are commands.
fn has_report(alloc: Global, commands: Result<Vec<Command>, AllocError>, lines: &str) -> bool {
    let mut editor = editor_over(alloc, &[], &[]);
    let Ok(commands) = commands else {
        return false;
    };
    match run_on(alloc, &mut editor, commands) {
        Ok(replies) => reports(alloc, replies.as_slice(), editor.lookups(), lines),
        Err(_) => false,
    }
}

/// The names of 32 files.
const MANY: &[&[u8]] = &[
    b"f0", b"f1", b"f2", b"f3", b"f4", b"f5", b"f6", b"f7", b"f8", b"f9", b"f10", b"f11", b"f12",
    b"f13", b"f14", b"f15", b"f16", b"f17", b"f18", b"f19", b"f20", b"f21", b"f22", b"f23", b"f24",
    b"f25", b"f26", b"f27", b"f28", b"f29", b"f30", b"f31",
];

/// The report of [`MANY`]: each edit is done.
const ALL_DONE: &str = "\
    ok\nok\nok\nok\nok\nok\nok\nok\n\
    ok\nok\nok\nok\nok\nok\nok\nok\n\
    ok\nok\nok\nok\nok\nok\nok\nok\n\
    ok\nok\nok\nok\nok\nok\nok\nok\n\
    wrote e11086f75f7478014be187d85a658cdcf8da7527 2\nlookups 0\n";

/// Names of files in the directory `a`, and the report of a command that inserts them and of a write. The second
/// edit of the first row fails.
const ROWS: &[(&[&[u8]], &str)] = &[
    (
        &[b"b", b"", b"c"],
        "ok\nrefused 1\nok\nwrote d79ed5c1e2ff97a59beb0fc1a1b79b68aa0be74a 2\nlookups 0\n",
    ),
    (MANY, ALL_DONE),
];

#[test]
fn does_other_edits_in_directory(rt: HostRuntime) {
    for (names, lines) in ROWS {
        let commands = in_a_and_written(rt.alloc(), names);
        assert!(rt; has_report(rt.alloc(), commands, lines), "{lines}");
    }
}

/// Names of files in roots that aren't well-formed: an empty one, and one twice.
const MALFORMED: &[&[&[u8]]] = &[&[b""], &[b"g", b"g"]];

/// Commands that insert a file, set a root of files of these names, and write the root.
fn with_root_of(alloc: Global, names: &[&[u8]]) -> Result<Vec<Command>, AllocError> {
    let mut root = Tree::empty(alloc);
    for name in names {
        let filename = BString::from_slice(alloc, name)?;
        let (mode, oid) = (EntryKind::Blob.into(), FILE);
        root.entries.push(Entry {
            mode,
            filename,
            oid,
        })?;
    }
    let insertion = Command::Edit(insertion_of(alloc, b"f")?);
    let set = Command::SetRoot(root);
    Ok(vec![in alloc; insertion, set, Command::Edit(Edit::Write)]?)
}

/// The report of a root that is rejected between an edit and a write: the previous root is written.
const REJECTED: &str =
    "ok\nrefused 5\nwrote 62ebf0092433c4f3272b4b55bfbfdf3b479cefa1 1\nlookups 0\n";

#[test]
fn keeps_root_if_new_one_is_malformed(rt: HostRuntime) {
    for names in MALFORMED {
        let commands = with_root_of(rt.alloc(), names);
        assert!(rt; has_report(rt.alloc(), commands, REJECTED), "{names:?}");
    }
}
