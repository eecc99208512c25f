//! Stores that fail to keep or to find a tree: the report, and the rest of the run.

use crate::runs::allocation_failures::edit_reply;
use crate::runs::samples::{TEN_LINES, editor_over, has_id_and_count, replies_to};
use gixobj_base::hash::{Kind as HashKind, ObjectId};
use gixobj_base::{Tree, encode};
use gixobj_cli_edit::edit_on;
use gixobj_editor::editor::{Editor, Error};
use gixobj_editor::{EditReply, Reply};
use gixobj_store::{Find, find};
use gixobj_store_keep::KeepError;
use gixobj_store_keep::find::existing_object;
use gixobj_tests_stores::failing::{Failing, OFFLINE};
use std::alloc::Global;

const BAK: &str = "d8329fc1cc938780ffdd9f94e0d364e0ea74f579";

const ROOT: &str = "90b9c61d2318706c9668ce0b53d697aa2719b7b0";

/// A write of two trees.
const WRITE: &str = "upsert blob 83baae61804e65cc73a7201a7252750c76066a30 bak/test.txt
upsert blob fa49b077972391ad58037050f2a75f74e3671e92 new.txt
write
";

/// A write, after which the directory is opened again, and written by its cursor and with the root.
const WRITE_AGAIN: &str = "upsert blob 83baae61804e65cc73a7201a7252750c76066a30 bak/test.txt
upsert blob fa49b077972391ad58037050f2a75f74e3671e92 new.txt
write
upsert blob 1f7a7a472abf3dd9643fd615f6da379c4acb3e3a bak/more
at bak write
write
";

/// A write of a directory of two files by its cursor.
const WRITE_BY_CURSOR: &str = "upsert blob 83baae61804e65cc73a7201a7252750c76066a30 bak/test.txt
upsert blob 1f7a7a472abf3dd9643fd615f6da379c4acb3e3a bak/more
at bak write
";

/// A file is inserted into a stored directory.
const AT_THE_FIRST: &str = "upsert blob 0101010101010101010101010101010101010101 a/b/c
write
root
upsert tree 708f683ce235f6e3b367a0d6fc2780c3ad22547e a
upsert blob 0101010101010101010101010101010101010101 a/f
write
remove a
write
";

/// A file is inserted three times into a stored directory of another one.
const AT_THE_FIRST_AND_THE_THIRD: &str = "upsert blob 0101010101010101010101010101010101010101 a/b/c
write
root
upsert tree 708f683ce235f6e3b367a0d6fc2780c3ad22547e a
upsert blob 0101010101010101010101010101010101010101 a/b/d
upsert blob 0101010101010101010101010101010101010101 a/b/d
upsert blob 0101010101010101010101010101010101010101 a/b/d
";

/// A script, the lookups and the calls of `keep` that fail, the expected report, and the number of calls of
/// `keep`.
struct Row {
    name: &'static str,
    script: &'static str,
    failing: (&'static [u64], &'static [u64]),
    report: &'static str,
    keeps: u64,
}

const ROWS: &[Row] = &[
    Row {
        name: "no-refusal",
        script: WRITE_AGAIN,
        failing: (&[], &[]),
        report: "ok
ok
wrote 90b9c61d2318706c9668ce0b53d697aa2719b7b0 2
ok
wrote 21d32280ec25095dcf1a389927245f7b082b590b 1
wrote 408532bf3332b2c1bcfe9f28b3fbf83d5af25444 2
lookups 1
",
        keeps: 5,
    },
    Row {
        name: "the-second-tree-of-a-write-is-not-kept",
        script: WRITE_AGAIN,
        failing: (&[], &[2]),
        report: "ok
ok
unkept 90b9c61d2318706c9668ce0b53d697aa2719b7b0
ok
wrote 21d32280ec25095dcf1a389927245f7b082b590b 1
wrote 408532bf3332b2c1bcfe9f28b3fbf83d5af25444 2
lookups 1
",
        keeps: 5,
    },
    Row {
        name: "the-first-tree-of-a-write-is-not-kept",
        script: WRITE_AGAIN,
        failing: (&[], &[1]),
        report: "ok
ok
unkept 90b9c61d2318706c9668ce0b53d697aa2719b7b0
refused 3
refused 3
wrote 90b9c61d2318706c9668ce0b53d697aa2719b7b0 1
lookups 2
",
        keeps: 2,
    },
    Row {
        name: "the-tree-of-a-cursor-and-a-root-are-not-kept",
        script: WRITE_AGAIN,
        failing: (&[], &[3, 5]),
        report: "ok
ok
wrote 90b9c61d2318706c9668ce0b53d697aa2719b7b0 2
ok
unkept 21d32280ec25095dcf1a389927245f7b082b590b
unkept 408532bf3332b2c1bcfe9f28b3fbf83d5af25444
lookups 1
",
        keeps: 5,
    },
    Row {
        name: "the-first-lookup-fails",
        script: WRITE_AGAIN,
        failing: (&[1], &[]),
        report: "ok
ok
wrote 90b9c61d2318706c9668ce0b53d697aa2719b7b0 2
refused 3
wrote d8329fc1cc938780ffdd9f94e0d364e0ea74f579 1
wrote 90b9c61d2318706c9668ce0b53d697aa2719b7b0 1
lookups 2
",
        keeps: 4,
    },
    Row {
        name: "told-and-counted",
        script: TEN_LINES,
        failing: (&[], &[]),
        report: "ok
ok
ok
wrote 3c4e9cd789d88d8d89c1073707c3585e41b0e614 2
ok
wrote 3c4e9cd789d88d8d89c1073707c3585e41b0e614 1
wrote d8329fc1cc938780ffdd9f94e0d364e0ea74f579 1
ok
wrote 0155eb4229851634a0f03eb265b69f5a2d56f341 1
refused 1
lookups 2
",
        keeps: 5,
    },
    Row {
        name: "asked-where-the-count-rises",
        script: "upsert blob 0101010101010101010101010101010101010101 a/b/c
write
root
upsert tree 708f683ce235f6e3b367a0d6fc2780c3ad22547e a
upsert blob 0101010101010101010101010101010101010101 a/b/d
upsert blob 0101010101010101010101010101010101010101 a/b/d
",
        failing: (&[2], &[]),
        report: "ok
wrote 0777f611c446507a3c6fa4a976a7a8d5f0eaed6d 3
ok
ok
refused 3
ok
lookups 3
",
        keeps: 3,
    },
    Row {
        name: "not-asked-by-what-looks-nothing-up",
        script: "upsert blob 0101010101010101010101010101010101010101 a/b/c
write
root
upsert tree 708f683ce235f6e3b367a0d6fc2780c3ad22547e a
upsert blob 0101010101010101010101010101010101010101 a/d
write
upsert blob 0101010101010101010101010101010101010101 a/e
",
        failing: (&[2], &[]),
        report: "ok
wrote 0777f611c446507a3c6fa4a976a7a8d5f0eaed6d 3
ok
ok
ok
wrote 9e93a904d3f6460c336f65230b296e4a27948f8e 2
refused 3
lookups 2
",
        keeps: 5,
    },
    Row {
        name: "asked-by-a-removal",
        script: "upsert blob 0101010101010101010101010101010101010101 a/b/c
write
root
upsert tree 708f683ce235f6e3b367a0d6fc2780c3ad22547e a
remove a/b/c
remove a/b/c
",
        failing: (&[2], &[]),
        report: "ok
wrote 0777f611c446507a3c6fa4a976a7a8d5f0eaed6d 3
ok
ok
refused 3
ok
lookups 3
",
        keeps: 3,
    },
    Row {
        name: "asked-for-a-directory-that-is-not-there",
        script: "upsert tree 0303030303030303030303030303030303030303 a
remove a/b
remove a
write
",
        failing: (&[], &[]),
        report: "ok
refused 3
ok
wrote 4b825dc642cb6eb9a060e54bf8d69288fbee4904 1
lookups 1
",
        keeps: 1,
    },
    Row {
        name: "a-store-that-fails",
        script: AT_THE_FIRST,
        failing: (&[1], &[]),
        report: "ok
wrote 0777f611c446507a3c6fa4a976a7a8d5f0eaed6d 3
ok
ok
refused 3
wrote 0777f611c446507a3c6fa4a976a7a8d5f0eaed6d 1
ok
wrote 4b825dc642cb6eb9a060e54bf8d69288fbee4904 1
lookups 1
",
        keeps: 5,
    },
    Row {
        name: "a-store-that-fails-at-the-first-lookup-and-the-third",
        script: AT_THE_FIRST_AND_THE_THIRD,
        failing: (&[1, 3], &[]),
        report: "ok
wrote 0777f611c446507a3c6fa4a976a7a8d5f0eaed6d 3
ok
ok
refused 3
refused 3
ok
lookups 4
",
        keeps: 3,
    },
    Row {
        name: "not-asked-for-directories-without-files",
        script: "upsert blob 0101010101010101010101010101010101010101 a/b/c
write
root
upsert tree 708f683ce235f6e3b367a0d6fc2780c3ad22547e a
upsert tree 0000000000000000000000000000000000000000 e
leaf e/f
remove e/f
upsert blob 0101010101010101010101010101010101010101 e/f
upsert tree 4b825dc642cb6eb9a060e54bf8d69288fbee4904 e
leaf e/f
remove e/f
upsert blob 0101010101010101010101010101010101010101 e/f
",
        failing: (&[2], &[]),
        report: "ok
wrote 0777f611c446507a3c6fa4a976a7a8d5f0eaed6d 3
ok
ok
ok
ok
ok
ok
ok
ok
ok
ok
lookups 0
",
        keeps: 3,
    },
    Row {
        name: "not-asked-for-bad-names",
        script: "upsert blob 0101010101010101010101010101010101010101 a/b/c
write
root
upsert tree 708f683ce235f6e3b367a0d6fc2780c3ad22547e a
upsert blob 0101010101010101010101010101010101010101 a/
remove /a
",
        failing: (&[2], &[]),
        report: "ok
wrote 0777f611c446507a3c6fa4a976a7a8d5f0eaed6d 3
ok
ok
refused 1
refused 1
lookups 0
",
        keeps: 3,
    },
    Row {
        name: "a-leaf-in-a-name-with-a-space",
        script: "upsert tree 0303030303030303030303030303030303030303 a b/c
leaf a b/c
",
        failing: (&[], &[]),
        report: "ok
refused 4 a b/c
lookups 0
",
        keeps: 0,
    },
];

/// Returns whether a script has these lines as its report.
fn has_lines(alloc: Global, editor: &mut Editor<Failing>, script: &str, lines: &str) -> bool {
    let out = |tree: &Tree| tree.compute_id(alloc, HashKind::Sha1);
    match edit_on(alloc, editor, script.as_bytes(), HashKind::Sha1, out) {
        Ok(report) => report.as_slice() == lines.as_bytes(),
        Err(_) => false,
    }
}

/// Returns whether the script of a row has the expected report and calls of `keep`, and the store counts as many
/// lookups as the editor.
fn has_report_and_counts(alloc: Global, row: &Row) -> bool {
    let mut editor = editor_over(alloc, row.failing.0, row.failing.1);
    has_lines(alloc, &mut editor, row.script, row.report)
        && editor.lookups() == editor.store_mut().lookups()
        && editor.store_mut().keeps() == row.keeps
}

#[test]
fn reports_errors(rt: HostRuntime) {
    for row in ROWS {
        assert!(rt; has_report_and_counts(rt.alloc(), row), "{}", row.name);
    }
}

/// The last id of a write, the number of trees that it emitted, and how many of them were kept.
type Unkept = (&'static str, usize, usize);

/// A script, the lookups and the calls of `keep` that fail, and the position of a reply. The reply has the error of
/// the store: for a write, after some trees were kept, else for a lookup.
struct ErrorRow {
    script: &'static str,
    failing: (&'static [u64], &'static [u64]),
    position: usize,
    unkept: Option<Unkept>,
}

const ERRORS: &[ErrorRow] = &[
    ErrorRow {
        script: AT_THE_FIRST,
        failing: (&[1], &[]),
        position: 4,
        unkept: None,
    },
    ErrorRow {
        script: AT_THE_FIRST_AND_THE_THIRD,
        failing: (&[1, 3], &[]),
        position: 4,
        unkept: None,
    },
    ErrorRow {
        script: AT_THE_FIRST_AND_THE_THIRD,
        failing: (&[1, 3], &[]),
        position: 5,
        unkept: None,
    },
    ErrorRow {
        script: WRITE,
        failing: (&[], &[2]),
        position: 2,
        unkept: Some((ROOT, 2, 1)),
    },
    ErrorRow {
        script: WRITE_BY_CURSOR,
        failing: (&[], &[1]),
        position: 2,
        unkept: Some(("21d32280ec25095dcf1a389927245f7b082b590b", 1, 0)),
    },
];

/// Returns whether a reply has the error of the store.
fn is_offline(reply: &Reply<encode::Error>, unkept: Option<Unkept>) -> bool {
    match (edit_reply(reply), unkept) {
        (
            Some(
                EditReply::Refused(
                    Error::FindExistingObject(
                        existing_object::Error::Find(find::Error::Store(message)),
                    ),
                ),
            ),
            None,
        ) => message.as_bytes() == OFFLINE,
        (
            Some(EditReply::NotKept(written, count, KeepError::Store(message))),
            Some((id, emitted, kept)),
        ) => {
            has_id_and_count(written, id, emitted)
                && *count == kept
                && message.as_bytes() == OFFLINE
        }
        _ => false,
    }
}

/// Returns whether the reply of a row has the error of the store.
fn is_offline_in(alloc: Global, row: &ErrorRow) -> bool {
    let mut editor = editor_over(alloc, row.failing.0, row.failing.1);
    let Some(replies) = replies_to(alloc, &mut editor, row.script) else {
        return false;
    };
    match replies.get(row.position) {
        Some(reply) => is_offline(reply, row.unkept),
        None => false,
    }
}

#[test]
fn returns_store_errors(rt: HostRuntime) {
    for row in ERRORS {
        assert!(rt;
            is_offline_in(rt.alloc(), row),
            "{} {}",
            row.script,
            row.position
        );
    }
}

/// Returns whether the store finds an object by the id.
fn finds(alloc: Global, store: &Failing, id: &str) -> bool {
    let Some(id) = ObjectId::from_hex(id.as_bytes()) else {
        return false;
    };
    let mut buffer = Vec::new(alloc);
    matches!(&store.try_find(id.as_oid(), &mut buffer), Ok(Some(_)))
}

/// The report of [`WRITE`] if the root isn't kept.
const UNKEPT_ROOT: &str = "ok\nok\nunkept 90b9c61d2318706c9668ce0b53d697aa2719b7b0\nlookups 0\n";

/// The first tree is in the store, and the second isn't. The directory is no longer open: an edit in it looks
/// it up.
#[test]
fn keeps_first_tree_if_second_fails(rt: HostRuntime) {
    let alloc = rt.alloc();
    let mut editor = editor_over(alloc, &[], &[2]);
    assert!(rt; has_lines(alloc, &mut editor, WRITE, UNKEPT_ROOT));
    assert!(rt; finds(alloc, editor.store_mut(), BAK));
    assert!(rt; !finds(alloc, editor.store_mut(), ROOT));
    assert!(rt; has_lines(alloc, &mut editor, "remove bak/none", "ok\nlookups 1\n"));
    assert!(rt; editor.store_mut().lookups() == 3);
}
