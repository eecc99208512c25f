//! Trees to upload for the files of an editor, and writes of a script that are rebuilt and compared.

use crate::plans::stored;
use crate::samples::{FIRST, SECOND, commands_of};
use gix_object::hash::{Kind, ObjectId};
use gix_object::tree::editor::{EditReply, Editor, Reply, WriteError, run};
use gix_object::{Memory, Tree, encode};
use gixobj_examples_edits::planner::root_in;
use gixobj_examples_edits::rebuilder::{CompareError, rebuild, wrote_the_same};
use gixobj_examples_edits::upload::upload_of;
use gixobj_tests_api::samples::{Row, id};
use std::alloc::Global;

/// An editor of the stored root with the file `a/b/c` of the first id. Of the empty root if it isn't found.
fn deep_editor(alloc: Global) -> Editor<Memory> {
    let (store, root) = stored(alloc, &["c", "b", "a"]);
    let tree = root_in(alloc, &store, root).unwrap_or(Tree::empty(alloc));
    Editor::new(tree, store, Kind::Sha1)
}

/// Whether the edits of all rows are accepted.
fn does(alloc: Global, editor: &mut Editor<Memory>, rows: &[Row]) -> bool {
    let out = |tree: &Tree| tree.compute_id(alloc, Kind::Sha1);
    match run(alloc, editor, commands_of(alloc, rows), out) {
        Ok(replies) => replies
            .iter()
            .all(|it| matches!(it, Reply::Edit(EditReply::Done))),
        Err(_) => false,
    }
}

/// The root of an upload, the number of its trees, and that of its unchanged directories.
fn uploaded(
    alloc: Global,
    editor: &mut Editor<Memory>,
) -> Result<(ObjectId, usize, usize), WriteError<encode::Error>> {
    let mut out = |tree: &Tree| tree.compute_id(alloc, Kind::Sha1);
    let upload = upload_of(editor, &mut out)?;
    Ok((upload.id, upload.trees.len(), upload.unchanged))
}

/// Id that `git mktree --missing` prints for the file `a/b/c` with the first id, a tree for each directory.
const DEEP: &[u8] = b"65287d311af712560472fa8404e2cf5180a487ed";

/// Id that `git mktree --missing` prints for the files `a/b/c` with the first id and `a/e` with the second.
const WITH_E: &[u8] = b"2784f31e56c1497398af04e6c31bc795f5335fbd";

/// The file `a/b/d` inserted and removed.
const AND_BACK: &[Row] = &[
    Row::File(&["a", "b", "d"], SECOND),
    Row::Remove(&["a", "b", "d"]),
];

/// A file inserted and removed needs an upload of the root alone, and `a/e` one of two trees.
#[test]
fn uploads_only_changed_trees(rt: HostRuntime) {
    let alloc = rt.alloc();
    let mut editor = deep_editor(alloc);
    assert!(rt; does(alloc, &mut editor, AND_BACK));
    assert!(rt; uploaded(alloc, &mut editor).ok() == Some((id(DEEP), 1, 2)));
    assert!(rt; does(alloc, &mut editor, AND_BACK));
    assert!(rt; does(alloc, &mut editor, &[Row::File(&["a", "e"], SECOND)]));
    assert!(rt; uploaded(alloc, &mut editor).ok() == Some((id(WITH_E), 2, 1)));
}

/// The file `a/e`, and one with an invalid name.
const WITH_ZERO: &[Row] = &[Row::File(&["a", "e"], SECOND), Row::File(&["\0"], SECOND)];

/// An invalid name fails, and the rest is uploaded after its removal.
#[test]
fn uploads_rest_after_failed_write(rt: HostRuntime) {
    let alloc = rt.alloc();
    let mut editor = deep_editor(alloc);
    assert!(rt; does(alloc, &mut editor, WITH_ZERO));
    assert!(rt; matches!(&uploaded(alloc, &mut editor), Err(WriteError::Out(_))));
    assert!(rt; does(alloc, &mut editor, &[Row::Remove(&["\0"])]));
    assert!(rt; uploaded(alloc, &mut editor).ok() == Some((id(WITH_E), 2, 0)));
}

/// Inserts a file and writes, inserts another one next to it and writes, removes it and writes.
const SCRIPT: &[Row] = &[
    Row::File(&["a", "b"], FIRST),
    Row::Write,
    Row::File(&["a", "c"], FIRST),
    Row::Write,
    Row::Remove(&["a", "c"]),
    Row::Write,
];

/// Compares the writes of the script at two positions.
fn compare(alloc: Global, position: usize, other: usize) -> Result<bool, CompareError> {
    let (store, commands) = (Memory::new(alloc), commands_of(alloc, SCRIPT));
    let out = |tree: &Tree| tree.compute_id(alloc, Kind::Sha1);
    wrote_the_same(alloc, store, Kind::Sha1, commands, position, other, out)
}

#[test]
fn compares_writes_at_two_positions(rt: HostRuntime) {
    let alloc = rt.alloc();
    assert!(rt; compare(alloc, 1, 5).ok() == Some(true));
    assert!(rt; compare(alloc, 1, 3).ok() == Some(false));
    assert!(rt;
        matches!(
            &compare(alloc, 0, 6),
            Err(CompareError::NoWrite { position: 0 })
        )
    );
    assert!(rt;
        matches!(
            &compare(alloc, 1, 6),
            Err(CompareError::NoWrite { position: 6 })
        )
    );
}

/// Id that `git mktree --missing` prints for the file `a/b` with the first id.
const WITH_B: &[u8] = b"5402bd8062856e83ade50b9be4aafcb8717cc232";

/// Id that `git mktree --missing` prints for the files `a/b` and `a/c` with the first id.
const WITH_C: &[u8] = b"85a28e8cd9a95ec694f26a0ec14192e57fef1c9a";

/// The root that the script writes at a position.
fn rebuilt(alloc: Global, position: usize) -> Result<ObjectId, CompareError> {
    let (store, commands) = (Memory::new(alloc), commands_of(alloc, SCRIPT));
    let out = |tree: &Tree| tree.compute_id(alloc, Kind::Sha1);
    rebuild(alloc, store, Kind::Sha1, commands, position, out)
}

#[test]
fn rebuilds_root_of_each_write(rt: HostRuntime) {
    let alloc = rt.alloc();
    assert!(rt; rebuilt(alloc, 1).ok() == Some(id(WITH_B)));
    assert!(rt; rebuilt(alloc, 3).ok() == Some(id(WITH_C)));
    assert!(rt; rebuilt(alloc, 5).ok() == Some(id(WITH_B)));
    assert!(rt;
        matches!(
            &rebuilt(alloc, 0),
            Err(CompareError::NoWrite { position: 0 })
        )
    );
    assert!(rt;
        matches!(
            &rebuilt(alloc, 6),
            Err(CompareError::NoWrite { position: 6 })
        )
    );
}
