//! The example of the README: decodes a commit, edits a tree and writes it.

use gix_object::find::Never;
use gix_object::hash::{Kind as HashKind, ObjectId};
use gix_object::tree::editor::Editor;
use gix_object::tree::{EntryKind, path_names};
use gix_object::{CommitRef, Error, Tree, decode};
use std::alloc::Global;
use std::test::Fail;

/// Decodes a commit and returns its tree.
fn tree_of(alloc: Global, bytes: &[u8]) -> Result<ObjectId, decode::Error> {
    let commit = CommitRef::from_bytes(alloc, bytes, HashKind::Sha1)?;
    Ok(commit.tree())
}

/// Makes a tree of one file, and returns its id.
fn tree_with(alloc: Global, path: &[u8], blob: ObjectId) -> Result<ObjectId, Error> {
    let mut editor = Editor::new(Tree::empty(alloc), Never, HashKind::Sha1);
    editor.upsert(&path_names(alloc, path)?, EntryKind::Blob, blob)?;
    let written = editor.write(|tree: &Tree| tree.compute_id(alloc, HashKind::Sha1))?;
    Ok(written.id)
}

const BLOB: &[u8] = b"ce013625030ba8dba906f756967f9e9ca394464a";

/// Id that `git mktree` prints for the file `hello.txt` with this blob.
const TREE: &[u8] = b"aaa96ced2d9a1c8e72c56b253a0e2fe78393feb7";

#[test]
fn decodes_commit_and_edits_tree(rt: HostRuntime) -> Result<(), Fail> {
    let alloc = rt.alloc();
    let bytes =
        b"tree 4b825dc642cb6eb9a060e54bf8d69288fbee4904\nauthor A <a@b> 0 +0000\ncommitter A <a@b> 0 +0000\n\nm";
    assert!(rt; tree_of(alloc, bytes)?.is_empty_tree());

    let blob = ObjectId::from_hex(BLOB).ok_or("an id")?;
    let tree = tree_with(alloc, b"hello.txt", blob)?;
    assert_eq!(rt; tree, ObjectId::from_hex(TREE).ok_or("an id")?);
    Ok(())
}
