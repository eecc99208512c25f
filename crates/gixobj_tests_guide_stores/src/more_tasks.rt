//! Calls more examples of docs/GUIDE.md once: stores in memory, and work lists.

use crate::tasks::{
    batches, depths, differences, histories, memories, names, one_error, stored_commits, tips,
    writes,
};
use bstr::BString;
use gix_object::find::existing_object::Error;
use gix_object::hash::{Kind as HashKind, ObjectId};
use gix_object::tree::editor::Editor;
use gix_object::tree::{EntryKind, EntryMode};
use gix_object::{Header, Keep, Kind, Memory, Tree};
use gixobj_tests_api::objects::{BLOB, FIRST, FIRST_BYTES, SECOND, SECOND_BYTES, TREE, TREE_BYTES};
use gixobj_tests_api::samples::{id, path_of, string_of, tree_of};
use std::alloc::Global;

/// Whether the store has the blob, and no object has the id of the first commit.
fn has_blob(alloc: Global, store: &Memory, blob: ObjectId) -> bool {
    let mut buffer = Vec::new(alloc);
    let content = memories::content_of(alloc, store, blob, &mut buffer).ok();
    content == Some(b"hello\n".as_slice())
        && memories::header_of(store, id(FIRST)).ok() == Some(None)
}

/// Whether the store has the tree.
fn has_tree(store: &Memory, tree: ObjectId) -> bool {
    let header = Header {
        kind: Kind::Tree,
        size: 67,
    };
    memories::header_of(store, tree).ok() == Some(Some(header))
}

/// Whether a blob and a tree are found after they were inserted.
fn are_stored(alloc: Global) -> bool {
    match memories::store_of(alloc, b"hello\n", TREE_BYTES) {
        Ok((store, blob, tree)) => {
            blob == id(BLOB) && has_blob(alloc, &store, blob) && has_tree(&store, tree)
        }
        Err(_) => false,
    }
}

#[test]
fn looks_up_inserted_objects(rt: HostRuntime) {
    assert!(rt; are_stored(rt.alloc()));
}

/// Whether the ids of a store are these, in order.
fn has_ids(alloc: Global, store: &Memory, wanted: &[ObjectId]) -> bool {
    match memories::ids_of(alloc, store) {
        Ok(ids) => ids.as_slice() == wanted,
        Err(_) => false,
    }
}

/// Whether the empty tree is written next to a blob, and is listed before it.
fn is_empty_tree_written(alloc: Global) -> bool {
    let mut store = Memory::new(alloc);
    let empty = store.is_empty() && store.insert(Kind::Blob, HashKind::Sha1, b"hello\n").is_ok();
    let tree = memories::write_empty_tree(alloc, &mut store).ok();
    empty && tree == Some(id(EMPTY_TREE)) && has_ids(alloc, &store, &[id(EMPTY_TREE), id(BLOB)])
}

/// Id that `git hash-object -t tree --stdin` prints for no bytes.
const EMPTY_TREE: &[u8] = b"4b825dc642cb6eb9a060e54bf8d69288fbee4904";

#[test]
fn writes_object_and_lists_ids(rt: HostRuntime) {
    assert!(rt; is_empty_tree_written(rt.alloc()));
}

/// Whether the last name of a path is this one, or whether it has none.
fn has_file_name(alloc: Global, path: &[u8], wanted: Option<&[u8]>) -> bool {
    match names::file_name(alloc, path) {
        Ok(Some(name)) => Some(name.as_bytes()) == wanted,
        Ok(None) => wanted.is_none(),
        Err(_) => false,
    }
}

#[test]
fn finds_last_names_of_paths(rt: HostRuntime) {
    let alloc = rt.alloc();
    assert!(rt; has_file_name(alloc, b"a/b/c", Some(b"c")));
    assert!(rt; has_file_name(alloc, b"/docs//a.txt/", Some(b"a.txt")));
    assert!(rt; has_file_name(alloc, b"", None));
}

/// Id that `git mktree` prints for `a.txt`, `docs` with `c.txt`, and `run.sh`.
const WITH_FILE: &[u8] = b"a759b0b839da5bd7e992c70eeac3d50514b37a45";

/// Whether the tree of the second commit with one more file has its id.
fn is_extended(alloc: Global, store: &Memory) -> bool {
    let with_file = one_error::tree_with_named(alloc, store, id(SECOND), b"docs/c.txt", id(BLOB));
    with_file.ok() == Some(id(WITH_FILE))
}

/// Whether the lookup of a commit fails if the id names a tree.
fn needs_commit(alloc: Global, store: &Memory) -> bool {
    match one_error::tree_with(alloc, store, id(TREE), b"docs", id(BLOB)) {
        Err(gix_object::Error::ExistingIter(_)) => true,
        _ => false,
    }
}

/// Whether a path that ends with a slash is rejected.
fn needs_name(alloc: Global, store: &Memory) -> bool {
    match one_error::tree_with_named(alloc, store, id(SECOND), b"docs/", id(BLOB)) {
        Err(one_error::ToolError::NoName) => true,
        _ => false,
    }
}

#[test]
fn converts_errors_of_tool(rt: HostRuntime) {
    let alloc = rt.alloc();
    let store = stored_commits(alloc);
    assert!(rt; is_extended(alloc, &store));
    assert!(rt; needs_commit(alloc, &store));
    assert!(rt; needs_name(alloc, &store));
}

/// Whether `history` lists these commits, in order.
fn lists(alloc: Global, store: &Memory, max_commits: u32, wanted: &[ObjectId]) -> bool {
    match histories::history(alloc, store, id(SECOND), max_commits) {
        Ok(Some(commits)) => commits.as_slice() == wanted,
        _ => false,
    }
}

/// Whether the history exceeds a bound.
fn exceeds(alloc: Global, store: &Memory, max_commits: u32) -> bool {
    histories::history(alloc, store, id(SECOND), max_commits).ok() == Some(None)
}

#[test]
fn lists_history_up_to_bound(rt: HostRuntime) {
    let alloc = rt.alloc();
    let store = stored_commits(alloc);
    assert!(rt; lists(alloc, &store, 2, &[id(SECOND), id(FIRST)]));
    assert!(rt; exceeds(alloc, &store, 1));
}

/// Whether a tip has these commits, in order, that the other one lacks.
fn has_new(
    alloc: Global,
    store: &Memory,
    tip: ObjectId,
    other: ObjectId,
    wanted: &[ObjectId],
) -> bool {
    match tips::new_commits(alloc, store, tip, other) {
        Ok(commits) => commits.as_slice() == wanted,
        Err(_) => false,
    }
}

/// Whether the histories of both commits meet at the first.
fn meets_first(alloc: Global, store: &Memory, tip: ObjectId, other: ObjectId) -> bool {
    tips::meeting_commit(alloc, store, tip, other).ok() == Some(Some(id(FIRST)))
}

/// `git rev-list` and `git merge-base` print the same.
#[test]
fn compares_tips(rt: HostRuntime) {
    let alloc = rt.alloc();
    let store = stored_commits(alloc);
    assert!(rt; has_new(alloc, &store, id(SECOND), id(FIRST), &[id(SECOND)]));
    assert!(rt; has_new(alloc, &store, id(FIRST), id(SECOND), &[]));
    assert!(rt; meets_first(alloc, &store, id(SECOND), id(FIRST)));
}

/// Whether the second commit's parent is found among objects.
fn finds_parent(alloc: Global, objects: &[(Kind, &[u8])]) -> bool {
    let parent = batches::ancestor_in(alloc, objects, id(SECOND), 1);
    parent.ok() == Some(Some(id(FIRST)))
}

/// Whether the lookup of a commit that isn't among the objects fails.
fn lacks_commit(alloc: Global, objects: &[(Kind, &[u8])]) -> bool {
    match batches::ancestor_in(alloc, objects, id(SECOND), 2) {
        Err(gix_object::Error::ExistingObject(Error::NotFound { oid })) => oid == id(FIRST),
        _ => false,
    }
}

/// Id that `git mktree` prints for `docs` alone, which has `a.txt`, `c.txt` and `run.sh`.
const FETCHED: &[u8] = b"8d9a81de09da1d717da987517f5c5494fb3aeda8";

/// An editor of a root that has only the tree, as the directory `docs`.
fn editor_over_docs(alloc: Global) -> Editor<Memory> {
    let mut editor = Editor::new(Tree::empty(alloc), Memory::new(alloc), HashKind::Sha1);
    let _ = editor.try_upsert(&path_of(alloc, &["docs"]), EntryKind::Tree, id(TREE));
    editor
}

/// Whether a file is inserted into a directory among objects, and the written root has its id.
fn is_fetched(alloc: Global, objects: &[(Kind, &[u8])]) -> bool {
    let mut editor = editor_over_docs(alloc);
    let path = path_of(alloc, &["docs", "c.txt"]);
    batches::upsert_in(&mut editor, objects, &path, id(BLOB)).is_ok()
        && has_root(alloc, &mut editor, FETCHED)
}

/// Whether the written root has this id.
fn has_root(alloc: Global, editor: &mut Editor<Memory>, wanted: &[u8]) -> bool {
    match writes::write(alloc, editor) {
        Ok((root, _)) => root == id(wanted),
        Err(_) => false,
    }
}

#[test]
fn inserts_objects_on_demand(rt: HostRuntime) {
    let alloc = rt.alloc();
    let first: (Kind, &[u8]) = (Kind::Commit, FIRST_BYTES);
    let second: (Kind, &[u8]) = (Kind::Commit, SECOND_BYTES);
    assert!(rt; finds_parent(alloc, &[first, second]));
    assert!(rt; lacks_commit(alloc, &[second]));
    assert!(rt; is_fetched(alloc, &[first, (Kind::Tree, TREE_BYTES)]));
}

/// Id that `git mktree` prints for the directory `docs` of the tree, and a file `z.txt`.
pub const NESTED: &[u8] = b"805d1ea513536df94ee76b5baab4a68c5a2de7da";

/// A store in which a tree has itself as an entry.
fn endless(alloc: Global) -> Memory {
    let mut store = Memory::new(alloc);
    let tree = tree_of(alloc, &[(EntryKind::Tree, b"loop", id(TREE))]);
    let _ = store.keep(id(TREE), &tree);
    store
}

/// A store of both commits, of the tree, and of a tree in which it is the directory `docs`.
pub fn nested(alloc: Global) -> Memory {
    let mut store = stored_commits(alloc);
    let docs = (EntryKind::Tree, b"docs".as_slice(), id(TREE));
    let file = (EntryKind::Blob, b"z.txt".as_slice(), id(BLOB));
    let _ = store.keep(id(NESTED), &tree_of(alloc, &[docs, file]));
    store
}

/// Whether the last of three files below the nested tree is the script.
fn is_listed(alloc: Global, store: &Memory) -> bool {
    match depths::files_below(alloc, store, id(NESTED), 2) {
        Ok(Some(files)) => files.len() == 3 && is_script(alloc, files.last()),
        _ => false,
    }
}

/// Whether the found file is the script in the directory.
fn is_script(alloc: Global, found: Option<&(BString, EntryMode, ObjectId)>) -> bool {
    match found {
        Some((path, mode, _)) => mode.as_str() == "exe"
            && *path == string_of(alloc, b"docs/run.sh"),
        None => false,
    }
}

/// Whether the list of a tree that contains itself ends at a bound.
fn ends(alloc: Global, store: &Memory) -> bool {
    match depths::files_below(alloc, store, id(TREE), 3) {
        Ok(found) => found.is_none(),
        Err(_) => false,
    }
}

#[test]
fn lists_trees_to_every_depth(rt: HostRuntime) {
    let alloc = rt.alloc();
    assert!(rt; is_listed(alloc, &nested(alloc)));
    assert!(rt; ends(alloc, &endless(alloc)));
}

/// A tree of the file `a.txt`, empty.
const EMPTIED_BYTES: &[u8] = b"100644 a.txt\0\
    \xe6\x9d\xe2\x9b\xb2\xd1\xd6\x43\x4b\x8b\x29\xae\x77\x5a\xd8\xc2\xe4\x8c\x53\x91";

/// Whether each of two trees has this number of entries in which they differ.
fn differ(alloc: Global, before: &[u8], after: &[u8], counts: (usize, usize)) -> bool {
    match differences::compare(alloc, before, after) {
        Ok(found) => (found.before.len(), found.after.len()) == counts,
        Err(_) => false,
    }
}

#[test]
fn lists_entries_that_differ(rt: HostRuntime) {
    let alloc = rt.alloc();
    assert!(rt; differ(alloc, TREE_BYTES, EMPTIED_BYTES, (2, 1)));
    assert!(rt; differ(alloc, TREE_BYTES, TREE_BYTES, (0, 0)));
}
