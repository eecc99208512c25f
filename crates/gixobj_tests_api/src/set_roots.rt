//! A run that sets the root over a store, with edits and writes in directories. `git mktree --missing` prints
//! the ids.

use crate::samples::{Row, edits_of, id, path_of, try_tree_of};
use gix_object::hash::{Kind as HashKind, ObjectId};
use gix_object::tree::EntryKind;
use gix_object::tree::editor::{Command, EditReply, Editor, Reply, run};
use gix_object::{Keep, Memory, Tree, encode};
use std::alloc::{AllocError, Global};

const FILE: &[u8] = b"0808080808080808080808080808080808080808";

/// The tree of the file `b`.
const B: &[u8] = b"76bc5198e8b2be4ce96d267df6696e0bb0a939cc";

/// The tree of that directory as `a`, and the files `c` and `d`.
const ROOT: &[u8] = b"ed11f53affcdd059f8f356f42b6c7488126894c5";

/// A store, and the id of the last directory in it.
#[derive(Drop)]
struct Filled {
    store: Memory,
    directory: ObjectId,
}

/// A tree of two entries in this order. The second is a file.
fn pair_of(
    alloc: Global,
    names: [&'static [u8]; 2],
    kind: EntryKind,
    id: ObjectId,
) -> Result<Tree, AllocError> {
    let [first, second] = names;
    let file = ObjectId::Sha1([9; 20]);
    try_tree_of(alloc, &[(kind, first, id), (EntryKind::Blob, second, file)])
}

/// Stores a directory of two entries. `None` if memory runs out.
fn store_pair(
    alloc: Global,
    filled: &mut Filled,
    names: [&'static [u8]; 2],
    kind: EntryKind,
    id: ObjectId,
) -> Option<()> {
    let tree = pair_of(alloc, names, kind, id).ok()?;
    let id = tree.compute_id(alloc, HashKind::Sha1).ok()?;
    filled.store.keep(id, &tree).ok()?;
    filled.directory = id;
    Some(())
}

/// Sets a root with this directory as `a`, then one with its entries in the wrong order. Edits and writes
/// in `a`, then in the root. Fewer commands if memory runs out.
fn commands_of(alloc: Global, directory: ObjectId) -> Vec<Command> {
    let root = pair_of(alloc, [b"a", b"c"], EntryKind::Tree, directory);
    let unordered = pair_of(alloc, [b"d", b"a"], EntryKind::Tree, directory);
    let mut commands = Vec::new(alloc);
    let _ = commands.push(Command::SetRoot(root.unwrap_or(Tree::empty(alloc))));
    let _ = commands.push(Command::SetRoot(unordered.unwrap_or(Tree::empty(alloc))));
    let _ = commands.push(Command::At {
        prefix: path_of(alloc, &["a"]),
        edits: edits_of(alloc, &[Row::Remove(&["a"]), Row::Write]),
    });
    let _ = commands.push(Command::At {
        prefix: path_of(alloc, &[]),
        edits: edits_of(alloc, &[Row::File(&["d"], FILE), Row::Write]),
    });
    commands
}

/// Whether an edit is done, and then the tree with this id is written, with `count` emitted trees.
fn edits_and_writes(replies: &[EditReply<encode::Error>], hex: &[u8], count: usize) -> bool {
    match replies {
        [EditReply::Done, EditReply::Written(written)] => {
            written.id == id(hex) && written.trees.len() == count
        }
        _ => false,
    }
}

/// Whether the first root is set and the second rejected, and both directories are written.
fn are_expected(replies: &[Reply<encode::Error>]) -> bool {
    match replies {
        [
            Reply::RootSet,
            Reply::RootRefused,
            Reply::At(in_a),
            Reply::At(in_root),
        ] => { edits_and_writes(in_a, B, 1) && edits_and_writes(in_root, ROOT, 2) }
        _ => false,
    }
}

#[test]
fn sets_root_over_store_and_rejects_unordered_one(rt: HostRuntime) {
    let alloc = rt.alloc();
    let mut filled = Filled {
        store: Memory::new(alloc),
        directory: id(b""),
    };
    let names = [b"a".as_slice(), b"b".as_slice()];
    assert!(rt; store_pair(alloc, &mut filled, names, EntryKind::Blob, id(FILE)).is_some());
    let commands = commands_of(alloc, filled.directory);
    let mut editor = Editor::new(Tree::empty(alloc), filled.store, HashKind::Sha1);
    let out = |tree: &Tree| tree.compute_id(alloc, HashKind::Sha1);
    let replies = run(alloc, &mut editor, commands, out);
    assert!(rt; matches!(&replies, Ok(replies) if are_expected(replies)));
}
