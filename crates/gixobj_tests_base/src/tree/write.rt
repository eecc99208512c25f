//! Written trees: rejected names, failing writers, and ids.

use super::tree_of;
use crate::helpers::holds;
use crate::limited::Limited;
use gixobj_base::encode::Error;
use gixobj_base::hash::{Kind, ObjectId};
use gixobj_base::tree::EntryKind;
use gixobj_base::{Tree, WriteTo};

/// Three entries of the empty blob's id. The second and the third name have a zero byte.
const WITH_A_ZERO_BYTE: &[(EntryKind, &[u8], bool)] = &[
    (EntryKind::Blob, b"a", true),
    (EntryKind::Link, b"b\0c", true),
    (EntryKind::Blob, b"d\0", true),
];

/// Writes the entry before a rejected name, and its own mode and space.
#[test]
fn rejects_name_with_zero_byte(rt: HostRuntime) {
    let alloc = rt.alloc();
    let tree = tree_of(alloc, WITH_A_ZERO_BYTE);
    let mut out = Vec::new(alloc);
    assert!(rt; out.extend_from_slice(b"before").is_ok());
    let outcome = tree.write_to(alloc, &mut out);
    assert!(rt;
        holds!(&outcome, Err(Error::NullbyteInFilename { name }) => name.as_slice() == b"b\0c".as_slice())
    );
    assert!(rt; out.len() == 6 + 29 + 7);
    assert!(rt; out.starts_with(b"before100644 a\0"));
    assert!(rt; out.ends_with(b"120000 "));
    assert!(rt; tree.size() == Some(29 + 31 + 30));
}

/// Entries of each kind, in the order of a tree.
const OF_EACH_KIND: &[(EntryKind, &[u8], bool)] = &[
    (EntryKind::Blob, b"docs.txt", true),
    (EntryKind::Tree, b"docs", true),
    (EntryKind::Blob, b"hello.txt", true),
    (EntryKind::Link, b"link", true),
    (EntryKind::Commit, b"module", true),
    (EntryKind::BlobExecutable, b"run.sh", true),
];

#[test]
fn returns_writer_error_after_each_prefix(rt: HostRuntime) {
    let alloc = rt.alloc();
    let tree = tree_of(alloc, OF_EACH_KIND);
    let mut bytes = Vec::new(alloc);
    assert!(rt; tree.write_to_vec(alloc, &mut bytes).is_ok());
    assert!(rt; bytes.len() == 36 + 31 + 37 + 32 + 34 + 34);
    for room in 0..bytes.len() {
        let held = Vec::new(alloc);
        let mut writer = Limited { held, room };
        let outcome = tree.write_to(alloc, &mut writer);
        assert!(rt; writer.stopped_at(&outcome, &bytes, room), "{room}");
    }
}

/// The ids that `git mktree` prints for no entries.
const EMPTY_TREES: &[(Kind, &[u8])] = &[
    (Kind::Sha1, b"4b825dc642cb6eb9a060e54bf8d69288fbee4904"),
    (
        Kind::Sha256,
        b"6ef19b41225c5369f1c104d45d8d85efa9b057b53b14b4b9b939dd74decc5321",
    ),
];

#[test]
fn computes_ids_of_empty_tree(rt: HostRuntime) {
    let tree = Tree::empty(rt.alloc());
    for &(kind, hex) in EMPTY_TREES {
        assert!(rt;
            tree.compute_id(rt.alloc(), kind).ok() == ObjectId::from_hex(hex),
            "{kind:?}"
        );
    }
}
