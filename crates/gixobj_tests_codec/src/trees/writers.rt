//! Written borrowed trees: rejected names, sizes, and failing writers.

use super::{ENTRY, EXAMPLE};
use crate::helpers::{holds, is_written, stops};
use bstr::BStr;
use gixobj_base::encode::Error;
use gixobj_base::hash::{Kind, ObjectId};
use gixobj_base::tree::EntryKind;
use gixobj_base::{WriteTo, decode};
use gixobj_codec::TreeRef;
use gixobj_codec::tree::EntryRef;
use std::alloc::Global;

/// Returns the tree of the one entry, and of entries of these kinds and names, with this id.
fn grown<'a>(
    alloc: Global,
    rows: &[(EntryKind, &'a [u8])],
    id: &'a ObjectId,
) -> Result<TreeRef<'a>, decode::Error> {
    let mut tree = TreeRef::from_bytes(alloc, ENTRY, Kind::Sha1)?;
    for &(kind, name) in rows {
        tree.entries.push(EntryRef {
            mode: kind.into(),
            filename: BStr::new(name),
            oid: id.as_oid(),
        })?;
    }
    Ok(tree)
}

/// Kinds of entries, and names with a zero byte.
const WITH_ZERO_BYTES: &[(EntryKind, &[u8])] = &[
    (EntryKind::Link, b"b\0c"),
    (EntryKind::Blob, b"d\0"),
];

/// The bytes written before the second entry is rejected: the first one, and its own mode and space.
const BEFORE: &[u8] = b"before100644 a\0\
    \x01\x01\x01\x01\x01\x01\x01\x01\x01\x01\x01\x01\x01\x01\x01\x01\x01\x01\x01\x01\
    120000\x20";

/// Returns whether this name of an entry is rejected after these bytes.
fn is_rejected_for(alloc: Global, tree: &TreeRef<'_>, name: &[u8], before: &[u8]) -> bool {
    let Ok(mut out) = Vec::from_slice(alloc, b"before") else {
        return false;
    };
    let outcome = tree.write_to(alloc, &mut out);
    out.as_slice() == before
        && holds!(&outcome, Err(Error::NullbyteInFilename { name: it }) => it.as_slice() == name)
}

/// Writes the entry before a rejected name, and its own mode and space.
#[test]
fn rejects_name_with_zero_byte(rt: HostRuntime) {
    let id = ObjectId::null(Kind::Sha1);
    let tree = grown(rt.alloc(), WITH_ZERO_BYTES, &id);
    assert!(rt; holds!(&tree, Ok(it) => it.size() == Some(29 + 31 + 30)));
    assert!(rt; holds!(&tree, Ok(it) => is_rejected_for(rt.alloc(), it, b"b\0c", BEFORE)));
}

#[test]
fn returns_writer_error_after_each_prefix(rt: HostRuntime) {
    let tree = TreeRef::from_bytes(rt.alloc(), EXAMPLE, Kind::Sha1);
    assert!(rt; holds!(&tree, Ok(tree) => stops(rt.alloc(), tree, EXAMPLE)));
}

/// The one entry, and that of a tree with the null id of SHA-256.
const WITH_BOTH_KINDS: &[u8] = b"100644 a\0\
    \x01\x01\x01\x01\x01\x01\x01\x01\x01\x01\x01\x01\x01\x01\x01\x01\x01\x01\x01\x01\
    40000 b\0\
    \0\0\0\0\0\0\0\0\0\0\0\0\0\0\0\0\
    \0\0\0\0\0\0\0\0\0\0\0\0\0\0\0\0";

/// Ids of both kinds are counted and written with their own length.
#[test]
fn counts_ids_of_both_kinds(rt: HostRuntime) {
    let id = ObjectId::null(Kind::Sha256);
    let tree = grown(rt.alloc(), &[(EntryKind::Tree, b"b")], &id);
    assert!(rt; holds!(&tree, Ok(it) => is_written(rt.alloc(), it, WITH_BOTH_KINDS)));
}
