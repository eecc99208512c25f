//! Objects of any kind: conversions, orders, and verified ids. `gixobj_tests_replay` compares decoded loose objects,
//! and the bytes that are written of them.

mod borrowed;
mod owned;
mod samples;

use crate::helpers::{are_copied, are_in_order, holds};
use gixobj_base::Kind;
use gixobj_base::hash::{Kind as HashKind, ObjectId};
use gixobj_codec::{Data, data};
use samples::ENCODINGS;
use std::alloc::Global;

/// Returns whether an empty object of this kind has the first id, and verifying the other id fails with both.
fn is_verified(kind: Kind, id: ObjectId, other: ObjectId) -> bool {
    let empty = Data::new(b"", kind, HashKind::Sha1);
    match (
        empty.verify_checksum(id.as_oid()),
        empty.verify_checksum(other.as_oid()),
    ) {
        (Ok(answer), Err(data::verify::Error::Verify(error))) => {
            answer == id && error.actual == id && error.expected == other
        }
        _ => false,
    }
}

#[test]
fn verifies_ids_of_empty_objects(rt: HostRuntime) {
    for kind in [HashKind::Sha1, HashKind::Sha256] {
        let (tree, blob) = (ObjectId::empty_tree(kind), ObjectId::empty_blob(kind));
        assert!(rt; is_verified(Kind::Blob, blob, tree), "{kind:?}");
        assert!(rt; is_verified(Kind::Tree, tree, blob), "{kind:?}");
    }
}

/// Returns whether a conversion succeeded if and only if `wanted`, and kept the object, rebuilt or returned.
fn is_kept<T: PartialEq>(converted: &Result<T, T>, object: &T, wanted: bool) -> bool {
    match converted {
        Ok(it) => wanted && it == object,
        Err(it) => !wanted && it == object,
    }
}

/// Returns whether an object, borrowed and owned, has a part of its own kind, and none of another one.
fn has_one_part(alloc: Global, kind: Kind, bytes: &[u8]) -> bool {
    for wanted in [Kind::Tree, Kind::Blob, Kind::Commit, Kind::Tag] {
        if !borrowed::has_part(alloc, kind, bytes, wanted)
            || !owned::has_part(alloc, kind, bytes, wanted)
        {
            return false;
        }
    }
    true
}

/// A failed conversion returns the object.
#[test]
fn converts_into_own_kind_only(rt: HostRuntime) {
    for &(kind, bytes) in ENCODINGS {
        assert!(rt; has_one_part(rt.alloc(), kind, bytes), "{kind} {bytes:?}");
    }
}

#[test]
fn objects_compare_by_kind_first(rt: HostRuntime) {
    let objects = samples::all(rt.alloc());
    assert!(rt; holds!(&objects, Some(it) => are_copied(it) && are_in_order(it)));
    let objects = samples::all_owned(rt.alloc());
    assert!(rt; holds!(&objects, Some(it) => are_copied(it) && are_in_order(it)));
}
