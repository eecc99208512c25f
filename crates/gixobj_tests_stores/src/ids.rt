//! Ids of objects of each kind.

use crate::samples::{KINDS, bytes_of, id_by_git};
use gixobj_encode::WriteTo;
use gixobj_hash::Kind;
use gixobj_hash::hash::{Kind as HashKind, ObjectId};
use gixobj_object::ObjectRef;
use std::alloc::Global;

/// Computes the id of the object of this kind, or returns `None` if an allocation fails.
fn computed_id(alloc: Global, kind: Kind) -> Option<ObjectId> {
    let object = ObjectRef::from_bytes(alloc, bytes_of(kind), kind, HashKind::Sha1).ok()?;
    object.compute_id(alloc, HashKind::Sha1).ok()
}

#[test]
fn computes_ids_whatever_allocation_fails(rt: HostRuntime) {
    for kind in KINDS {
        let mut computed = computed_id(rt.alloc(), kind);
        if computed.is_none() {
            computed = computed_id(rt.alloc(), kind);
        }
        assert!(rt; computed == Some(id_by_git(kind)), "{kind:?}");
    }
}
