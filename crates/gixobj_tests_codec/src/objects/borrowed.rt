//! Borrowed objects: their parts, lent and converted into.

use super::is_kept;
use super::samples::read;
use crate::helpers::holds;
use gixobj_base::{BlobRef, Kind, WriteTo};
use gixobj_codec::{CommitRef, ObjectRef, TagRef, TreeRef};
use std::alloc::Global;

/// Returns whether the getter for this kind returns the object's part, which has this kind.
fn is_lent(object: &ObjectRef<'_>, wanted: Kind) -> bool {
    match (wanted, object) {
        (Kind::Tree, ObjectRef::Tree(it)) => object.as_tree() == Some(it) && it.kind() == wanted,
        (Kind::Blob, ObjectRef::Blob(it)) => object.as_blob() == Some(it) && it.kind() == wanted,
        (Kind::Commit, ObjectRef::Commit(it)) => {
            object.as_commit() == Some(it) && it.kind() == wanted
        }
        (Kind::Tag, ObjectRef::Tag(it)) => object.as_tag() == Some(it) && it.kind() == wanted,
        (Kind::Tree, _) => object.as_tree().is_some(),
        (Kind::Blob, _) => object.as_blob().is_some(),
        (Kind::Commit, _) => object.as_commit().is_some(),
        (Kind::Tag, _) => object.as_tag().is_some(),
    }
}

/// Rebuilds an object from its part of this kind.
fn rebuilt(object: ObjectRef<'_>, wanted: Kind) -> Option<ObjectRef<'_>> {
    match wanted {
        Kind::Tree => object.into_tree().map(ObjectRef::from),
        Kind::Blob => object.into_blob().map(ObjectRef::from),
        Kind::Commit => object.into_commit().map(ObjectRef::from),
        Kind::Tag => object.into_tag().map(ObjectRef::from),
    }
}

/// Rebuilds an object from its part of this kind, by `TryFrom`, which otherwise returns the object.
fn converted(object: ObjectRef<'_>, wanted: Kind) -> Result<ObjectRef<'_>, ObjectRef<'_>> {
    Ok(match wanted {
        Kind::Tree => ObjectRef::from(TreeRef::try_from(object)?),
        Kind::Blob => ObjectRef::from(BlobRef::try_from(object)?),
        Kind::Commit => ObjectRef::from(CommitRef::try_from(object)?),
        Kind::Tag => ObjectRef::from(TagRef::try_from(object)?),
    })
}

/// Returns whether an object has a part of this kind, lent and converted into, if and only if that is its kind.
pub(super) fn has_part(alloc: Global, kind: Kind, bytes: &[u8], wanted: Kind) -> bool {
    let Some(object) = read(alloc, kind, bytes) else {
        return false;
    };
    let part = if kind == wanted { Some(&object) } else { None };
    is_lent(&object, wanted) == (kind == wanted)
        && holds!(read(alloc, kind, bytes), Some(it) => rebuilt(it, wanted).as_ref() == part)
        && holds!(
            read(alloc, kind, bytes),
            Some(it) => is_kept(&converted(it, wanted), &object, kind == wanted)
        )
}
