//! Owned objects: their parts, lent and converted into.

use super::is_kept;
use super::samples::{owned, owned_again};
use crate::helpers::holds;
use gixobj_base::{Blob, Kind, Tree, WriteTo};
use gixobj_codec::{Commit, Object, Tag};
use std::alloc::Global;

/// Returns whether the getters for this kind return the object's part, which has this kind.
fn is_lent(object: &Object, wanted: Kind) -> bool {
    match (wanted, object) {
        (Kind::Tree, Object::Tree(it)) => object.as_tree() == Some(it) && it.kind() == wanted,
        (Kind::Blob, Object::Blob(it)) => {
            object.as_blob() == Some(it)
                && object.try_into_blob_ref() == Some(it.to_ref())
                && it.kind() == wanted
        }
        (Kind::Commit, Object::Commit(it)) => object.as_commit() == Some(it) && it.kind() == wanted,
        (Kind::Tag, Object::Tag(it)) => object.as_tag() == Some(it) && it.kind() == wanted,
        (Kind::Tree, _) => object.as_tree().is_some(),
        (Kind::Blob, _) => object.as_blob().is_some() || object.try_into_blob_ref().is_some(),
        (Kind::Commit, _) => object.as_commit().is_some(),
        (Kind::Tag, _) => object.as_tag().is_some(),
    }
}

/// Rebuilds an object from the part of its own kind.
fn rebuilt(object: Object) -> Object {
    match object.kind() {
        Kind::Tree => Object::from(object.into_tree()),
        Kind::Blob => Object::from(object.into_blob()),
        Kind::Commit => Object::from(object.into_commit()),
        Kind::Tag => Object::from(object.into_tag()),
    }
}

/// Rebuilds an object from its part of this kind, or returns the object.
fn converted(object: Object, wanted: Kind) -> Result<Object, Object> {
    Ok(match wanted {
        Kind::Tree => Object::from(object.try_into_tree()?),
        Kind::Blob => Object::from(object.try_into_blob()?),
        Kind::Commit => Object::from(object.try_into_commit()?),
        Kind::Tag => Object::from(object.try_into_tag()?),
    })
}

/// Rebuilds an object from its part of this kind, or returns the object, by `TryFrom`.
fn converted_by_std(object: Object, wanted: Kind) -> Result<Object, Object> {
    Ok(match wanted {
        Kind::Tree => Object::from(Tree::try_from(object)?),
        Kind::Blob => Object::from(Blob::try_from(object)?),
        Kind::Commit => Object::from(Commit::try_from(object)?),
        Kind::Tag => Object::from(Tag::try_from(object)?),
    })
}

/// Returns whether an object has a part of this kind, lent and converted into, if and only if that is its kind.
pub(super) fn has_part(alloc: Global, kind: Kind, bytes: &[u8], wanted: Kind) -> bool {
    let Some(object) = owned_again(alloc, kind, bytes) else {
        return false;
    };
    is_lent(&object, wanted) == (kind == wanted)
        && holds!(
            owned(alloc, kind, bytes),
            Some(it) => is_kept(&converted(it, wanted), &object, kind == wanted)
        )
        && holds!(
            owned(alloc, kind, bytes),
            Some(it) => is_kept(&converted_by_std(rebuilt(it), wanted), &object, kind == wanted)
        )
}
