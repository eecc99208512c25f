//! Samples: objects of each kind, with all optional parts or none.

use crate::commit::PLAIN;
use crate::tags::BARE;
use gixobj_base::Kind::{self, Blob, Commit, Tag, Tree};
use gixobj_base::hash::Kind::Sha1;
use gixobj_codec::{Object, ObjectRef};
use std::alloc::Global;

/// A commit with a parent, an encoding, and headers of one line and of two.
const WITH_HEADERS: &[u8] = b"tree 4b825dc642cb6eb9a060e54bf8d69288fbee4904\n\
    parent 4b825dc642cb6eb9a060e54bf8d69288fbee4904\n\
    author A <a@b> 0 +0000\ncommitter A <a@b> 0 +0000\n\
    encoding ISO-8859-1\nx A\ny A\n B\n\nhi\n";

/// A tag with a tagger, a message and a signature.
const SIGNED: &[u8] = b"object 4b825dc642cb6eb9a060e54bf8d69288fbee4904\n\
    type tree\ntag v1\ntagger A <a@b> 0 +0000\n\
    \nhi\n-----BEGIN PGP SIGNATURE-----\nA\n-----END PGP SIGNATURE-----\n";

/// Kinds and encodings of objects, in ascending order.
pub(super) const ENCODINGS: &[(Kind, &[u8])] = &[
    (Tree, b""),
    (Tree, b"100644 a\0aaaaaaaaaaaaaaaaaaaa"),
    (Blob, b"hello"),
    (Commit, PLAIN),
    (Commit, WITH_HEADERS),
    (Tag, BARE),
    (Tag, SIGNED),
];

/// Decodes an object.
pub(super) fn read(alloc: Global, kind: Kind, bytes: &[u8]) -> Option<ObjectRef<'_>> {
    ObjectRef::from_bytes(alloc, bytes, kind, Sha1).ok()
}

/// Decodes an object into its owned form, by `into_owned`.
pub(super) fn owned(alloc: Global, kind: Kind, bytes: &[u8]) -> Option<Object> {
    let object = ObjectRef::from_bytes(alloc, bytes, kind, Sha1);
    object.ok()?.into_owned(alloc).ok()
}

/// Decodes an object into its owned form, by `to_owned`.
pub(super) fn owned_again(alloc: Global, kind: Kind, bytes: &[u8]) -> Option<Object> {
    let object = ObjectRef::from_bytes(alloc, bytes, kind, Sha1);
    object.ok()?.to_owned(alloc).ok()
}

/// Returns all samples.
pub(super) fn all(alloc: Global) -> Option<Vec<ObjectRef<'static>>> {
    let mut objects = Vec::new(alloc);
    for &(kind, bytes) in ENCODINGS {
        objects.push(read(alloc, kind, bytes)?).ok()?;
    }
    Some(objects)
}

/// Returns all samples, owned.
pub(super) fn all_owned(alloc: Global) -> Option<Vec<Object>> {
    let mut objects = Vec::new(alloc);
    for &(kind, bytes) in ENCODINGS {
        objects.push(owned(alloc, kind, bytes)?).ok()?;
    }
    Some(objects)
}
