//! Objects of any type, written by generic functions.
ghost use Rattle.std.specs.Prelude.{◌≡◌, ◌++◌, ℕ, List, IfOk};
ghost use Rattle.gixobj_base.specs.Encode.{encode_loose_header};
ghost use Rattle.gixobj_base.specs.Writing.{RejectsNothing};

use crate::helpers::{holds, owned_blob};
use crate::tree::tree_of;
use gixobj_base::hash::{self, ObjectId};
use gixobj_base::tree::EntryKind;
use gixobj_base::{BlobRef, Kind, Tree, WriteTo, compute_hash, encode};
use std::alloc::Global;

/// Returns the encoding of any object.
fn bytes_of<T: WriteTo>(alloc: Global, object: &T) -> Result<Vec<u8>, encode::Error>
    requires { T.can_write object.now }
    ensures encoded { IfOk result (λ out. out.items ≡ T.encoding object.now) }
    ensures no_error { IfOk result (λ _. RejectsNothing (T.rejects object.now)) }
{
    let mut out = Vec::new(alloc);
    object.write_to_vec(alloc, &mut out)?;
    Ok(out)
}

/// Returns whether an object has this encoding with its size, and this loose header.
fn is_encoded<T: WriteTo>(alloc: Global, object: &T, header: &[u8], content: &[u8]) -> bool
    requires { T.can_write object.now }
{
    object.size() == Some(content.len() as u64)
        && holds!(bytes_of(alloc, object), Ok(out) => out.as_slice() == content)
        && holds!(object.loose_header(alloc), Some(it) => it.as_slice() == header)
}

/// Returns whether an object has this kind, this encoding with its size, this loose header and this SHA-1 id.
fn is_object<T: WriteTo>(
    alloc: Global,
    object: &T,
    kind: Kind,
    header: &[u8],
    content: &[u8],
    id: &str,
) -> bool
    requires { T.can_write object.now }
{
    let hash = compute_hash(hash::Kind::Sha1, kind, content);
    object.kind() == kind
        && Some(hash) == ObjectId::from_hex(id.as_bytes())
        && is_encoded(alloc, object, header, content)
}

/// Contents of blobs, their loose headers, and the ids that `git hash-object` prints.
const BLOBS: &[(&[u8], &[u8], &str)] = &[
    (b"", b"blob 0\0", "e69de29bb2d1d6434b8b29ae775ad8c2e48c5391"),
    (
        b"hello",
        b"blob 5\0",
        "b6fc4c620b67d95f953a5c1c1230aaab5db5a1b0",
    ),
    (
        b"hello world",
        b"blob 11\0",
        "95d09f2b10159347eece71399a7e2e907ea3df4f",
    ),
];

/// Writing a reference writes the object that it refers to. Bytes are appended to those written before.
#[test]
fn writes_blobs_through_references(rt: HostRuntime) {
    let alloc = rt.alloc();
    for &(content, header, id) in BLOBS {
        let blob = BlobRef::from_bytes(content);
        let owned = owned_blob(alloc, blob);
        assert!(rt;
            is_object(alloc, &blob, Kind::Blob, header, content, id),
            "{id}"
        );
        assert!(rt;
            is_object(alloc, &&blob, Kind::Blob, header, content, id),
            "{id}"
        );
        assert!(rt;
            is_object(alloc, &owned, Kind::Blob, header, content, id),
            "{id}"
        );
        let mut twice = Vec::new(alloc);
        assert!(rt; owned.write_to(alloc, &mut twice).is_ok(), "{id}");
        assert!(rt; blob.write_to_vec(alloc, &mut twice).is_ok(), "{id}");
        assert!(rt; twice.len() == content.len().saturating_add(content.len()));
        assert!(rt;
            twice.starts_with(content) && twice.ends_with(content),
            "{id}"
        );
    }
}

/// The encoding of a tree of one empty file.
const TREE_OF_EMPTY: &[u8] = b"100644 empty\0\
    \xe6\x9d\xe2\x9b\xb2\xd1\xd6\x43\x4b\x8b\x29\xae\x77\x5a\xd8\xc2\xe4\x8c\x53\x91";

/// Trees have the ids that `git mktree` prints.
#[test]
fn writes_trees_through_references(rt: HostRuntime) {
    let alloc = rt.alloc();
    let (empty, one) = (
        Tree::empty(alloc),
        tree_of(alloc, &[(EntryKind::Blob, b"empty", true)]),
    );
    let id = "4b825dc642cb6eb9a060e54bf8d69288fbee4904";
    assert!(rt; is_object(alloc, &empty, Kind::Tree, b"tree 0\0", b"", id));
    let id = "417c01c8795a35b8e835113a85a5c0c1c77f67fb";
    assert!(rt; is_object(alloc, &&one, Kind::Tree, b"tree 33\0", TREE_OF_EMPTY, id));
    assert!(rt; <&Tree as WriteTo>::size(&&one) == Some(33));
}
