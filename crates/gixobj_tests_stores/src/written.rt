//! Objects that are written into a store: each is one stream of its kind, size and bytes.

use crate::recording::Recorder;
use crate::samples::{KINDS, bytes_of, id, id_by_git, id_of_bytes, is_id};
use bstr::BString;
use gixobj_encode::{WriteTo, encode};
use gixobj_hash::Kind;
use gixobj_hash::hash::{Kind as HashKind, ObjectId};
use gixobj_object::ObjectRef;
use gixobj_store_find::{Write, write};
use gixobj_tree::tree::Entry;
use gixobj_tree::{BlobRef, Tree};
use gixobj_tree_entries::EntryKind;
use std::alloc::Global;
use std::rc::Rc;

/// What is passed to a call of [`Write`].
#[derive(Clone, Copy)]
pub(crate) enum Form {
    Object,
    Bytes,
    Stream,
}

/// A call of [`Write`].
pub(crate) struct Call {
    pub(crate) form: Form,
    pub(crate) kind: Kind,
    pub(crate) bytes: &'static [u8],
    /// The known id that is passed.
    pub(crate) known: Option<ObjectId>,
    /// The id that `git hash-object --literally -t` prints.
    pub(crate) by_git: &'static [u8],
}

/// Each call of [`Write`].
pub(crate) const CALLS: &[Call] = &[
    Call {
        form: Form::Bytes,
        kind: Kind::Tag,
        bytes: b"a",
        known: None,
        by_git: b"f2040f70b465f9575f0a52e3906c9426278b747d",
    },
    Call {
        form: Form::Bytes,
        kind: Kind::Blob,
        bytes: b"bc",
        known: Some(ObjectId::Sha1([1; 20])),
        by_git: b"e5d8f44be26db0c31cbdaa99c83480c393780c82",
    },
    Call {
        form: Form::Stream,
        kind: Kind::Tree,
        bytes: b"def",
        known: Some(ObjectId::Sha1([2; 20])),
        by_git: b"6923ea8f52259c975634fe10f3972eecc79a0d23",
    },
    Call {
        form: Form::Stream,
        kind: Kind::Commit,
        bytes: b"g",
        known: None,
        by_git: b"84099fe91fefb009c6112508b3fd1e2fce271a16",
    },
    Call {
        form: Form::Object,
        kind: Kind::Blob,
        bytes: b"hi",
        known: None,
        by_git: b"32f95c0d1244a78b2be1bab8de17906fabb2c4a8",
    },
];

/// Returns whether a store returns the known id for this call, or else git's.
pub(crate) fn returns_id<W: Write>(alloc: Global, store: &W, call: &Call) -> bool {
    let (kind, bytes, mut stream) = (call.kind, call.bytes, call.bytes);
    let size = bytes.len() as u64;
    let answer = match (call.form, call.known) {
        (Form::Object, _) => store.write(alloc, &BlobRef::from_bytes(bytes)),
        (Form::Bytes, None) => store.write_buf(alloc, kind, bytes),
        (Form::Bytes, Some(known)) => store.write_buf_with_known_id(alloc, kind, bytes, known),
        (Form::Stream, None) => store.write_stream(alloc, kind, size, &mut stream),
        (Form::Stream, Some(known)) => {
            store.write_stream_with_known_id(alloc, kind, size, &mut stream, known)
        }
    };
    is_id(answer, call.known.unwrap_or(id(call.by_git)))
}

/// Each call of [`Write`] writes one stream through a borrow of a store.
#[test]
fn writes_to_borrowed_store(rt: HostRuntime) {
    let store = Recorder::new();
    for call in CALLS {
        assert!(rt; returns_id(rt.alloc(), &&store, call), "{:?}", call.bytes);
        assert!(rt; store.last.get() == id(call.by_git), "{:?}", call.bytes);
    }
    assert!(rt; store.streams.get() == 5);
}

/// Returns whether this call writes one stream into a shared store.
fn is_written_shared(alloc: Global, call: &Call) -> bool {
    match &Rc::new(alloc, Recorder::new()) {
        Ok(store) => {
            returns_id(alloc, store, call)
                && store.last.get() == id(call.by_git)
                && store.streams.get() == 1
        }
        Err(_) => false,
    }
}

#[test]
fn writes_to_shared_store(rt: HostRuntime) {
    for call in CALLS {
        assert!(rt; is_written_shared(rt.alloc(), call), "{:?}", call.bytes);
    }
}

/// Returns whether the object of this kind is written into a store as one stream.
fn is_written<T: WriteTo>(alloc: Global, object: &T, kind: Kind) -> bool
    requires { T.can_write object.now }
{
    let store = Recorder::new();
    is_id(store.write(alloc, object), id_by_git(kind)) && store.streams.get() == 1
}

/// Returns whether the borrowed and then the owned object of this kind are written as one stream each.
fn are_written(alloc: Global, kind: Kind) -> bool {
    let Ok(object) = ObjectRef::from_bytes(alloc, bytes_of(kind), kind, HashKind::Sha1) else {
        return false;
    };
    if !is_written(alloc, &object, kind) {
        return false;
    }
    match object.into_owned(alloc) {
        Ok(owned) => is_written(alloc, &owned, kind),
        Err(_) => false,
    }
}

#[test]
fn writes_borrowed_and_owned_objects(rt: HostRuntime) {
    for kind in KINDS {
        assert!(rt; are_written(rt.alloc(), kind), "{kind:?}");
    }
}

/// Builds a tree of an entry whose name has a zero byte. The name is empty if memory runs out.
fn unwritable(alloc: Global) -> Tree {
    let name = BString::from_slice(alloc, b"a\0b");
    let mut entries = Vec::new(alloc);
    let _ = entries.push(Entry {
        mode: EntryKind::Blob.into(),
        filename: name.unwrap_or(BString::new(Vec::new(alloc))),
        oid: id_of_bytes(1),
    });
    Tree { entries }
}

/// A tree fails for the name of an entry, and the store has no stream.
#[test]
fn writes_nothing_of_tree_with_invalid_name(rt: HostRuntime) {
    let store = Recorder::new();
    assert!(rt;
        matches!(
            &store.write(rt.alloc(), &unwritable(rt.alloc())),
            Err(write::Error::Encode(encode::Error::NullbyteInFilename { .. }))
        )
    );
    assert!(rt; store.streams.get() == 0);
}
