//! Objects that several tests look up.

use bstr::BString;
use gixobj_hash::hash::{Kind as HashKind, ObjectId};
use gixobj_hash::{Kind, OutOfMemory};
use gixobj_store_find::write;
use gixobj_store_keep::Memory;
use std::alloc::{AllocError, Global};

/// The kinds of objects.
pub(crate) const KINDS: [Kind; 4] = [Kind::Tree, Kind::Blob, Kind::Commit, Kind::Tag];

/// The id of a tree of one file, `test.txt`, with the content `version 1`.
pub(crate) const BAK: &[u8] = b"d8329fc1cc938780ffdd9f94e0d364e0ea74f579";
/// The id of a tree of the tree [`BAK`] as `bak`, and of the files `new.txt` and `test.txt`.
pub(crate) const ROOT: &[u8] = b"3c4e9cd789d88d8d89c1073707c3585e41b0e614";
/// The id of the blob of `hello` and a newline.
pub(crate) const HELLO: &[u8] = b"ce013625030ba8dba906f756967f9e9ca394464a";
/// The id of the file in the tree [`BAK`].
pub(crate) const VERSION_1: &[u8] = b"83baae61804e65cc73a7201a7252750c76066a30";

/// The encoding of an object of this kind.
pub(crate) fn bytes_of(kind: Kind) -> &'static [u8] {
    match kind {
        Kind::Tree => b"100644 a\0aaaaaaaaaaaaaaaaaaaa",
        Kind::Blob => b"hello\n",
        Kind::Commit => {
            b"tree 4b825dc642cb6eb9a060e54bf8d69288fbee4904\n\
            author A <a@b> 0 +0000\n\
            committer A <a@b> 0 +0000\n\
            \nhi\n"
        }
        Kind::Tag => {
            b"object 4b825dc642cb6eb9a060e54bf8d69288fbee4904\n\
            type tree\n\
            tag v1\n"
        }
    }
}

/// The id of the encoding [`bytes_of`] this kind, as `git hash-object --literally -t` prints it.
pub(crate) fn id_by_git(kind: Kind) -> ObjectId {
    id(match kind {
        Kind::Tree => b"8e43dfceb5d1999a2f88fe633708be28256420b6",
        Kind::Blob => HELLO,
        Kind::Commit => b"cefd86e1aa1b558d030fd8abbc32dbe09841cfaf",
        Kind::Tag => b"a186d66b2e0052d5a3c9eb1c399f70b81963746d",
    })
}

/// Decodes an id of hex digits; other bytes yield the null id.
pub(crate) fn id(hex: &[u8]) -> ObjectId {
    ObjectId::from_hex(hex).unwrap_or(ObjectId::null(HashKind::Sha1))
}

/// Returns the SHA-1 id of 20 bytes of this value.
pub(crate) fn id_of_bytes(byte: u8) -> ObjectId {
    ObjectId::Sha1([byte; 20])
}

/// Returns whether a store returned this id.
pub(crate) fn is_id(answer: Result<ObjectId, write::Error>, wanted: ObjectId) -> bool {
    match answer {
        Ok(id) => id == wanted,
        Err(_) => false,
    }
}

/// The encoding of the tree [`BAK`].
pub(crate) const BAK_BYTES: &[u8] = b"100644 test.txt\0\
    \x83\xba\xae\x61\x80\x4e\x65\xcc\x73\xa7\x20\x1a\x72\x52\x75\x0c\x76\x06\x6a\x30";

/// The encoding of the tree [`ROOT`].
pub(crate) const ROOT_BYTES: &[u8] = b"40000 bak\0\
    \xd8\x32\x9f\xc1\xcc\x93\x87\x80\xff\xdd\x9f\x94\xe0\xd3\x64\xe0\xea\x74\xf5\x79\
    100644 new.txt\0\
    \xfa\x49\xb0\x77\x97\x23\x91\xad\x58\x03\x70\x50\xf2\xa7\x5f\x74\xe3\x67\x1e\x92\
    100644 test.txt\0\
    \x1f\x7a\x7a\x47\x2a\xbf\x3d\xd9\x64\x3f\xd6\x15\xf6\xda\x37\x9c\x4a\xcb\x3e\x3a";

/// Makes a store of the trees [`BAK`] and [`ROOT`], without their files.
pub(crate) fn two_trees(alloc: Global) -> Result<Memory, OutOfMemory> {
    let mut store = Memory::new(alloc);
    store.insert(Kind::Tree, HashKind::Sha1, BAK_BYTES)?;
    store.insert(Kind::Tree, HashKind::Sha1, ROOT_BYTES)?;
    Ok(store)
}

/// Makes the same store. It lacks trees if memory runs out.
pub(crate) fn stored_trees(alloc: Global) -> Memory {
    two_trees(alloc).unwrap_or(Memory::new(alloc))
}

/// Builds a path of these names.
pub(crate) fn names(alloc: Global, path: &[&str]) -> Result<Vec<BString>, AllocError> {
    let mut names = Vec::new(alloc);
    for name in path {
        names.push(BString::from_slice(alloc, name.as_bytes())?)?;
    }
    Ok(names)
}
