//! A tree, a commit and a tag from nothing.

use bstr::BString;
use gix_object::actor::Signature;
use gix_object::date::Time;
use gix_object::hash::{Kind as HashKind, ObjectId};
use gix_object::tree::{Entry, EntryKind};
use gix_object::{Commit, Kind, Tag, Tree, WriteTo, compute_hash, encode};
use smallvec::SmallVec;
use std::alloc::{AllocError, Global};

/// Makes a tree with one file.
pub fn tree(alloc: Global, blob: ObjectId) -> Result<Tree, AllocError> {
    let mut tree = Tree::empty(alloc);
    tree.entries.push(Entry {
        mode: EntryKind::Blob.into(),
        filename: BString::from_slice(alloc, b"a.txt")?,
        oid: blob,
    })?;
    Ok(tree)
}

/// Makes an actor at an hour after the Unix epoch, in the time zone +0100.
pub fn actor(alloc: Global) -> Result<Signature, AllocError> {
    Ok(Signature {
        name: BString::from_slice(alloc, b"A U Thor")?,
        email: BString::from_slice(alloc, b"author@example.com")?,
        time: Time::new(3600, 3600).unwrap_or_default(),
    })
}

/// Makes a commit of this tree with one parent.
pub fn commit(alloc: Global, tree: ObjectId, parent: ObjectId) -> Result<Commit, AllocError> {
    Ok(Commit {
        tree,
        parents: SmallVec::from_array(alloc, [parent])?,
        author: actor(alloc)?,
        committer: actor(alloc)?,
        encoding: None,
        message: BString::from_slice(alloc, b"Add a.txt\n")?,
        extra_headers: Vec::new(alloc),
    })
}

/// Makes a tag of a commit.
pub fn tag(alloc: Global, commit: ObjectId) -> Result<Tag, AllocError> {
    Ok(Tag {
        target: commit,
        target_kind: Kind::Commit,
        name: BString::from_slice(alloc, b"v1.0")?,
        tagger: Some(actor(alloc)?),
        message: BString::from_slice(alloc, b"First\n")?,
        signature: None,
    })
}

/// Encodes all three. Returns the tag's id.
pub fn tag_id(alloc: Global, blob: ObjectId, parent: ObjectId) -> Result<ObjectId, encode::Error> {
    let tree = tree(alloc, blob)?.compute_id(alloc, HashKind::Sha1)?;
    let mut bytes = Vec::new(alloc);
    commit(alloc, tree, parent)?.write_to_vec(alloc, &mut bytes)?;
    let commit = compute_hash(HashKind::Sha1, Kind::Commit, &bytes);
    bytes.clear();
    tag(alloc, commit)?.write_to_vec(alloc, &mut bytes)?;
    Ok(compute_hash(HashKind::Sha1, Kind::Tag, &bytes))
}
