//! Objects inserted into a store in memory, and looked up.

use gix_object::find::existing_object::Error;
use gix_object::hash::{Kind as HashKind, ObjectId};
use gix_object::{FindExt, FindHeader, Header, Kind, Memory, OutOfMemory, Tree, find, write};
use std::alloc::{AllocError, Global};

/// Makes a store of a blob and the bytes of a tree. Returns it with their ids.
pub fn store_of(
    alloc: Global,
    blob: &[u8],
    tree: &[u8],
) -> Result<(Memory, ObjectId, ObjectId), OutOfMemory> {
    let mut store = Memory::new(alloc);
    let blob = store.insert(Kind::Blob, HashKind::Sha1, blob)?;
    let tree = store.insert(Kind::Tree, HashKind::Sha1, tree)?;
    Ok((store, blob, tree))
}

/// Looks up the kind and the size of an object, if the store has it.
pub fn header_of(store: &Memory, id: ObjectId) -> Result<Option<Header>, find::Error> {
    store.try_header(id.as_oid())
}

/// Looks up the content of a blob.
pub fn content_of<'a>(
    alloc: Global,
    store: &Memory,
    blob: ObjectId,
    buffer: &'a mut Vec<u8>,
) -> Result<&'a [u8], Error> {
    Ok(store.find_blob(alloc, blob.as_oid(), buffer)?.bytes)
}

/// Writes the empty tree into a store. Returns its id.
pub fn write_empty_tree(alloc: Global, store: &mut Memory) -> Result<ObjectId, write::Error> {
    let tree = store.write(HashKind::Sha1, &Tree::empty(alloc))?;
    Ok(tree)
}

/// Lists the ids of the objects, in order.
pub fn ids_of(alloc: Global, store: &Memory) -> Result<Vec<ObjectId>, AllocError> {
    let mut ids = Vec::with_capacity(alloc, store.len())?;
    for id in store.ids() {
        ids.push(id)?;
    }
    Ok(ids)
}
