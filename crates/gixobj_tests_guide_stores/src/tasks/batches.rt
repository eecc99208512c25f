//! Objects that are inserted into a store when they are needed.

use bstr::BString;
use gix_object::find::existing_object;
use gix_object::hash::{Kind as HashKind, ObjectId};
use gix_object::tree::EntryKind;
use gix_object::tree::editor::{self, Editor};
use gix_object::{Error, FindExt, FindHeader, Kind, Memory, compute_hash, find};
use std::alloc::Global;

/// Finds an ancestor. Each commit is inserted into the store before it is looked up.
pub fn ancestor_in(
    alloc: Global,
    objects: &[(Kind, &[u8])],
    commit: ObjectId,
    generations: u32,
) -> Result<Option<ObjectId>, Error> {
    let (mut store, mut buffer) = (Memory::new(alloc), Vec::new(alloc));
    let mut id = commit;
    for _ in 0..generations {
        fetch(&mut store, objects, id)?;
        let commit = store.find_commit(alloc, id.as_oid(), &mut buffer)?;
        match commit.parents().next() {
            Some(parent) => id = parent,
            None => return Ok(None),
        }
    }
    Ok(Some(id))
}

/// Inserts a file. A directory that the store lacks is inserted, and the edit repeated.
pub fn upsert_in(
    editor: &mut Editor<Memory>,
    objects: &[(Kind, &[u8])],
    path: &[BString],
    blob: ObjectId,
) -> Result<(), Error> {
    for _ in path {
        match editor.try_upsert(path, EntryKind::Blob, blob) {
            Err(editor::Error::FindExistingObject(existing_object::Error::NotFound { oid })) => {
                fetch(editor.store_mut(), objects, oid)?;
            }
            result => return Ok(result?),
        }
    }
    Ok(editor.try_upsert(path, EntryKind::Blob, blob)?)
}

/// Inserts the object with this id from `objects`, unless the store has it.
fn fetch(store: &mut Memory, objects: &[(Kind, &[u8])], id: ObjectId) -> Result<(), find::Error> {
    if store.try_header(id.as_oid())?.is_some() {
        return Ok(());
    }
    for (kind, content) in objects {
        if compute_hash(HashKind::Sha1, *kind, content) == id {
            store.insert(*kind, HashKind::Sha1, content)?;
        }
    }
    Ok(())
}
