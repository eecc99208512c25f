//! Walks from a commit to an ancestor.

use gix_object::find::existing_object::Error;
use gix_object::hash::ObjectId;
use gix_object::{Find, FindExt};
use std::alloc::Global;

/// Returns the ancestor `generations` first parents before a commit, if there is one.
pub fn ancestor<S: Find>(
    alloc: Global,
    store: &S,
    commit: ObjectId,
    generations: u32,
) -> Result<Option<ObjectId>, Error> {
    let mut buffer = Vec::new(alloc);
    let mut id = commit;
    for _ in 0..generations {
        let commit = store.find_commit(alloc, id.as_oid(), &mut buffer)?;
        match commit.parents().next() {
            Some(parent) => id = parent,
            None => return Ok(None),
        }
    }
    Ok(Some(id))
}
