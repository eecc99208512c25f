//! Opens an editor on a stored tree.

use gix_object::hash::ObjectId;
use gix_object::tree::editor::{Editor, Error};
use gix_object::{Find, FindExt};
use std::alloc::Global;

/// Looks up a tree in `store` and opens an editor on it. Fails if it isn't found or isn't well-formed.
pub fn editor_of<S: Find>(alloc: Global, store: &S, id: ObjectId) -> Result<Editor<&S>, Error> {
    let mut buffer = Vec::new(alloc);
    let root = match store.find_tree(alloc, id.as_oid(), &mut buffer) {
        Ok(tree) => tree.into_owned(alloc),
        Err(error) => return Err(Error::FindExistingObject(error)),
    };
    match root {
        Ok(root) if root.is_well_formed() => Ok(Editor::new(root, store, id.kind())),
        Ok(_) => Err(Error::MalformedTree),
        Err(_) => Err(Error::OutOfMemory),
    }
}
