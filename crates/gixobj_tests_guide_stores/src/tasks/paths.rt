//! Looks up a path in a stored tree.

use gix_object::find::existing_iter::Error;
use gix_object::hash::ObjectId;
use gix_object::tree::Entry;
use gix_object::{Find, FindExt};
use std::alloc::Global;

/// Looks up the entry at a path, such as `docs/a.txt`, in this tree. `None` if the tree has none.
pub fn entry_at<S: Find>(
    alloc: Global,
    store: &S,
    tree: ObjectId,
    path: &[u8],
) -> Result<Option<Entry>, Error> {
    let (mut bytes, mut buffer) = (Vec::new(alloc), Vec::new(alloc));
    let tree = store.find_tree_iter(tree.as_oid(), &mut bytes)?;
    Ok(tree.lookup_entry_by_path(alloc, store, &mut buffer, path)?)
}
