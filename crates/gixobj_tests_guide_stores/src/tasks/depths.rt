//! A tree to every depth, by a work list.

use bstr::{BString, ByteVec};
use gix_object::hash::ObjectId;
use gix_object::tree::{EntryKind, EntryMode};
use gix_object::{Error, Find, FindExt, TreeRefIter};
use std::alloc::{AllocError, Global};

/// A path, and the mode and the id of the entry there.
type Found = (BString, EntryMode, ObjectId);

/// Lists the files below a tree with their paths. `None` if `max_trees` trees aren't enough.
pub fn files_below<S: Find>(
    alloc: Global,
    store: &S,
    root: ObjectId,
    max_trees: u32,
) -> Result<Option<Vec<Found>>, Error> {
    let (mut trees, mut files) = (Vec::new(alloc), Vec::new(alloc));
    trees.push((BString::new(Vec::new(alloc)), EntryKind::Tree.into(), root))?;
    let mut buffer = Vec::new(alloc);
    for _ in 0..max_trees {
        let Some((path, _, id)) = trees.pop() else {
            return Ok(Some(files));
        };
        let tree = store.find_tree_iter(id.as_oid(), &mut buffer)?;
        append(alloc, tree, &path, &mut trees, &mut files)?;
    }
    Ok(if trees.is_empty() { Some(files) } else { None })
}

/// Appends each entry of a tree to the list of trees or to that of files.
fn append(
    alloc: Global,
    tree: TreeRefIter<'_>,
    path: &BString,
    trees: &mut Vec<Found>,
    files: &mut Vec<Found>,
) -> Result<(), Error> {
    for entry in tree {
        let entry = entry?;
        let found = (
            joined(alloc, path, entry.filename.as_bytes())?,
            entry.mode,
            entry.oid.to_owned(),
        );
        if entry.mode.is_tree() {
            trees.push(found)?;
        } else {
            files.push(found)?;
        }
    }
    Ok(())
}

/// Joins a name to a path.
fn joined(alloc: Global, path: &BString, name: &[u8]) -> Result<BString, AllocError> {
    let mut joined = BString::from_slice(alloc, path.as_bytes())?;
    if !path.as_bytes().is_empty() {
        joined.push_byte(b'/')?;
    }
    joined.push_str(name)?;
    Ok(joined)
}
