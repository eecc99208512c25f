//! A walk over history that ends.

use gix_object::commit::ref_iter::ParentIds;
use gix_object::hash::ObjectId;
use gix_object::{Error, Find, FindExt};
use std::alloc::{AllocError, Global};
use std::collections::BTreeSet;

/// Lists a commit and its ancestors, each once. `None` if they are more than `max_commits`.
pub fn history<S: Find>(
    alloc: Global,
    store: &S,
    tip: ObjectId,
    max_commits: u32,
) -> Result<Option<Vec<ObjectId>>, Error> {
    let (mut work, mut found) = (Vec::new(alloc), Vec::new(alloc));
    let mut known = BTreeSet::new(alloc);
    work.push(tip)?;
    known.insert(tip)?;
    let mut buffer = Vec::new(alloc);
    for _ in 0..max_commits {
        let Some(id) = work.pop() else {
            return Ok(Some(found));
        };
        found.push(id)?;
        let tokens = store.find_commit_iter(alloc, id.as_oid(), &mut buffer)?;
        add_unknown(tokens.parent_ids(), &mut work, &mut known)?;
    }
    Ok(if work.is_empty() { Some(found) } else { None })
}

/// Appends the parents that aren't known yet.
fn add_unknown(
    parents: ParentIds<'_>,
    work: &mut Vec<ObjectId>,
    known: &mut BTreeSet<ObjectId>,
) -> Result<(), AllocError> {
    for parent in parents {
        if known.insert(parent)? {
            work.push(parent)?;
        }
    }
    Ok(())
}
