//! The commits of one tip that another lacks, and where the histories of two tips meet.

use gix_object::Find;
use gix_object::hash::ObjectId;
use gixobj_walks_graph::Order;
use gixobj_walks_store::{WalkError, list_commits, merge_bases};
use std::alloc::Global;

/// Lists what `git rev-list --date-order TIP ^OTHER` lists.
pub fn new_commits<S: Find>(
    alloc: Global,
    store: &S,
    tip: ObjectId,
    other: ObjectId,
) -> Result<Vec<ObjectId>, WalkError> {
    list_commits(alloc, store, &[tip], &[other], Order::Date)
}

/// Returns the newest of the commits that `git merge-base --all TIP OTHER` lists. `None` if it lists none.
pub fn meeting_commit<S: Find>(
    alloc: Global,
    store: &S,
    tip: ObjectId,
    other: ObjectId,
) -> Result<Option<ObjectId>, WalkError> {
    let bases = merge_bases(alloc, store, tip, other)?;
    Ok(bases.first().copied())
}
