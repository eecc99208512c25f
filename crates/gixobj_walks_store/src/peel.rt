//! The commits that ids name (gitrevisions, `<rev>^{}`).
ghost use Rattle.std.specs.Prelude.{◌≡◌, ◌++◌, [], ◌∷◌, IfErr, IfOk, OnOk};
ghost use Rattle.gixobj_walks_store.specs.Peeled.{ArePeeled, IsPeelToCommitsError, present};

use crate::error::WalkError;
use gixobj_hash::hash::ObjectId;
use gixobj_store::Find;
use gixobj_walks_commits::peel_to_commit;
use std::alloc::{AllocError, Global};

/// Returns the commits that ids name, themselves or through tags, in their order. An id that names a tree or a blob
/// adds none, as git-rev-list takes it. At most `max_tags` tags are followed from each id.
///
/// Allocates the list, and what the store allocates.
///
/// # Errors
///
/// - [`WalkError::Node`] with the error of [`peel_to_commit`] of one of the ids
/// - [`WalkError::OutOfMemory`] if the allocation of the list fails
pub fn peel_to_commits<S: Find>(
    alloc: Global,
    store: &S,
    ids: &[ObjectId],
    max_tags: u32,
) -> Result<Vec<ObjectId>, WalkError>
    ensures peeled { IfOk result (λ commits. ArePeeled (S.objects store.now) max_tags ids.now
        commits.items) }
    ensures error { IfErr result (IsPeelToCommitsError (S.objects store.now) (S.may_fail store.now)
        max_tags ids.now) }
{
    let mut buffer = Vec::new(alloc);
    let mut commits = Vec::new(alloc);
    for id in ids {
        let found = peel_to_commit(store, id.as_oid(), max_tags, &mut buffer)?;
        push_found(&mut commits, found)?;
    }
    Ok(commits)
}

/// Appends a commit if one was found.
fn push_found(commits: &mut Vec<ObjectId>, found: Option<ObjectId>) -> Result<(), AllocError>
    ensures { OnOk result (commits.new.items ≡ commits.old.items ++ present (found ∷ [])) }
{
    if let Some(commit) = found {
        commits.push(commit)?;
    }
    Ok(())
}
