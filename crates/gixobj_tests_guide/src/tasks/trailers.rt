//! The sign-offs of a commit.

use gix_object::commit::message::body::TrailerRef;
use gix_object::{CommitRef, OutOfMemory};
use std::alloc::Global;

/// Lists the `Signed-off-by` trailers of a commit in order.
pub fn sign_offs<'a>(
    alloc: Global,
    commit: &CommitRef<'a>,
) -> Result<Vec<TrailerRef<'a>>, OutOfMemory> {
    let mut found = Vec::new(alloc);
    for trailer in commit.signed_off_by_trailers(alloc) {
        found.push(trailer?)?;
    }
    Ok(found)
}
