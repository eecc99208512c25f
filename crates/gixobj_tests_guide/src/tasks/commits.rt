//! Decodes a commit.

use bstr::BStr;
use gix_object::hash::{Kind as HashKind, ObjectId};
use gix_object::{CommitRef, decode};
use std::alloc::Global;

/// The parts of a commit that a log prints.
#[derive(Drop)]
pub struct LogLine<'a> {
    pub tree: ObjectId,
    pub parents: Vec<ObjectId>,
    pub author: BStr<'a>,
    /// The author's date in seconds since the Unix epoch. `None` if it is malformed.
    pub authored: Option<i64>,
    /// The committer's date.
    pub committed: i64,
    pub title: BStr<'a>,
}

/// Decodes a commit. Fails with `Malformed` if it isn't one, or if a line of an actor isn't that of one.
pub fn log_line(alloc: Global, bytes: &[u8]) -> Result<LogLine<'_>, decode::Error> {
    let commit = CommitRef::from_bytes(alloc, bytes, HashKind::Sha1)?;
    Ok(LogLine {
        tree: commit.tree(),
        parents: commit.parents().collect(alloc)?,
        author: commit.author()?.name,
        authored: commit.author()?.time().map(|time| time.seconds),
        committed: commit.time()?.seconds,
        title: commit.message().title,
    })
}
