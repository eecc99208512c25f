//! The titles of a log, over the output of `git cat-file --batch`.

use anyhow::{Result, ensure};
use bstr::BString;
use gix_object::Memory;
use gix_object::hash::ObjectId;
use gixobj_listings::history::{CommitLog, LogEnd, log};
use gixobj_records::{Record, decode_records};
use std::alloc::Global;

/// Lists the titles of a commit and its first parents, from the output of `git cat-file --batch`.
/// Fails if the objects don't lead to a root commit.
pub fn titles(alloc: Global, input: &[u8], tip: ObjectId) -> Result<Vec<BString>> {
    let store = store_of(alloc, input)?;
    let CommitLog { commits, end } = log(alloc, &store, tip, u32::MAX)?;
    ensure!(
        matches!(end, LogEnd::Root),
        "the log ends before a root commit"
    );
    let mut titles = Vec::new(alloc);
    for commit in commits {
        titles.push(commit.title)?;
    }
    Ok(titles)
}

/// Makes a store of the objects of these records.
fn store_of(alloc: Global, input: &[u8]) -> Result<Memory> {
    let mut store = Memory::new(alloc);
    for record in decode_records(alloc, input)? {
        if let Record::Object { id, kind, content } = record {
            store.insert_known(id, kind, content)?;
        }
    }
    Ok(store)
}
