//! Graphs of commits in the format of the table, as `A@1<;B@2<A`: each commit with its seconds and its parents.

use gixobj_hash::hash::ObjectId;
use gixobj_tests_recorded::fields::split_at_first;
use std::alloc::{AllocError, Global};

/// A commit of a graph: its seconds, and the names of its parents with commas between them.
#[derive(Clone, Copy)]
pub(crate) struct Commit<'a> {
    pub(crate) seconds: u64,
    pub(crate) parents: &'a [u8],
}

/// Finds a commit of a graph by its name. A name that the graph lacks is that of a commit without parents.
pub(crate) fn commit_of<'a>(graph: &'a [u8], name: &[u8]) -> Commit<'a> {
    for part in graph.split(|byte| *byte == b';') {
        let (known, rest) = split_at_first(part, b'@');
        if known == name {
            let (digits, parents) = split_at_first(rest, b'<');
            return Commit {
                seconds: number_of(digits),
                parents,
            };
        }
    }
    Commit {
        seconds: 0,
        parents: b"",
    }
}

/// The number of these digits, or 0 for other bytes.
fn number_of(digits: &[u8]) -> u64 {
    let digits = str::from_utf8(digits).unwrap_or("");
    u64::from_str_radix(digits, 10).unwrap_or(0)
}

/// The id of a commit: its name of at most 20 bytes, and zero bytes.
pub(crate) fn id_of(name: &[u8]) -> ObjectId {
    let mut bytes = [0u8; 20];
    for (byte, given) in bytes.iter_mut().zip(name) {
        *byte = *given;
    }
    ObjectId::Sha1(bytes)
}

/// The name of the commit with this id.
pub(crate) fn name_of(id: &ObjectId) -> &[u8] {
    split_at_first(id.as_bytes(), 0).0
}

/// The ids of commits whose names have such a byte between them.
pub(crate) fn ids_of(
    alloc: Global,
    names: &[u8],
    between: u8,
) -> Result<Vec<ObjectId>, AllocError> {
    let mut ids = Vec::new(alloc);
    for name in names.split(|byte| *byte == between) {
        if !name.is_empty() {
            ids.push(id_of(name))?;
        }
    }
    Ok(ids)
}
