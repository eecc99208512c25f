//! Written commits: many lines, ids of both kinds, failing writers, and the call of the law that encodes.

use super::{PLAIN, SIGNED, owned_form};
use crate::helpers::{holds, is_written, stops};
use gixobj_base::hash::{Kind, ObjectId};
use gixobj_codec::laws::commit_decode_encode_agree;
use gixobj_codec::{CommitRef, CommitRefIter};
use std::alloc::{AllocError, Global};

/// Returns a commit with a thousand parents, and a thousand headers of two lines.
fn long_commit(alloc: Global) -> Result<String, AllocError> {
    let parents = "parent 4b825dc642cb6eb9a060e54bf8d69288fbee4904\n".repeat(alloc, 1000)?;
    let headers = "x A\n B\n".repeat(alloc, 1000)?;
    let tree = "tree 4b825dc642cb6eb9a060e54bf8d69288fbee4904\n";
    let actors = "author A <a@b> 0 +0000\ncommitter A <a@b> 0 +0000\n";
    format!(in alloc; "{tree}{parents}{actors}{headers}\nhi\n")
}

/// Returns whether both forms of a commit are encoded as its input.
fn both_forms_reencode(alloc: Global, bytes: &[u8]) -> bool {
    holds!(CommitRef::from_bytes(alloc, bytes, Kind::Sha1), Ok(commit) => is_written(alloc, &commit, bytes))
        && holds!(owned_form(alloc, bytes), Ok(commit) => is_written(alloc, &commit, bytes))
}

#[test]
fn reencodes_thousand_parents_and_headers(rt: HostRuntime) {
    let commit = long_commit(rt.alloc());
    let bytes = match &commit {
        Ok(commit) => commit.as_bytes(),
        Err(_) => b"",
    };
    assert!(rt; bytes.len() == 55_099);
    assert!(rt; both_forms_reencode(rt.alloc(), bytes));
    assert!(rt; CommitRefIter::from_bytes(rt.alloc(), bytes, Kind::Sha1).count() == 2004);
    let decoded = CommitRef::from_bytes(rt.alloc(), bytes, Kind::Sha1);
    assert!(rt; holds!(decoded, Ok(it) => it.parents().count() == 1000));
}

/// The plain commit with a parent of each kind of ids, both null.
const WITH_PARENTS: &[u8] = b"tree 4b825dc642cb6eb9a060e54bf8d69288fbee4904\n\
    parent 0000000000000000000000000000000000000000000000000000000000000000\n\
    parent 0000000000000000000000000000000000000000\n\
    author A <a@b> 0 +0000\ncommitter A <a@b> 0 +0000\n\nhi\n";

/// Returns whether the plain commit with a parent of each kind of ids has this encoding.
fn is_written_with_parents(alloc: Global, wanted: &[u8]) -> bool {
    let Ok(mut commit) = owned_form(alloc, PLAIN) else {
        return false;
    };
    commit.parents.push(ObjectId::null(Kind::Sha256)).is_ok()
        && commit.parents.push(ObjectId::null(Kind::Sha1)).is_ok()
        && is_written(alloc, &commit, wanted)
}

/// Each id is counted with its own length.
#[test]
fn counts_ids_of_both_kinds(rt: HostRuntime) {
    assert!(rt; is_written_with_parents(rt.alloc(), WITH_PARENTS));
}

/// A commit with an encoding and with headers.
const WITH_HEADERS: &[u8] = b"tree 4b825dc642cb6eb9a060e54bf8d69288fbee4904\n\
    author A <a@b> 0 +0000\ncommitter A <a@b> 0 +0000\n\
    encoding UTF-8\nx A\n B\ny \n\nhi\n";

/// Returns whether both forms of a commit are encoded as its input, and each writer with less room fails.
fn both_forms_stop(alloc: Global, bytes: &[u8]) -> bool {
    holds!(CommitRef::from_bytes(alloc, bytes, Kind::Sha1), Ok(commit) => stops(alloc, &commit, bytes))
        && holds!(owned_form(alloc, bytes), Ok(commit) => stops(alloc, &commit, bytes))
}

/// Writing fails for the plain commit, and for the one with headers.
#[test]
fn returns_writer_error_after_each_prefix(rt: HostRuntime) {
    assert!(rt; both_forms_stop(rt.alloc(), PLAIN));
    assert!(rt; both_forms_stop(rt.alloc(), WITH_HEADERS));
}

/// Returns whether a decoded commit is encoded identically, by the call of the law.
fn is_reencoded(alloc: Global, bytes: &[u8]) -> bool {
    let Ok(commit) = CommitRef::from_bytes(alloc, bytes, Kind::Sha1) else {
        return false;
    };
    let mut written = Vec::new(alloc);
    commit_decode_encode_agree(alloc, &commit, &mut written).is_ok() && written.as_slice() == bytes
}

#[test]
fn reencodes_identically(rt: HostRuntime) {
    assert!(rt; is_reencoded(rt.alloc(), SIGNED));
}
