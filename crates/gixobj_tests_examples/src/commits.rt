//! Commits that are decoded in part, copied, and searched for headers.
ghost use Rattle.gix_object.specs.CommitViews.{commit_lines};
ghost use Rattle.gix_object.specs.CommitWriting.{HasIds};
ghost use Rattle.gix_object.specs.Hash.{IsIdHex};

use crate::object_samples::{TREE, TRUNCATED, is_copy};
use bstr::BStr;
use gix_object::CommitRef;
use gix_object::hash::Kind;
use gixobj_examples_objects::auditor::{position_of, value_of, values_of};
use gixobj_examples_objects::store::{CopyError, copy_of, owned_copy_of};
use gixobj_examples_objects::walker::{ends_after_errors, message_of, parents_of, tree_of};
use gixobj_tests_api::samples::id;
use std::alloc::Global;

const FIRST: &[u8] = b"ce013625030ba8dba906f756967f9e9ca394464a";

const SECOND: &[u8] = b"e69de29bb2d1d6434b8b29ae775ad8c2e48c5391";

/// A commit with two parents and a signature.
const MERGE: &[u8] = b"tree 4b825dc642cb6eb9a060e54bf8d69288fbee4904\n\
    parent ce013625030ba8dba906f756967f9e9ca394464a\n\
    parent e69de29bb2d1d6434b8b29ae775ad8c2e48c5391\n\
    author A <a@b> 0 +0000\n\
    committer A <a@b> 0 +0000\n\
    x 1\n\
    gpgsig A\n B\n\nhi\n";

#[test]
fn finds_tree_parents_and_message(rt: HostRuntime) {
    let alloc = rt.alloc();
    let parents = [id(FIRST), id(SECOND)];
    let found = parents_of(alloc, MERGE, Kind::Sha1);
    assert!(rt; tree_of(alloc, MERGE, Kind::Sha1).ok() == Some(id(TREE)));
    assert!(rt; matches!(&found, Ok(found) if found.as_slice() == parents.as_slice()));
    assert!(rt; message_of(alloc, MERGE, Kind::Sha1).ok() == Some(BStr::new(b"hi\n")));
    assert!(rt; ends_after_errors(alloc, TRUNCATED, Kind::Sha1));
    assert!(rt; tree_of(alloc, TRUNCATED, Kind::Sha1).is_err());
}

/// A commit is copied, also through its owned form.
#[test]
fn copies_commit_and_rejects_truncated_one(rt: HostRuntime) {
    let alloc = rt.alloc();
    assert!(rt; is_copy(&copy_of(alloc, MERGE, Kind::Sha1), MERGE));
    assert!(rt; is_copy(&owned_copy_of(alloc, MERGE, Kind::Sha1), MERGE));
    assert!(rt;
        matches!(
            &copy_of(alloc, TRUNCATED, Kind::Sha1),
            Err(CopyError::Read(_))
        )
    );
}

/// Whether the commit has its signature, one header `x`, and no header `y`.
fn has_headers(alloc: Global, commit: &CommitRef<'_>) -> bool
    requires { IsIdHex (commit_lines commit.now).tree }
{
    let has_one = matches!(&values_of(alloc, commit, "x"), Ok(values) if values.len() == 1);
    has_one
        && value_of(commit, "gpgsig") == Some(BStr::new(b"A\nB\n"))
        && value_of(commit, "x") == Some(BStr::new(b"1"))
        && value_of(commit, "y").is_none()
}

/// Whether the signature is the second header of the owned commit.
fn is_signed_second(alloc: Global, commit: CommitRef<'_>) -> bool
    requires { HasIds (commit_lines commit) }
{
    match commit.into_owned(alloc) {
        Ok(owned) => position_of(&owned, "gpgsig") == Some(1),
        Err(_) => false,
    }
}

/// Whether the borrowed and the owned commit have their headers.
fn is_audited(alloc: Global) -> bool {
    match CommitRef::from_bytes(alloc, MERGE, Kind::Sha1) {
        Ok(commit) => has_headers(alloc, &commit) && is_signed_second(alloc, commit),
        Err(_) => false,
    }
}

#[test]
fn finds_headers_and_signature(rt: HostRuntime) {
    assert!(rt; is_audited(rt.alloc()));
}
