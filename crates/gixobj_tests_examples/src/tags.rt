//! Tags that are copied, decoded, and found in commits.
ghost use Rattle.gix_object.specs.CommitViews.{commit_lines};
ghost use Rattle.gix_object.specs.Hash.{IsIdHex};

use crate::object_samples::{TREE as TARGET, is_copy};
use bstr::BStr;
use gix_object::hash::Kind;
use gix_object::{CommitRef, TagRef};
use gixobj_examples_objects::auditor::merged_tags_of;
use gixobj_examples_objects::publisher::{checked_name, tag_copy_of, target_of};
use gixobj_examples_objects::verifier::read_both_ways;
use gixobj_tests_api::samples::id;
use std::alloc::Global;

/// A tag of the empty tree.
const TAG: &[u8] = b"object 4b825dc642cb6eb9a060e54bf8d69288fbee4904\ntype tree\ntag v1\n";

/// A commit that merges the tag.
const MERGE: &[u8] = b"tree 4b825dc642cb6eb9a060e54bf8d69288fbee4904\n\
    author A <a@b> 0 +0000\n\
    committer A <a@b> 0 +0000\n\
    mergetag object 4b825dc642cb6eb9a060e54bf8d69288fbee4904\n type tree\n tag v1\n\nhi\n";

/// Both readers decode the tag.
#[test]
fn copies_and_decodes_tag(rt: HostRuntime) {
    let (target, name) = (id(TARGET), BStr::new(b"v1"));
    assert!(rt; is_copy(&tag_copy_of(rt.alloc(), TAG, Kind::Sha1), TAG));
    assert!(rt; target_of(TAG, Kind::Sha1) == Some(target));
    let tag = TagRef::from_bytes(TAG, Kind::Sha1);
    assert!(rt; matches!(&tag, Ok(tag) if checked_name(tag) == Some(name)));
    let both = read_both_ways(TAG, Kind::Sha1);
    assert!(rt; matches!(&both, Some(it) if it.target == target && it.name == name));
    assert!(rt; read_both_ways(b"tag v1\n", Kind::Sha1).is_none());
}

/// Whether the commit merges one tag that decodes.
fn merges_a_tag(alloc: Global, commit: &CommitRef<'_>) -> bool
    requires { IsIdHex (commit_lines commit.now).tree }
{
    match merged_tags_of(alloc, commit) {
        Ok(tags) => matches!(tags.as_slice(), [Ok(_)]),
        Err(_) => false,
    }
}

/// Whether the merged tag is found in the commit.
fn is_merged(alloc: Global) -> bool {
    match CommitRef::from_bytes(alloc, MERGE, Kind::Sha1) {
        Ok(commit) => merges_a_tag(alloc, &commit),
        Err(_) => false,
    }
}

#[test]
fn finds_merged_tag(rt: HostRuntime) {
    assert!(rt; is_merged(rt.alloc()));
}
