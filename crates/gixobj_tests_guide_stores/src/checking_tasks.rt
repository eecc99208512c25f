//! Calls the example of docs/GUIDE.md once that checks objects. What it prints is what `git fsck` prints.

use crate::tasks::checks;
use gix_object::Kind;
use gix_object::hash::ObjectId;
use gixobj_examples_checked::ReceivedObjects;
use gixobj_tests_api::samples::id;
use std::alloc::Global;

/// A tree with the name of a repository, and a mode that begins with a zero.
const TREE_BYTES: &[u8] = b"40000 .git\0dddddddddddddddddddd0100644 a\0aaaaaaaaaaaaaaaaaaaa";

/// Its id.
const TREE: &[u8] = b"47fe02e73949b388622f9fd9cc3500681488155f";

/// What is printed of the tree.
const LINES: &[u8] =
    b"error in tree 47fe02e73949b388622f9fd9cc3500681488155f: hasDotgit, at byte 0\n\
    warning in tree 47fe02e73949b388622f9fd9cc3500681488155f: zeroPaddedFilemode, at byte 31\n";

/// Whether these lines are printed of the tree.
fn is_printed(alloc: Global, tree: ObjectId) -> bool {
    let mut out = Vec::new(alloc);
    match checks::options_for_old_trees() {
        Ok(options) => {
            checks::print_findings(alloc, &options, Kind::Tree, tree, TREE_BYTES, &mut out).is_ok()
                && out.as_slice() == LINES
        }
        Err(_) => false,
    }
}

/// Whether a store takes the empty tree, and rejects the other one.
fn is_taken(alloc: Global) -> bool {
    let mut store = ReceivedObjects::new(alloc);
    let first = checks::take_object(&mut store, Kind::Tree, b"").ok();
    let second = checks::take_object(&mut store, Kind::Tree, TREE_BYTES).ok();
    first == Some(Some(ObjectId::empty_tree(gix_object::hash::Kind::Sha1))) && second == Some(None)
}

#[test]
fn prints_findings_and_takes_objects(rt: HostRuntime) {
    let alloc = rt.alloc();
    assert!(rt; is_printed(alloc, id(TREE)));
    assert!(rt; is_taken(alloc));
}
