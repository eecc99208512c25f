//! Objects that git takes or rejects, as `git index-pack --strict` does.

use gixobj_examples_checked::{ReceiveError, ReceivedObjects, receive_all};
use gixobj_fsck_messages::{Message, Options};
use gixobj_fsck_objects::{fsck, is_object_accepted};
use gixobj_hash::Kind;
use gixobj_hash::hash::Kind as HashKind;
use gixobj_store::Data;
use std::alloc::Global;

const TREE: &[u8] =
    b"100644 a\0\x11\x11\x11\x11\x11\x11\x11\x11\x11\x11\x11\x11\x11\x11\x11\x11\x11\x11\x11\x11";

const DOT_GIT: &[u8] =
    b"40000 .git\0\x11\x11\x11\x11\x11\x11\x11\x11\x11\x11\x11\x11\x11\x11\x11\x11\x11\x11\x11\x11";

const COMMIT: &[u8] =
    b"tree 4b825dc642cb6eb9a060e54bf8d69288fbee4904\nauthor A <a@b> 1 +0000\ncommitter A <a@b> 1 +0000\n\nhi\n";

const TAG: &[u8] =
    b"object 4b825dc642cb6eb9a060e54bf8d69288fbee4904\ntype tree\ntag v\ntagger A <a@b> 1 +0000\n\nhi\n";

/// One byte too short for git's parser.
const SHORT_TAG: &[u8] = b"object 4b825dc642cb6eb9a060e54bf8d69288fbee4904\ntype tag\ntag v\n";

/// Returns whether an object is rejected.
fn is_rejected(alloc: Global, kind: Kind, content: &[u8]) -> bool {
    let mut store = ReceivedObjects::new(alloc);
    let received = store.receive(kind, HashKind::Sha1, content);
    matches!(received, Err(ReceiveError::Rejected)) && store.objects().is_empty()
}

#[test]
fn takes_what_git_takes(rt: HostRuntime) {
    let alloc = rt.alloc();
    let objects = [
        Data::new(b"hi\n", Kind::Blob, HashKind::Sha1),
        Data::new(TREE, Kind::Tree, HashKind::Sha1),
        Data::new(COMMIT, Kind::Commit, HashKind::Sha1),
        Data::new(TAG, Kind::Tag, HashKind::Sha1),
    ];
    assert!(rt; matches!(&receive_all(alloc, &objects), Ok(store) if store.objects().len() == 4));
    assert!(rt; is_rejected(alloc, Kind::Tree, DOT_GIT));
    assert!(rt; is_rejected(alloc, Kind::Commit, b"tree x\n"));
    assert!(rt; is_rejected(alloc, Kind::Tag, SHORT_TAG));
}

/// `git fsck` warns of `.git`, and `git fsck --strict` reports an error.
#[test]
fn lists_findings(rt: HostRuntime) {
    let alloc = rt.alloc();
    let options = Options::new(false);
    let found = fsck(alloc, Kind::Tree, HashKind::Sha1, DOT_GIT, &options);
    assert!(rt; matches!(&found, Ok(it) if it.len() == 1 && it[0].message == Message::HasDotgit));
    let lax = is_object_accepted(alloc, Kind::Tree, HashKind::Sha1, DOT_GIT, false);
    assert!(rt; matches!(lax, Ok(true)));
    let strict = is_object_accepted(alloc, Kind::Tree, HashKind::Sha1, DOT_GIT, true);
    assert!(rt; matches!(strict, Ok(false)));
    assert!(rt;
        matches!(&fsck(alloc, Kind::Tag, HashKind::Sha1, TAG, &options), Ok(it) if it.is_empty())
    );
    assert!(rt;
        matches!(&fsck(alloc, Kind::Commit, HashKind::Sha1, COMMIT, &options), Ok(it) if it.is_empty())
    );
    assert!(rt;
        matches!(&fsck(alloc, Kind::Blob, HashKind::Sha1, b"", &options), Ok(it) if it.is_empty())
    );
}
