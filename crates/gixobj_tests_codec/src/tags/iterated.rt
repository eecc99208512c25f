//! The target and the tagger that a reader finds, from its start or after tokens that it yielded.

use crate::tags::BARE;
use bstr::BStr;
use gixobj_base::actor::SignatureRef;
use gixobj_base::decode::Error;
use gixobj_base::hash::{Kind, ObjectId};
use gixobj_codec::TagRefIter;

/// A tag with a tagger, a message and a signature.
const SIGNED: &[u8] = b"object 4b825dc642cb6eb9a060e54bf8d69288fbee4904\n\
    type tree\ntag v1\ntagger  A\t <a@b>  7 +0100\n\
    \nhi\n-----BEGIN SSH SIGNATURE-----\n";

/// Returns a reader after its first `count` tokens.
fn reader_after(bytes: &[u8], count: usize) -> TagRefIter<'_> {
    let mut tokens = TagRefIter::from_bytes(bytes, Kind::Sha1);
    for _ in 0..count {
        let _ = tokens.next();
    }
    tokens
}

/// Returns whether a reader finds the target, the empty tree, if `wanted`, and otherwise no target.
fn finds_target(tokens: TagRefIter<'_>, wanted: bool) -> bool {
    match &tokens.target_id() {
        Ok(id) => wanted && *id == ObjectId::empty_tree(Kind::Sha1),
        Err(Error::Malformed) => !wanted,
        Err(_) => false,
    }
}

/// Returns whether a reader finds the tagger of `SIGNED`, with its white space, if `wanted`, and otherwise no
/// tagger.
fn finds_tagger(tokens: TagRefIter<'_>, wanted: bool) -> bool {
    let tagger = SignatureRef {
        name: BStr::new(b" A\t"),
        email: BStr::new(b"a@b"),
        time: BStr::new(b" 7 +0100"),
    };
    match &tokens.tagger() {
        Ok(found) => wanted && *found == Some(tagger),
        Err(Error::Malformed) => !wanted,
        Err(_) => false,
    }
}

/// Returns whether a reader's next token has the target's id if `wanted`, and otherwise no id.
fn yields_id(mut tokens: TagRefIter<'_>, wanted: bool) -> bool {
    let target = if wanted {
        Some(ObjectId::empty_tree(Kind::Sha1))
    } else {
        None
    };
    match tokens.next() {
        Some(Ok(token)) => {
            token.id().map(|id| id.to_owned()) == target && token.into_id() == target
        }
        _ => !wanted,
    }
}

/// Tags, how many tokens are read first, whether the target and the tagger are then found, and how many
/// tokens remain.
const ROWS: &[(&[u8], usize, bool, bool, usize)] = &[
    (SIGNED, 0, true, true, 5),
    (SIGNED, 1, false, true, 4),
    (SIGNED, 2, false, true, 3),
    (SIGNED, 3, false, true, 2),
    (SIGNED, 4, false, false, 1),
    (SIGNED, 5, false, false, 0),
    (BARE, 0, true, false, 3),
    (BARE, 1, false, false, 2),
    (BARE, 3, false, false, 0),
    (b"object", 0, false, false, 1),
];

/// The target is the next token, and the tagger one of the remaining tokens. Finding them leaves the reader
/// unchanged.
#[test]
fn finds_target_and_tagger_in_remaining_tokens(rt: HostRuntime) {
    for &(bytes, count, target, tagger, remaining) in ROWS {
        let tokens = reader_after(bytes, count);
        assert!(rt; finds_target(tokens, target), "{count} of {bytes:?}");
        assert!(rt; finds_tagger(tokens, tagger), "{count} of {bytes:?}");
        assert!(rt; yields_id(tokens, target), "{count} of {bytes:?}");
        assert!(rt; tokens.count() == remaining, "{count} of {bytes:?}");
    }
}
