//! Objects whose content is not decoded yet: tokens of commits and tags, entries of trees, order and hash.

use crate::commit::PLAIN;
use crate::helpers::hash_of;
use crate::tags::{BARE, BARE_SHA256};
use crate::trees::ENTRY;
use gixobj_base::Kind::{self, Blob, Commit, Tag, Tree};
use gixobj_base::hash;
use gixobj_base::hash::Kind::{Sha1, Sha256};
use gixobj_codec::commit::ref_iter::Token as CommitToken;
use gixobj_codec::tag::ref_iter::Token as TagToken;
use gixobj_codec::{Data, DataExt};
use std::alloc::Global;

/// Returns whether the reader of objects of this kind yields the object's first item. That of a commit is its
/// tree, that of a tag its target, and that of a tree an entry. `None` if there is no such reader.
fn yields_first(alloc: Global, reader: Kind, data: Data<'_>) -> Option<bool> {
    match reader {
        Commit => {
            let mut tokens = data.try_into_commit_iter(alloc)?;
            Some(matches!(&tokens.next(), Some(Ok(CommitToken::Tree { .. }))))
        }
        Tag => {
            let mut tokens = data.try_into_tag_iter()?;
            Some(matches!(&tokens.next(), Some(Ok(TagToken::Target { .. }))))
        }
        Tree => {
            let mut entries = data.try_into_tree_iter()?;
            Some(matches!(&entries.next(), Some(Ok(_))))
        }
        Blob => None,
    }
}

/// The entry with twelve more bytes, as many as a SHA-256 id has more.
const LONGER_ENTRY: &[u8] = b"100644 a\0\
    \x01\x01\x01\x01\x01\x01\x01\x01\x01\x01\x01\x01\x01\x01\x01\x01\x01\x01\x01\x01\
    \x02\x02\x02\x02\x02\x02\x02\x02\x02\x02\x02\x02";

/// Kinds of readers, objects, their kinds, the kinds of their ids, and whether the first item is yielded.
const ROWS: &[(Kind, &[u8], Kind, hash::Kind, Option<bool>)] = &[
    (Commit, PLAIN, Commit, Sha1, Some(true)),
    (Commit, PLAIN, Commit, Sha256, Some(false)),
    (Commit, PLAIN, Tree, Sha1, None),
    (Commit, PLAIN, Blob, Sha1, None),
    (Commit, PLAIN, Tag, Sha1, None),
    (Tag, BARE, Tag, Sha1, Some(true)),
    (Tag, BARE, Tree, Sha1, None),
    (Tag, BARE, Blob, Sha1, None),
    (Tag, BARE, Commit, Sha1, None),
    (Tag, BARE_SHA256, Tag, Sha256, Some(true)),
    (Tag, BARE_SHA256, Tag, Sha1, Some(false)),
    (Tree, ENTRY, Tree, Sha1, Some(true)),
    (Tree, ENTRY, Blob, Sha1, None),
    (Tree, ENTRY, Commit, Sha1, None),
    (Tree, ENTRY, Tag, Sha1, None),
    (Tree, ENTRY, Tree, Sha256, Some(false)),
    (Tree, LONGER_ENTRY, Tree, Sha256, Some(true)),
];

/// The reader has the kind of ids that the object has.
#[test]
fn yields_items_of_own_kinds_only(rt: HostRuntime) {
    for &(reader, bytes, kind, hash_kind, wanted) in ROWS {
        let data = Data::new(bytes, kind, hash_kind);
        assert!(rt;
            yields_first(rt.alloc(), reader, data) == wanted,
            "{reader} {kind} {hash_kind:?}"
        );
    }
}

/// Data that are greater than `a` of a tree with SHA-1 ids.
const OTHERS: &[(&[u8], Kind, hash::Kind)] = &[
    (b"a", Blob, Sha1),
    (b"a", Tree, Sha256),
    (b"ab", Tree, Sha1),
];

#[test]
fn data_compare_and_hash_by_all_fields(rt: HostRuntime) {
    let data = Data::new(b"a", Tree, Sha1);
    let same = Data::new(b"a", Tree, Sha1);
    assert!(rt; data == same && hash_of(&data) == hash_of(&same));
    for &(bytes, kind, hash_kind) in OTHERS {
        let other = Data::new(bytes, kind, hash_kind);
        assert!(rt; data < other && hash_of(&data) != hash_of(&other));
    }
}
