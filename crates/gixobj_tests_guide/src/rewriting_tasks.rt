//! Calls the examples of docs/GUIDE.md that rewrite messages, commits and tags.

use crate::tasks::{renaming, unsigning};
use gix_object::{Commit, Tag, WriteTo};
use gixobj_tests_api::objects::TAG_BYTES;
use std::alloc::Global;

/// Whether a message with `Acked-by` renamed to `Reviewed-by` is this one.
fn is_renamed(alloc: Global, message: &[u8], wanted: &[u8]) -> bool {
    match renaming::renamed(alloc, message, b"acked-by", b"Reviewed-by") {
        Ok(renamed) => renamed.as_slice() == wanted,
        Err(_) => false,
    }
}

#[test]
fn renames_trailers(rt: HostRuntime) {
    let alloc = rt.alloc();
    assert!(rt;
        is_renamed(
            alloc,
            b"Title\n\nText\n\nAcked-by: A\nCc: B,\n C\n",
            b"Title\n\nText\n\nReviewed-by: A\nCc: B, C\n"
        )
    );
    assert!(rt;
        is_renamed(
            alloc,
            b"Title\n\nAcked-by: A\n",
            b"Title\n\nReviewed-by: A\n"
        )
    );
    assert!(rt;
        is_renamed(
            alloc,
            b"Title\n\nAcked-by: A\ntext\n",
            b"Title\n\nAcked-by: A\ntext\n"
        )
    );
    assert!(rt; is_renamed(alloc, b"Acked-by: A\n", b"Acked-by: A\n"));
}

/// Whether a tag has this encoding.
fn is_encoded_tag(alloc: Global, tag: &Tag, wanted: &[u8]) -> bool {
    let mut bytes = Vec::new(alloc);
    tag.write_to_vec(alloc, &mut bytes).is_ok() && bytes.as_slice() == wanted
}

/// Whether a commit has this encoding.
fn is_encoded_commit(alloc: Global, commit: &Commit, wanted: &[u8]) -> bool {
    let mut bytes = Vec::new(alloc);
    commit.write_to_vec(alloc, &mut bytes).is_ok() && bytes.as_slice() == wanted
}

/// Whether the tag without its signature has this encoding.
fn is_unsigned_tag(alloc: Global, bytes: &[u8], wanted: &[u8]) -> bool {
    match unsigning::unsigned_tag(alloc, bytes) {
        Ok(tag) => is_encoded_tag(alloc, &tag, wanted),
        Err(_) => false,
    }
}

/// Whether the commit without its signatures has this encoding.
fn is_unsigned_commit(alloc: Global, bytes: &[u8], wanted: &[u8]) -> bool {
    match unsigning::unsigned_commit(alloc, bytes) {
        Ok(commit) => is_encoded_commit(alloc, &commit, wanted),
        Err(_) => false,
    }
}

/// The tag with a signature: the encoding of the tag, then the signature.
const SIGNED_TAG_BYTES: &[u8] =
    b"object cfe258e596ae478f05508755d7b1559681b5833a\ntype commit\ntag v1\ntagger A <a@b> 0 +0000\n\nhi\n\
    -----BEGIN PGP SIGNATURE-----\nA\n-----END PGP SIGNATURE-----\n";

/// A commit with two signatures and another header.
const SIGNED_COMMIT_BYTES: &[u8] = b"tree 4b825dc642cb6eb9a060e54bf8d69288fbee4904\n\
    author A <a@b> 0 +0000\n\
    committer A <a@b> 0 +0000\n\
    gpgsig -----BEGIN PGP SIGNATURE-----\n A\n -----END PGP SIGNATURE-----\n\
    x y\n\
    gpgsig-sha256 -----BEGIN PGP SIGNATURE-----\n A\n -----END PGP SIGNATURE-----\n\
    \nfirst\n";

/// The same commit without its signatures.
const UNSIGNED_COMMIT_BYTES: &[u8] = b"tree 4b825dc642cb6eb9a060e54bf8d69288fbee4904\n\
    author A <a@b> 0 +0000\n\
    committer A <a@b> 0 +0000\n\
    x y\n\
    \nfirst\n";

#[test]
fn drops_signatures(rt: HostRuntime) {
    let alloc = rt.alloc();
    assert!(rt; is_unsigned_tag(alloc, SIGNED_TAG_BYTES, TAG_BYTES));
    assert!(rt; is_unsigned_tag(alloc, TAG_BYTES, TAG_BYTES));
    assert!(rt; is_unsigned_commit(alloc, SIGNED_COMMIT_BYTES, UNSIGNED_COMMIT_BYTES));
}
