//! Sign-offs of a commit, its last trailer, and the parts of a body.

use bstr::ByteSlice;
use gix_object::commit::message::BodyRef;
use gix_object::commit::message::body::TrailerRef;
use gix_object::hash::Kind;
use gix_object::{CommitRef, decode};
use gixobj_examples_objects::signers::{last_trailer_of, parts_of, signers_of};
use std::alloc::Global;

/// A commit with two sign-offs, one of them folded over two lines.
const SIGNED: &[u8] = b"tree 4b825dc642cb6eb9a060e54bf8d69288fbee4904\n\
    author A <a@b> 0 +0000\n\
    committer A <a@b> 0 +0000\n\
    \n\
    hi\n\
    \n\
    Signed-off-by: A\n\
    Acked-by: B\n\
    SIGNED-OFF-BY: C\n\x20D\n";

/// Whether these are the values of the sign-offs.
fn are_values(signers: &[TrailerRef<'_>], first: &[u8], second: &[u8]) -> bool {
    match signers {
        [one, two] => one.value.as_slice() == first && two.value.as_slice() == second,
        _ => false,
    }
}

#[test]
fn finds_sign_offs_and_rejects_malformed_commit(rt: HostRuntime) {
    let alloc = rt.alloc();
    let signers = signers_of(alloc, SIGNED, Kind::Sha1);
    assert!(rt; matches!(&signers, Ok(signers) if are_values(signers, b"A", b"C D")));
    let malformed = signers_of(alloc, b"tree 4b", Kind::Sha1);
    assert!(rt; matches!(&malformed, Err(decode::Error::Malformed)));
}

/// Whether the trailer has this token and this value.
fn is_trailer(trailer: &TrailerRef<'_>, token: &[u8], value: &[u8]) -> bool {
    trailer.token.as_bytes() == token && trailer.value.as_slice() == value
}

/// Whether the last trailer of the encoded commit has this token and this value.
fn ends_with_trailer(alloc: Global, bytes: &[u8], token: &[u8], value: &[u8]) -> bool {
    match CommitRef::from_bytes(alloc, bytes, Kind::Sha1) {
        Ok(commit) => {
            matches!(&last_trailer_of(alloc, &commit), Ok(Some(it)) if is_trailer(it, token, value))
        }
        Err(_) => false,
    }
}

/// A commit with two trailers of one line each.
const ONE_LINE: &[u8] = b"tree 4b825dc642cb6eb9a060e54bf8d69288fbee4904\n\
    author A <a@b> 0 +0000\n\
    committer A <a@b> 0 +0000\n\
    \n\
    hi\n\
    \n\
    Signed-off-by: A\n\
    Acked-by: B\n";

#[test]
fn finds_last_trailer(rt: HostRuntime) {
    let alloc = rt.alloc();
    assert!(rt; ends_with_trailer(alloc, ONE_LINE, b"Acked-by", b"B"));
    assert!(rt; ends_with_trailer(alloc, SIGNED, b"SIGNED-OFF-BY", b"C D"));
}

#[test]
fn splits_body_into_parts(rt: HostRuntime) {
    let body = BodyRef::from_bytes(b"m\n\nSigned-off-by: 1\nn\nB: 2\n");
    assert!(rt; matches!(&parts_of(rt.alloc(), &body), Ok(parts) if parts.len() == 2));
}
