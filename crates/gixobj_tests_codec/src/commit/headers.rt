//! Headers of commits by their names, and an encoding with spaces at its ends.

use crate::helpers::holds;
use bstr::BStr;
use gixobj_base::hash::Kind::{Sha1, Sha256};
use gixobj_codec::CommitRefIter;
use gixobj_codec::commit::ref_iter::Token;
use gixobj_codec::commit::{
    ExtraHeaders, SIGNATURE_FIELD_NAME, SIGNATURE_FIELD_NAME_SHA256, signature_field_name,
};

/// The names of the signature headers (gitformat-signature, "Commit signatures"). They are searched in any
/// iterator of names and values.
#[test]
fn signature_header_is_named_by_hash_kind(rt: HostRuntime) {
    let pairs = [
        (BStr::new(b"x"), BStr::new(b"1")),
        (BStr::new(b"gpgsig"), BStr::new(b"2")),
    ];
    let signature = ExtraHeaders::new(pairs.into_iter(), Sha1).pgp_signature();
    assert!(rt; signature == Some(BStr::new(b"2")));
    assert!(rt; signature_field_name(Sha1) == SIGNATURE_FIELD_NAME);
    assert!(rt; SIGNATURE_FIELD_NAME == "gpgsig");
    assert!(rt; signature_field_name(Sha256) == SIGNATURE_FIELD_NAME_SHA256);
    assert!(rt; SIGNATURE_FIELD_NAME_SHA256 == "gpgsig-sha256");
}

/// A commit whose encoding has spaces at its ends.
const WITH_ENCODING: &[u8] = b"tree 4b825dc642cb6eb9a060e54bf8d69288fbee4904\n\
    author A <a@b> 0 +0000\ncommitter A <a@b> 0 +0000\n\
    encoding  UTF-8 \n\nhi\n";

#[test]
fn yields_encoding_unchanged(rt: HostRuntime) {
    let mut tokens = CommitRefIter::from_bytes(rt.alloc(), WITH_ENCODING, Sha1);
    let wanted = BStr::new(b" UTF-8 ");
    assert!(rt; holds!(tokens.nth(3), Some(Ok(Token::Encoding(it))) => it == wanted));
}
