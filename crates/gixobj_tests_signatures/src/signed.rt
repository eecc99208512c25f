//! Commits and tags signed by a scripted program: a long commit, failed allocations, and the signature found in
//! the result. Copies of options, calls and outcomes.

use crate::calls::{Maker, ScriptedAnswer};
use crate::commits::{Form, Found, PLAIN, SIGNED, is_found, of_commit};
use crate::objects::{Outcome, Row, gpg_call, signing_options};
use crate::signing::CREATED;
use crate::tags::{is_tag_signature, of_tag};
use crate::verifying::options_of;
use bstr::BString;
use gixobj_hash::hash::Kind::Sha1;
use gixobj_parse::signature::Format;
use gixobj_signature::signature::report::{TrustLevel, parse_ssh_output};
use gixobj_signature::signature::verify;
use std::alloc::{AllocError, Global};

/// The answer of a program that signs a commit.
const SIGNS: ScriptedAnswer = ScriptedAnswer::Ran(true, b"A\r\nB\r\n", CREATED, None);

/// Returns a commit with a thousand parents, a thousand headers of two lines, and then these headers.
fn long_commit(alloc: Global, headers: &str) -> Result<String, AllocError> {
    let parents = "parent 4b825dc642cb6eb9a060e54bf8d69288fbee4904\n".repeat(alloc, 1000)?;
    let lines = "x A\n B\n".repeat(alloc, 1000)?;
    let actors = "author A <a@b> 0 +0000\ncommitter A <a@b> 0 +0000\n";
    let tree = "tree 4b825dc642cb6eb9a060e54bf8d69288fbee4904\n";
    format!(in alloc; "{tree}{parents}{actors}{lines}{headers}\nhi\n")
}

/// Returns the row of a commit that is signed by one call.
fn row_of<'a>(encoding: &'a [u8], signed: &'a [u8]) -> Row<'a> {
    let call = Some((encoding, SIGNS));
    let outcome = Outcome::Bytes(signed);
    Row {
        encoding,
        hash: Sha1,
        key: b"K",
        call,
        outcome,
    }
}

/// Returns whether a commit of many parents and headers is signed, and written in `len` bytes, with the
/// signature before its message.
fn is_long_commit_signed_in(alloc: Global, len: usize) -> bool {
    match (
        &long_commit(alloc, ""),
        &long_commit(alloc, "gpgsig A\n B\n"),
    ) {
        (Ok(commit), Ok(signed)) => {
            let row = row_of(commit.as_bytes(), signed.as_bytes());
            signed.len() == len && of_commit(alloc, &row, Form::Decoded) == Some(true)
        }
        _ => false,
    }
}

/// A signed commit of many parents and headers has twelve bytes more.
#[test]
fn signs_commit_of_many_headers(rt: HostRuntime) {
    assert!(rt; is_long_commit_signed_in(rt.alloc(), 55_111));
}

/// The plain commit, and its outcome.
const COMMIT: &Row<'static> = &Row {
    encoding: PLAIN,
    hash: Sha1,
    key: b"K",
    call: Some((PLAIN, SIGNS)),
    outcome: Outcome::Bytes(SIGNED),
};

#[test]
fn signs_commit_whatever_allocation_fails(rt: HostRuntime) {
    let mut answer = of_commit(rt.alloc(), COMMIT, Form::Decoded);
    if answer.is_none() {
        answer = of_commit(rt.alloc(), COMMIT, Form::Decoded);
    }
    assert!(rt; answer == Some(true));
}

/// The signed commit has its signature, and the bytes that it signs.
#[test]
fn finds_signature_whatever_allocation_fails(rt: HostRuntime) {
    let expected = Found::Signature(b"A\nB\n", PLAIN);
    let mut answer = is_found(rt.alloc(), SIGNED, Sha1, expected);
    if answer.is_none() {
        answer = is_found(rt.alloc(), SIGNED, Sha1, expected);
    }
    assert!(rt; answer == Some(true));
}

/// The bytes that are signed of a tag with a message: the tag, and one more newline.
const PAYLOAD: &[u8] =
    b"object 4b825dc642cb6eb9a060e54bf8d69288fbee4904\ntype tree\ntag v1\n\nhi\n\n";

/// The signature that the program writes for the tag.
const SIGNATURE: &[u8] = b"-----BEGIN PGP SIGNATURE-----\nA\n";

/// The signed tag.
const SIGNED_TAG: &[u8] = b"object 4b825dc642cb6eb9a060e54bf8d69288fbee4904\n\
    type tree\n\
    tag v1\n\
    \n\
    hi\n\
    \n\
    -----BEGIN PGP SIGNATURE-----\n\
    A\n";

/// The tag, and its outcome.
const TAG: &Row<'static> = &Row {
    encoding: b"object 4b825dc642cb6eb9a060e54bf8d69288fbee4904\ntype tree\ntag v1\n\nhi\n",
    hash: Sha1,
    key: b"K",
    call: Some((PAYLOAD, ScriptedAnswer::Ran(true, SIGNATURE, CREATED, None))),
    outcome: Outcome::Bytes(SIGNED_TAG),
};

/// Signs the tag, and then finds its signature; `None` if memory runs out.
fn of_tag_and_signature(alloc: Global) -> Option<bool> {
    match of_tag(alloc, TAG, false) {
        Some(true) => is_tag_signature(alloc, SIGNED_TAG, Some((SIGNATURE, PAYLOAD))),
        answer => answer,
    }
}

#[test]
fn signs_tag_whatever_allocation_fails(rt: HostRuntime) {
    let mut answer = of_tag_and_signature(rt.alloc());
    if answer.is_none() {
        answer = of_tag_and_signature(rt.alloc());
    }
    assert!(rt; answer == Some(true));
}

/// Returns whether a clone equals the value.
fn is_copied<T: Clone + PartialEq + Drop>(value: &T) -> bool {
    match value.clone() {
        Ok(copy) => copy == *value,
        Err(_) => false,
    }
}

/// Returns whether a clone of the outcome for this output of a program equals it.
fn is_outcome_copied(alloc: Global, output: BString) -> bool {
    match &parse_ssh_output(alloc, output, None, TrustLevel::Undefined) {
        Ok(outcome) => is_copied(outcome),
        Err(_) => false,
    }
}

/// Returns whether a clone of signing options has their key, and one of the OpenPGP verifying options is for
/// OpenPGP.
fn are_options_copied(maker: &mut Maker) -> bool {
    let signing = signing_options(maker, b"K");
    let verifying = options_of(maker, (Format::OpenPgp, TrustLevel::Fully, None));
    let signing: Result<_, _> = signing.clone();
    let verifying: Result<_, _> = verifying.clone();
    match (&signing, &verifying) {
        (Ok(signing), Ok(verify::Options::OpenPgp { .. })) => {
            signing.signing_key.as_bytes() == b"K".as_slice()
        }
        _ => false,
    }
}

#[test]
fn clones_options_calls_and_outcomes(rt: HostRuntime) {
    let mut maker = Maker::new(rt.alloc());
    assert!(rt; are_options_copied(&mut maker));
    assert!(rt; is_copied(&maker.call(&gpg_call(b"payload", ScriptedAnswer::NoTime))));
    let output = ScriptedAnswer::Ran(true, b"A", b"", Some(b"B"));
    assert!(rt; matches!(&maker.answer(output), Ok(output) if is_copied(output)));
    assert!(rt; is_outcome_copied(rt.alloc(), maker.bstring(b"invalid signature")));
    assert!(rt; !maker.is_failed);
}
