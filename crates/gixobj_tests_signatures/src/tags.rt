//! Signed tags, and signatures found in their encodings.

use crate::calls::{Maker, ScriptedAnswer};
use crate::objects::{
    Outcome, Row, after_calls, has_bytes, is_error_of, is_object, runner_of_row, signing_options,
};
use crate::scripted::Played;
use crate::signing::CREATED;
use bstr::BStr;
use gixobj_hash::hash::Kind::{Sha1, Sha256};
use gixobj_parse::signature::Format;
use gixobj_signature::signature::sign::Error;
use gixobj_tag::{Tag, TagRef};
use gixobj_tokens::TagRefIter;
use std::alloc::Global;

/// An OpenPGP signature.
const PGP: &[u8] = b"-----BEGIN PGP SIGNATURE-----\n";

/// A tag of 65 bytes.
const BARE: &[u8] = b"object 4b825dc642cb6eb9a060e54bf8d69288fbee4904\n\
    type tree\n\
    tag v1\n";

/// The bare tag with a message of two newlines.
const NEWLINES: &[u8] = b"object 4b825dc642cb6eb9a060e54bf8d69288fbee4904\n\
    type tree\n\
    tag v1\n\
    \n\
    \n";

/// The bytes that are signed of `NEWLINES`, 68 of them.
const PAYLOAD: &[u8] = b"object 4b825dc642cb6eb9a060e54bf8d69288fbee4904\n\
    type tree\n\
    tag v1\n\
    \n\
    \n\
    \n";

/// The tag `NEWLINES` with a signature, of 98 bytes.
const SIGNED: &[u8] = b"object 4b825dc642cb6eb9a060e54bf8d69288fbee4904\n\
    type tree\n\
    tag v1\n\
    \n\
    \n\
    \n\
    -----BEGIN PGP SIGNATURE-----\n";

/// The tag `SIGNED`, decoded and signed again: the decoded message is one newline.
const SIGNED_AGAIN: &[u8] = b"object 4b825dc642cb6eb9a060e54bf8d69288fbee4904\n\
    type tree\n\
    tag v1\n\
    \n\
    \n\
    -----BEGIN PGP MESSAGE-----\n\
    x\n";

/// A tag with SHA-256 ids, a tagger and a message.
const SHA256: &[u8] = b"object 6ef19b41225c5369f1c104d45d8d85efa9b057b53b14b4b9b939dd74decc5321\n\
    type tree\n\
    tag v1\n\
    tagger A <a@b> 0 +0000\n\
    \n\
    hi";

/// The bytes that are signed of `SHA256`.
const SHA256_PAYLOAD: &[u8] =
    b"object 6ef19b41225c5369f1c104d45d8d85efa9b057b53b14b4b9b939dd74decc5321\n\
    type tree\n\
    tag v1\n\
    tagger A <a@b> 0 +0000\n\
    \n\
    hi\n";

/// The tag `SHA256` with a signature.
const SHA256_SIGNED: &[u8] =
    b"object 6ef19b41225c5369f1c104d45d8d85efa9b057b53b14b4b9b939dd74decc5321\n\
    type tree\n\
    tag v1\n\
    tagger A <a@b> 0 +0000\n\
    \n\
    hi\n\
    -----BEGIN PGP SIGNATURE-----\n";

/// A tag with an invalid name.
const DASH: &[u8] = b"object 4b825dc642cb6eb9a060e54bf8d69288fbee4904\n\
    type tree\n\
    tag -v\n";

/// A tag with further bytes after its tagger.
const TAGGER_AND_MORE: &[u8] = b"object 4b825dc642cb6eb9a060e54bf8d69288fbee4904\n\
    type tree\n\
    tag v1\n\
    tagger A <a@b> 0 +0000 x\n";

/// Tags to be signed, and their outcomes.
const ROWS: &[Row<'static>] = &[
    Row {
        encoding: NEWLINES,
        hash: Sha1,
        key: b"K",
        call: Some((PAYLOAD, ScriptedAnswer::Ran(true, PGP, CREATED, None))),
        outcome: Outcome::Bytes(SIGNED),
    },
    Row {
        encoding: SIGNED,
        hash: Sha1,
        key: b"K",
        call: Some((
            NEWLINES,
            ScriptedAnswer::Ran(true, b"-----BEGIN PGP MESSAGE-----\r\nx\r\n", CREATED, None),
        )),
        outcome: Outcome::Bytes(SIGNED_AGAIN),
    },
    Row {
        encoding: SHA256,
        hash: Sha256,
        key: b"K",
        call: Some((
            SHA256_PAYLOAD,
            ScriptedAnswer::Ran(true, PGP, CREATED, None),
        )),
        outcome: Outcome::Bytes(SHA256_SIGNED),
    },
    Row {
        encoding: NEWLINES,
        hash: Sha1,
        key: b"K",
        call: Some((PAYLOAD, ScriptedAnswer::Ran(true, PGP, b"", None))),
        outcome: Outcome::Error("MissingSignatureConfirmation"),
    },
    Row {
        encoding: NEWLINES,
        hash: Sha1,
        key: b"key::k",
        call: Some((PAYLOAD, ScriptedAnswer::Ran(true, b"", b"", Some(PGP)))),
        outcome: Outcome::Bytes(SIGNED),
    },
    Row {
        encoding: NEWLINES,
        hash: Sha1,
        key: b"key::k",
        call: Some((PAYLOAD, ScriptedAnswer::Ran(true, b"", b"", None))),
        outcome: Outcome::Error("MissingSshSignature"),
    },
    Row {
        encoding: NEWLINES,
        hash: Sha1,
        key: b"",
        call: None,
        outcome: Outcome::Error("MissingSigningKey"),
    },
    Row {
        encoding: DASH,
        hash: Sha1,
        key: b"",
        call: None,
        outcome: Outcome::Error("StartsWithDash"),
    },
];

/// Signs the owned or the decoded form of a row's tag. Runs out of memory if there is none.
fn signed_tag(
    maker: &mut Maker,
    row: &Row<'_>,
    is_owned: bool,
    runner: &mut Played,
) -> Result<Tag, Error> {
    let (alloc, options) = (maker.alloc, signing_options(maker, row.key));
    let Ok(tag) = TagRef::from_bytes(row.encoding, row.hash) else {
        return Err(Error::OutOfMemory);
    };
    if !is_owned {
        return tag.sign(alloc, options, runner);
    }
    match tag.into_owned(alloc) {
        Ok(owned) => owned.sign(alloc, options, runner),
        Err(_) => Err(Error::OutOfMemory),
    }
}

/// Returns whether signing a row's tag has the row's outcome, by the row's calls; `None` if memory runs out.
pub(crate) fn of_tag(alloc: Global, row: &Row<'_>, is_owned: bool) -> Option<bool> {
    let mut maker = Maker::new(alloc);
    let mut runner = runner_of_row(&mut maker, row);
    let answer = match &signed_tag(&mut maker, row, is_owned, &mut runner) {
        Ok(tag) => is_object(alloc, tag, row.outcome),
        Err(error) => is_error_of(error, row.outcome),
    };
    after_calls(answer, &maker, &runner)
}

#[test]
fn signs_tags_or_returns_error(rt: HostRuntime) {
    assert!(rt; BARE.len() == 65);
    assert!(rt; PAYLOAD.len() == 68);
    assert!(rt; SIGNED.len() == 98);
    for (number, row) in ROWS.iter().enumerate() {
        assert!(rt; of_tag(rt.alloc(), row, true) == Some(true), "{number}");
        assert!(rt; of_tag(rt.alloc(), row, false) == Some(true), "{number}");
    }
}

/// A tag with further bytes after its tagger, and its outcome.
const MORE: &Row<'static> = &Row {
    encoding: TAGGER_AND_MORE,
    hash: Sha1,
    key: b"",
    call: None,
    outcome: Outcome::Error("Malformed"),
};

/// Bytes after a tagger are rejected before any call.
#[test]
fn rejects_bytes_after_tagger_before_any_call(rt: HostRuntime) {
    assert!(rt; of_tag(rt.alloc(), MORE, false) == Some(true));
}

/// Encodings of tags, and the OpenPGP signature and the bytes that it signs, if any.
const FOUND: &[(&[u8], Option<(&[u8], &[u8])>)] = &[
    (SIGNED, Some((PGP, PAYLOAD))),
    (SHA256_SIGNED, Some((PGP, SHA256_PAYLOAD))),
    (PGP, Some((PGP, b""))),
    (BARE, None),
    (PAYLOAD, None),
    (SHA256, None),
];

/// Returns whether this OpenPGP signature, with the bytes that it signs, is found in a tag's encoding, or none;
/// `None` if memory runs out.
pub(crate) fn is_tag_signature(
    alloc: Global,
    encoding: &[u8],
    expected: Option<(&[u8], &[u8])>,
) -> Option<bool> {
    let Some((signature, signed)) = TagRefIter::signature(encoding) else {
        return Some(expected.is_none());
    };
    match expected {
        Some((bytes, payload))
            if signature.format == Format::OpenPgp && signature.bytes == BStr::new(bytes) => {
            has_bytes(alloc, &signed, payload)
        }
        _ => Some(false),
    }
}

#[test]
fn finds_signature_and_signed_bytes(rt: HostRuntime) {
    for (number, &(encoding, expected)) in FOUND.iter().enumerate() {
        let answer = is_tag_signature(rt.alloc(), encoding, expected);
        assert!(rt; answer == Some(true), "{number}");
    }
}
