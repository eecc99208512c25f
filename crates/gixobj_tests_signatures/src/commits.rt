//! Signed commits, and signatures found in their encodings.

use crate::calls::{Maker, ScriptedAnswer};
use crate::objects::{
    Outcome, Row, after_calls, has_bytes, is_error_of, is_object, runner_of_row, signing_options,
};
use crate::scripted::Played;
use crate::signing::CREATED;
use gixobj_commit::{Commit, CommitRef};
use gixobj_hash::decode;
use gixobj_hash::hash::Kind::{self, Sha1, Sha256};
use gixobj_signature::signature::sign::Error;
use gixobj_tokens::CommitRefIter;
use std::alloc::Global;

/// A commit of 99 bytes.
pub(crate) const PLAIN: &[u8] = b"tree 4b825dc642cb6eb9a060e54bf8d69288fbee4904\n\
    author A <a@b> 0 +0000\n\
    committer A <a@b> 0 +0000\n\
    \n\
    hi\n";

/// The plain commit with a signature, of 111 bytes.
pub(crate) const SIGNED: &[u8] = b"tree 4b825dc642cb6eb9a060e54bf8d69288fbee4904\n\
    author A <a@b> 0 +0000\n\
    committer A <a@b> 0 +0000\n\
    gpgsig A\n\
    \x20B\n\
    \n\
    hi\n";

/// A commit with two signatures, and a header between them.
const TWICE: &[u8] = b"tree 4b825dc642cb6eb9a060e54bf8d69288fbee4904\n\
    author A <a@b> 0 +0000\n\
    committer A <a@b> 0 +0000\n\
    encoding UTF-8\n\
    gpgsig C\n\
    \x20D\n\
    x v\n\
    gpgsig E\n\
    \n\
    hi\n";

/// The commit `TWICE` without its signatures.
const NONE: &[u8] = b"tree 4b825dc642cb6eb9a060e54bf8d69288fbee4904\n\
    author A <a@b> 0 +0000\n\
    committer A <a@b> 0 +0000\n\
    encoding UTF-8\n\
    x v\n\
    \n\
    hi\n";

/// The commit `NONE` with one signature, in which a carriage return is unchanged.
const AGAIN: &[u8] = b"tree 4b825dc642cb6eb9a060e54bf8d69288fbee4904\n\
    author A <a@b> 0 +0000\n\
    committer A <a@b> 0 +0000\n\
    encoding UTF-8\n\
    x v\n\
    gpgsig A\rB\n\
    \x20C\n\
    \n\
    hi\n";

/// A commit with SHA-256 ids, and a signature for each kind of ids.
const SHA256: &[u8] = b"tree 6ef19b41225c5369f1c104d45d8d85efa9b057b53b14b4b9b939dd74decc5321\n\
    author A <a@b> 0 +0000\n\
    committer A <a@b> 0 +0000\n\
    gpgsig-sha256 D\n\
    gpgsig C\n\
    \n\
    hi\n";

/// The commit `SHA256` without the signature for its own kind of ids.
const SHA256_NONE: &[u8] =
    b"tree 6ef19b41225c5369f1c104d45d8d85efa9b057b53b14b4b9b939dd74decc5321\n\
    author A <a@b> 0 +0000\n\
    committer A <a@b> 0 +0000\n\
    gpgsig C\n\
    \n\
    hi\n";

/// The commit `SHA256`, signed again.
const SHA256_AGAIN: &[u8] =
    b"tree 6ef19b41225c5369f1c104d45d8d85efa9b057b53b14b4b9b939dd74decc5321\n\
    author A <a@b> 0 +0000\n\
    committer A <a@b> 0 +0000\n\
    gpgsig C\n\
    gpgsig-sha256 A\n\
    \n\
    hi\n";

/// A commit whose author's name is illegal in an owned commit.
const ILLEGAL: &[u8] = b"tree 4b825dc642cb6eb9a060e54bf8d69288fbee4904\n\
    author A> <a@b> 0 +0000\n\
    committer A <a@b> 0 +0000\n\
    \n\
    hi\n";

/// A commit with an empty encoding.
const NO_ENCODING: &[u8] = b"tree 4b825dc642cb6eb9a060e54bf8d69288fbee4904\n\
    author A <a@b> 0 +0000\n\
    committer A <a@b> 0 +0000\n\
    encoding \n\
    \n\
    hi\n";

/// Commits to be signed, and their outcomes.
const ROWS: &[Row<'static>] = &[
    Row {
        encoding: PLAIN,
        hash: Sha1,
        key: b"K",
        call: Some((
            PLAIN,
            ScriptedAnswer::Ran(true, b"A\r\nB\r\n", CREATED, None),
        )),
        outcome: Outcome::Bytes(SIGNED),
    },
    Row {
        encoding: PLAIN,
        hash: Sha1,
        key: b"K",
        call: Some((PLAIN, ScriptedAnswer::Ran(true, b"A\r\nB\r\n", b"", None))),
        outcome: Outcome::Error("MissingSignatureConfirmation"),
    },
    Row {
        encoding: PLAIN,
        hash: Sha1,
        key: b"",
        call: None,
        outcome: Outcome::Error("MissingSigningKey"),
    },
    Row {
        encoding: TWICE,
        hash: Sha1,
        key: b"K",
        call: Some((NONE, ScriptedAnswer::Ran(true, b"A\rB\r\nC", CREATED, None))),
        outcome: Outcome::Bytes(AGAIN),
    },
    Row {
        encoding: SHA256,
        hash: Sha256,
        key: b"K",
        call: Some((SHA256_NONE, ScriptedAnswer::Ran(true, b"A", CREATED, None))),
        outcome: Outcome::Bytes(SHA256_AGAIN),
    },
    Row {
        encoding: PLAIN,
        hash: Sha1,
        key: b"K",
        call: Some((PLAIN, ScriptedAnswer::NoTime)),
        outcome: Outcome::Error("Communicate"),
    },
    Row {
        encoding: ILLEGAL,
        hash: Sha1,
        key: b"",
        call: None,
        outcome: Outcome::Error("IllegalActor"),
    },
    Row {
        encoding: NO_ENCODING,
        hash: Sha1,
        key: b"K",
        call: None,
        outcome: Outcome::Error("EmptyValue"),
    },
];

/// The form in which a commit is signed.
#[derive(Clone, Copy)]
pub(crate) enum Form {
    Owned,
    Decoded,
    /// Decoded, with the tree's id as author line.
    WithoutAuthor,
}

/// Signs a row's commit in this form. Runs out of memory if there is none.
fn signed_commit(
    maker: &mut Maker,
    row: &Row<'_>,
    form: Form,
    runner: &mut Played,
) -> Result<Commit, Error> {
    let (alloc, options) = (maker.alloc, signing_options(maker, row.key));
    let Ok(mut commit) = CommitRef::from_bytes(alloc, row.encoding, row.hash) else {
        return Err(Error::OutOfMemory);
    };
    match form {
        Form::Owned => match commit.into_owned(alloc) {
            Ok(owned) => owned.sign(alloc, options, runner),
            Err(_) => Err(Error::OutOfMemory),
        },
        Form::Decoded => commit.sign(alloc, options, runner),
        Form::WithoutAuthor => {
            commit.author = commit.tree;
            commit.sign(alloc, options, runner)
        }
    }
}

/// Returns whether signing a row's commit has the row's outcome, by the row's calls; `None` if memory runs out.
pub(crate) fn of_commit(alloc: Global, row: &Row<'_>, form: Form) -> Option<bool> {
    let mut maker = Maker::new(alloc);
    let mut runner = runner_of_row(&mut maker, row);
    let answer = match &signed_commit(&mut maker, row, form, &mut runner) {
        Ok(commit) => is_object(alloc, commit, row.outcome),
        Err(error) => is_error_of(error, row.outcome),
    };
    after_calls(answer, &maker, &runner)
}

#[test]
fn signs_commits_or_returns_error(rt: HostRuntime) {
    assert!(rt; PLAIN.len() == 99);
    assert!(rt; SIGNED.len() == 111);
    for (number, row) in ROWS.iter().enumerate() {
        assert!(rt;
            of_commit(rt.alloc(), row, Form::Owned) == Some(true),
            "{number}"
        );
        assert!(rt;
            of_commit(rt.alloc(), row, Form::Decoded) == Some(true),
            "{number}"
        );
    }
}

/// A commit whose author line is replaced by its tree's id, and the outcome of signing it.
const NO_AUTHOR: &Row<'static> = &Row {
    encoding: PLAIN,
    hash: Sha1,
    key: b"",
    call: None,
    outcome: Outcome::Error("Malformed"),
};

/// A malformed author is rejected before any call.
#[test]
fn rejects_malformed_author_before_any_call(rt: HostRuntime) {
    assert!(rt; of_commit(rt.alloc(), NO_AUTHOR, Form::WithoutAuthor) == Some(true));
}

/// The plain commit with two signatures, the second of which begins a last line without an end.
const NO_LINE: &[u8] = b"tree 4b825dc642cb6eb9a060e54bf8d69288fbee4904\n\
    author A <a@b> 0 +0000\n\
    committer A <a@b> 0 +0000\n\
    gpgsig A\n\
    gpgsig B\n\
    no line";

/// The bytes that the first signature of `NO_LINE` signs.
const NO_LINE_PAYLOAD: &[u8] = b"tree 4b825dc642cb6eb9a060e54bf8d69288fbee4904\n\
    author A <a@b> 0 +0000\n\
    committer A <a@b> 0 +0000\n\
    gpgsig B\n\
    no line";

/// The commit `SIGNED`, truncated within its committer.
const TRUNCATED_COMMITTER: &[u8] = b"tree 4b825dc642cb6eb9a060e54bf8d69288fbee4904\n\
    author A <a@b> 0 +0000\n\
    committer A <a@b> 0 +0000";

/// The commit `SIGNED`, truncated within its signature.
const TRUNCATED_SIGNATURE: &[u8] = b"tree 4b825dc642cb6eb9a060e54bf8d69288fbee4904\n\
    author A <a@b> 0 +0000\n\
    committer A <a@b> 0 +0000\n\
    gpgsig A\n\
    \x20B";

/// What is found in a commit's encoding.
#[derive(Clone, Copy)]
pub(crate) enum Found {
    Nothing,
    /// An invalid line.
    Malformed,
    /// This signature, and the bytes that it signs.
    Signature(&'static [u8], &'static [u8]),
}

/// Encodings of commits, their kind of ids, and what is found. The first signature is found, and the bytes
/// after it are not examined.
const FOUND: &[(&[u8], Kind, Found)] = &[
    (PLAIN, Sha1, Found::Nothing),
    (SIGNED, Sha1, Found::Signature(b"A\nB\n", PLAIN)),
    (AGAIN, Sha1, Found::Signature(b"A\rB\nC\n", NONE)),
    (SHA256_AGAIN, Sha256, Found::Signature(b"A", SHA256_NONE)),
    (NO_LINE, Sha1, Found::Signature(b"A", NO_LINE_PAYLOAD)),
    (TRUNCATED_COMMITTER, Sha1, Found::Malformed),
    (TRUNCATED_SIGNATURE, Sha1, Found::Malformed),
    (SIGNED, Sha256, Found::Malformed),
    (b"gpgsig A\n", Sha1, Found::Malformed),
];

/// Returns whether this is found in a commit's encoding; `None` if memory runs out.
pub(crate) fn is_found(
    alloc: Global,
    encoding: &[u8],
    hash: Kind,
    expected: Found,
) -> Option<bool> {
    match &CommitRefIter::signature(alloc, encoding, hash) {
        Ok(Some((signature, signed))) => match expected {
            Found::Signature(value, payload) if signature.as_slice() == value => {
                has_bytes(alloc, signed, payload)
            }
            _ => Some(false),
        },
        Ok(None) => Some(matches!(expected, Found::Nothing)),
        Err(decode::Error::Malformed) => Some(matches!(expected, Found::Malformed)),
        Err(decode::Error::OutOfMemory) => None,
    }
}

#[test]
fn finds_signature_and_signed_bytes(rt: HostRuntime) {
    for (number, &(encoding, hash, expected)) in FOUND.iter().enumerate() {
        let answer = is_found(rt.alloc(), encoding, hash, expected);
        assert!(rt; answer == Some(true), "{number}");
    }
}
