//! Commits with failed allocations: each call returns out of memory in its own error and succeeds when made
//! again; a failed reader yields nothing more.

use super::{PLAIN, SIGNED, owned_form};
use crate::helpers::{Answer, completes};
use gixobj_base::hash::Kind;
use gixobj_base::{WriteTo, decode, encode};
use gixobj_codec::commit::ref_iter::Token;
use gixobj_codec::{CommitRef, CommitRefIter};
use std::alloc::Global;

/// The plain commit with a header without a value.
const WITH_A_HEADER: &[u8] = b"tree 4b825dc642cb6eb9a060e54bf8d69288fbee4904\n\
    author A <a@b> 0 +0000\ncommitter A <a@b> 0 +0000\n\
    x \n\nhi\n";

/// Encodings of commits, and the count of their tokens.
const ENCODINGS: &[(&[u8], usize)] = &[(PLAIN, 4), (WITH_A_HEADER, 5), (SIGNED, 5)];

/// Classifies a decode error.
fn of_error(error: &decode::Error) -> Answer {
    match error {
        decode::Error::OutOfMemory => Answer::WithoutMemory,
        decode::Error::Malformed => Answer::Other,
    }
}

/// Classifies writing a commit, by its encoding and its size.
fn of_commit<T: WriteTo>(alloc: Global, commit: &T, bytes: &[u8]) -> Answer
    requires { T.can_write commit.now }
{
    let mut out = Vec::new(alloc);
    let written = commit.write_to(alloc, &mut out);
    let is_right = out.as_slice() == bytes && commit.size() == Some(bytes.len() as u64);
    of_written(&written, is_right)
}

/// Classifies the result of a write, which is right or not.
fn of_written(written: &Result<(), encode::Error>, is_right: bool) -> Answer {
    match written {
        Ok(()) => Answer::complete_where(is_right),
        Err(encode::Error::Writer(_)) => Answer::WithoutMemory,
        Err(_) => Answer::Other,
    }
}

/// Classifies decoding a commit and writing it.
fn of_read(alloc: Global, bytes: &[u8]) -> Answer {
    match CommitRef::from_bytes(alloc, bytes, Kind::Sha1) {
        Ok(commit) => of_commit(alloc, &commit, bytes),
        Err(error) => of_error(&error),
    }
}

/// Classifies decoding a commit and writing its owned form.
fn of_owned(alloc: Global, bytes: &[u8]) -> Answer {
    match owned_form(alloc, bytes) {
        Ok(commit) => of_commit(alloc, &commit, bytes),
        Err(error) => of_error(&error),
    }
}

/// Updates the outcome of a run, and its count of tokens, by one more item. After an error there may be none.
fn after_item(
    outcome: (Answer, usize),
    item: &Result<Token<'_>, decode::Error>,
) -> (Answer, usize) {
    let (answer, count) = outcome;
    match (answer, item) {
        (Answer::Complete, Ok(_)) => (Answer::Complete, count.saturating_add(1)),
        (Answer::Complete, Err(error)) => (of_error(error), count),
        _ => (Answer::Other, count),
    }
}

/// Classifies a run over the tokens of an encoding, by their count.
fn of_tokens(alloc: Global, bytes: &[u8], wanted: usize) -> Answer {
    let mut outcome = (Answer::Complete, 0usize);
    for token in CommitRefIter::from_bytes(alloc, bytes, Kind::Sha1) {
        outcome = after_item(outcome, &token);
    }
    match outcome {
        (Answer::Complete, count) => Answer::complete_where(count == wanted),
        (answer, _) => answer,
    }
}

#[test]
fn decodes_and_writes_whatever_allocation_fails(rt: HostRuntime) {
    for &(bytes, tokens) in ENCODINGS {
        assert!(rt; completes!(of_read(rt.alloc(), bytes)), "{tokens}");
        assert!(rt; completes!(of_owned(rt.alloc(), bytes)), "{tokens}");
        assert!(rt;
            completes!(of_tokens(rt.alloc(), bytes, tokens)),
            "{tokens}"
        );
    }
}
