//! Messages of commits: cases that no table of `gixobj_tests_replay_messages` has.

mod allocation_failures;

use crate::commit::read;
use crate::helpers::holds;
use bstr::BStr;
use gixobj_base::OutOfMemory;
use gixobj_codec::commit::CommitRef;
use gixobj_codec::commit::message::BodyRef;
use gixobj_codec::commit::message::body::{Filtered, TrailerRef};
use std::alloc::Global;

/// A commit with one sign-off, two co-authors, four assistants, three other attributions and a link.
const ATTRIBUTED: &[u8] = b"tree 4b825dc642cb6eb9a060e54bf8d69288fbee4904\n\
    author A <a@b> 0 +0000\ncommitter A <a@b> 0 +0000\n\
    \ntitle\nmore\n\nbody\n\nSigned-off-by: 1\nco-authored-by: 2\nCo-Authored-By: 3\n\
    ASSISTED-BY: 4\nAssisted-by: 5\nassisted-by: 6\nAssisted-by: 7\n\
    Acked-by: 8\nReviewed-by: 9\nTested-by: 10\nLink: 11\n";

/// Returns the values of the trailers that a filter yields, concatenated.
fn values(alloc: Global, trailers: Filtered<'_>) -> Result<Vec<u8>, OutOfMemory> {
    let mut values = Vec::new(alloc);
    for trailer in trailers {
        values.extend_from_slice(trailer?.value.as_slice())?;
    }
    Ok(values)
}

/// Returns whether a filter yields trailers with these concatenated values.
fn keeps(alloc: Global, trailers: Filtered<'_>, wanted: &[u8]) -> bool {
    holds!(values(alloc, trailers), Ok(values) => values.as_slice() == wanted)
}

/// Returns whether each filter yields the trailers of its names.
fn filters_are_right(alloc: Global, commit: &CommitRef<'_>) -> bool {
    keeps(alloc, commit.signed_off_by_trailers(alloc), b"1")
        && keeps(alloc, commit.co_authored_by_trailers(alloc), b"23")
        && keeps(alloc, commit.assisted_by_trailers(alloc), b"4567")
        && keeps(alloc, commit.author_trailers(alloc), b"123")
        && keeps(alloc, commit.attribution_trailers(alloc), b"12345678910")
        && commit.message_trailers(alloc).count() == 11
}

#[test]
fn filters_yield_trailers_of_their_names(rt: HostRuntime) {
    let commit = read(rt.alloc(), ATTRIBUTED);
    assert!(rt; holds!(&commit, Ok(it) => filters_are_right(rt.alloc(), it)));
    let (title, summary) = (BStr::new(b"title\nmore"), b"title more".as_slice());
    assert!(rt; holds!(&commit, Ok(it) => it.message().title == title));
    assert!(rt;
        holds!(
            &commit,
            Ok(it) => holds!(it.message_summary(rt.alloc()), Ok(it) => it.as_slice() == summary)
        )
    );
}

/// Returns whether the item is a trailer with the token `A` and the value `1 2`, equal to its copy.
fn is_folded(item: &Result<TrailerRef<'_>, OutOfMemory>) -> bool {
    holds!(item, Ok(it) => it.token.as_bytes() == b"A".as_slice() && it.value.as_slice() == b"1 2".as_slice())
        && holds!(item, Ok(it) => holds!(it.clone(), Ok(copy) => copy == *it))
}

/// Counts the trailers of a body; `None` if one isn't `A: 1 2`.
fn count_folded(alloc: Global, body: &[u8]) -> Option<usize> {
    let mut count = 0usize;
    for trailer in BodyRef::from_bytes(body).trailers(alloc) {
        if !is_folded(&trailer) {
            return None;
        }
        count = count.saturating_add(1);
    }
    Some(count)
}

#[test]
fn yields_many_trailers_of_two_lines(rt: HostRuntime) {
    let body = "A: 1\n 2\n".repeat(rt.alloc(), 3_000);
    assert!(rt; holds!(&body, Ok(it) => count_folded(rt.alloc(), it.as_bytes()) == Some(3_000)));
}
