//! Messages with failed allocations: an iterator yields out of memory as its last item, and the same call
//! yields all items with memory.

use crate::helpers::{Answer, completes};
use gixobj_base::OutOfMemory;
use gixobj_codec::commit::MessageRef;
use gixobj_codec::commit::message::BodyRef;
use gixobj_codec::commit::message::body::TrailerRef;
use std::alloc::Global;

/// Two trailers of two lines, and then one of one line.
const BODY: &[u8] = b"Signed-off-by: 1\n 2\nLink: 3\n 4\nSigned-off-by: 5\n";

/// Updates the outcome of a run, and its count of trailers, by one more item.
fn after_item(
    answer: (Answer, usize),
    item: &Result<TrailerRef<'_>, OutOfMemory>,
) -> (Answer, usize) {
    let (answer, count) = answer;
    if answer != Answer::Complete {
        return (Answer::Other, count);
    }
    match item {
        Ok(_) => (Answer::Complete, count.saturating_add(1)),
        Err(OutOfMemory) => (Answer::WithoutMemory, count),
    }
}

/// Classifies a run that yields `count` trailers, or out of memory after at most one.
fn of_run(answer: (Answer, usize), count: usize) -> Answer {
    match answer {
        (Answer::WithoutMemory, 0 | 1) => Answer::WithoutMemory,
        (Answer::Complete, it) => Answer::complete_where(it == count),
        _ => Answer::Other,
    }
}

/// Classifies a run over all trailers.
fn of_trailers(alloc: Global) -> Answer {
    let mut answer = (Answer::Complete, 0usize);
    for trailer in BodyRef::from_bytes(BODY).trailers(alloc) {
        answer = after_item(answer, &trailer);
    }
    of_run(answer, 3)
}

/// Classifies a run over the sign-offs. The filter also yields the errors of other trailers.
fn of_sign_offs(alloc: Global) -> Answer {
    let mut answer = (Answer::Complete, 0usize);
    for trailer in BodyRef::from_bytes(BODY).trailers(alloc).signed_off_by() {
        answer = after_item(answer, &trailer);
    }
    of_run(answer, 2)
}

/// Classifies the summary of a title of two lines.
fn of_summary(alloc: Global) -> Answer {
    match MessageRef::from_bytes(b"a\nb").summary(alloc) {
        Ok(title) => Answer::complete_where(title.as_slice() == b"a b".as_slice()),
        Err(OutOfMemory) => Answer::WithoutMemory,
    }
}

/// Bodies, the bytes before their trailers, and the tokens and values of the trailers.
const BODIES: &[(&[u8], &[u8], &[(&[u8], &[u8])])] = &[
    (
        b"text\n\nSigned-off-by: A <a@b>\nnot a trailer\nnot a trailer\nnot a trailer\n",
        b"text",
        &[(b"Signed-off-by", b"A <a@b>")],
    ),
    (
        b"text\n\nSigned-off-by: A <a@b>\nnot a trailer\nnot a trailer\nnot a trailer\nnot a trailer\n",
        b"text\n\nSigned-off-by: A <a@b>\nnot a trailer\nnot a trailer\nnot a trailer\nnot a trailer\n",
        &[],
    ),
    (
        b"foo: bar\n continued\r\n  here",
        b"",
        &[(b"foo", b"bar continued here")],
    ),
];

/// Classifies an item: this trailer, or out of memory.
fn of_trailer(
    item: &Option<Result<TrailerRef<'_>, OutOfMemory>>,
    token: &[u8],
    value: &[u8],
) -> Answer {
    match item {
        Some(Ok(trailer)) => Answer::complete_where(
            trailer.token.as_bytes() == token && trailer.value.as_slice() == value,
        ),
        Some(Err(OutOfMemory)) => Answer::WithoutMemory,
        None => Answer::Other,
    }
}

/// Classifies a body, by the bytes before its trailers and by these trailers.
fn of_body(alloc: Global, body: &[u8], before: &[u8], trailers: &[(&[u8], &[u8])]) -> Answer {
    let body = BodyRef::from_bytes(body);
    let mut items = body.trailers(alloc);
    let mut answer = Answer::complete_where(body.without_trailer().as_bytes() == before);
    for (token, value) in trailers {
        answer = answer.and(of_trailer(&items.next(), token, value));
    }
    answer.and(Answer::complete_where(items.next().is_none()))
}

#[test]
fn yields_trailers_whatever_allocation_fails(rt: HostRuntime) {
    assert!(rt; completes!(of_trailers(rt.alloc())));
}

#[test]
fn yields_sign_offs_whatever_allocation_fails(rt: HostRuntime) {
    assert!(rt; completes!(of_sign_offs(rt.alloc())));
}

#[test]
fn yields_summary_whatever_allocation_fails(rt: HostRuntime) {
    assert!(rt; completes!(of_summary(rt.alloc())));
}

#[test]
fn splits_bodies_whatever_allocation_fails(rt: HostRuntime) {
    for &(body, before, trailers) in BODIES {
        assert!(rt;
            completes!(of_body(rt.alloc(), body, before, trailers)),
            "{body:?}"
        );
    }
}
