//! Answers about messages and bodies.

use gixobj_base::OutOfMemory;
use gixobj_base::hash::Kind::Sha1;
use gixobj_codec::CommitRef;
use gixobj_codec::commit::MessageRef;
use gixobj_codec::commit::message::BodyRef;
use gixobj_codec::commit::message::body::{Filtered, TrailerRef, Trailers};
use gixobj_tests_recorded::answer::{Answer, Form};
use gixobj_tests_recorded::fields::split_at_first;
use std::borrow::CowSlice;

/// A commit without its message.
const COMMIT: &[u8] =
    b"tree 4b825dc642cb6eb9a060e54bf8d69288fbee4904\nauthor A <a@b> 0 +0000\ncommitter A <a@b> 0 +0000\n\n";

/// Answers with a message.
pub(crate) fn message_answer(question: &[u8], answer: &mut Answer) {
    let bytes = answer.input(question);
    write_message(bytes.as_slice(), answer);
}

/// The columns of a message, of the summary of its title, and of that of a commit with this message.
fn write_message(input: &[u8], answer: &mut Answer) {
    let message = MessageRef::from_bytes(input);
    answer.write_bytes("title", message.title.as_bytes());
    answer.write_if_some("body", message.body);
    write_summary("summary", message.summary(answer.alloc), answer);
    let mut commit = answer.part();
    commit.push(COMMIT);
    commit.push(input);
    let commit = answer.taken(commit);
    match CommitRef::from_bytes(answer.alloc, commit.as_slice(), Sha1) {
        Ok(commit) => {
            write_summary(
                "message-summary",
                commit.message_summary(answer.alloc),
                answer,
            )
        }
        Err(_) => answer.write_bytes("message-summary", b"no commit"),
    }
}

/// The column of a summary.
fn write_summary(token: &str, summary: Result<CowSlice<'_, u8>, OutOfMemory>, answer: &mut Answer) {
    match summary {
        Ok(summary) => answer.write_bytes(token, summary.as_slice()),
        Err(OutOfMemory) => answer.fail(),
    }
}

/// Answers with a body: the bytes before its trailers, its trailers, those of each filter, and its blocks.
pub(crate) fn body_answer(question: &[u8], answer: &mut Answer) {
    let bytes = answer.input(question);
    let body = BodyRef::from_bytes(bytes.as_slice());
    answer.write_bytes("without-trailer", body.without_trailer().as_bytes());
    let trailers = body.trailers(answer.alloc);
    write_trailers("trailer", trailers, answer);
    write_filtered("signed-off-by", trailers.signed_off_by(), answer);
    write_filtered("co-authored-by", trailers.co_authored_by(), answer);
    write_filtered("assisted-by", trailers.assisted_by(), answer);
    write_filtered("authors", trailers.authors(), answer);
    write_filtered("attributions", trailers.attributions(), answer);
    for block in body.message_blocks() {
        answer.write_bytes("block", block.message.as_bytes());
        write_trailers("block-trailer", block.trailers(answer.alloc), answer);
    }
    answer.write("end");
}

/// A column for each trailer.
fn write_trailers(token: &str, trailers: Trailers<'_>, answer: &mut Answer) {
    for trailer in trailers {
        write_trailer(token, trailer, answer);
    }
}

/// A column for each trailer that a filter yields.
fn write_filtered(token: &str, trailers: Filtered<'_>, answer: &mut Answer) {
    for trailer in trailers {
        write_trailer(token, trailer, answer);
    }
}

/// The column of a trailer. In quotes it is as git shows it; in hex it has whether its value is borrowed.
fn write_trailer(token: &str, trailer: Result<TrailerRef<'_>, OutOfMemory>, answer: &mut Answer) {
    match (trailer, answer.form) {
        (Ok(trailer), Form::Hex) => {
            answer.write_bytes(token, trailer.token.as_bytes());
            answer.add_bytes(trailer.value.as_slice());
            answer.add(match trailer.value {
                CowSlice::Borrowed(_) => "borrowed",
                CowSlice::Owned(_) => "owned",
            });
        }
        (Ok(trailer), _) => {
            answer.write(token);
            answer.push(b" \"");
            answer.push_escaped(trailer.token.as_bytes());
            answer.push(b": ");
            answer.push_escaped(trailer.value.as_slice());
            answer.push(b"\"");
        }
        (Err(OutOfMemory), _) => answer.fail(),
    }
}

/// Answers with a message or a body in escaped bytes. The question is a call and its input.
pub(crate) fn named_answer(question: &[u8], answer: &mut Answer) {
    let (call, what) = split_at_first(question, b' ');
    let input = answer.unescape(what);
    let input = input.as_slice();
    let body = BodyRef::from_bytes(input);
    match call {
        b"message" => write_message(input, answer),
        b"blocks" => write_blocks(body, answer),
        b"trailers" => {
            write_trailers("trailer", body.trailers(answer.alloc), answer);
            if answer.as_slice().is_empty() {
                answer.write("none");
            }
        }
        _ => {
            answer.write_bytes("body", body.without_trailer().as_bytes());
            write_trailers("trailer", body.trailers(answer.alloc), answer);
        }
    }
}

/// The columns of the messages of a body and of their trailers.
fn write_blocks(body: BodyRef<'_>, answer: &mut Answer) {
    for block in body.message_blocks() {
        answer.write_bytes("message", block.message.as_bytes());
        write_trailers("trailer", block.trailers(answer.alloc), answer);
    }
}
