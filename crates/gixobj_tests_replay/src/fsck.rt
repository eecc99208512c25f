//! Answers with git's messages about commits and tags, and with its verdicts.

use gixobj_base::hash::Kind;
use gixobj_fsck::{commit_messages, is_commit_accepted};
use gixobj_fsck_messages::{Message, Messages, Severity};
use gixobj_fsck_tags::{is_tag_accepted, tag_messages};
use gixobj_tests_recorded::answer::Answer;
use gixobj_tests_recorded::fields::{kind_of_ids, split_at_first, yes_or_no};

/// A question: whether it is a commit, the kind of ids, whether the check is strict, and the object.
#[derive(Drop)]
struct Question {
    is_commit: bool,
    kind: Kind,
    is_strict: bool,
    bytes: Vec<u8>,
}

/// Decodes a question: `commit` or `tag`, the kind of ids, `strict` or `default`, and the object.
fn question_of(question: &[u8], answer: &mut Answer) -> Question {
    let (object, rest) = split_at_first(question, b' ');
    let (kind, rest) = split_at_first(rest, b' ');
    let (level, bytes) = split_at_first(rest, b' ');
    Question {
        is_commit: object == b"commit".as_slice(),
        kind: kind_of_ids(kind),
        is_strict: level == b"strict".as_slice(),
        bytes: answer.input(bytes),
    }
}

/// Answers with the messages about a commit or a tag that git prints, each with its level.
pub(crate) fn fsck_message_answer(question: &[u8], answer: &mut Answer) {
    let question = question_of(question, answer);
    let bytes = question.bytes.as_slice();
    let messages = if question.is_commit {
        commit_messages(question.kind, bytes)
    } else {
        tag_messages(question.kind, bytes)
    };
    if messages.is_empty() {
        answer.write("none");
    }
    write_messages(messages, question.is_strict, answer);
}

/// The columns of messages.
fn write_messages(messages: Messages, is_strict: bool, answer: &mut Answer) {
    for message in messages.iter() {
        answer.write_pair(level_of(message, is_strict), message.as_str());
    }
}

/// The level that git prints for a message.
fn level_of(message: Message, is_strict: bool) -> &'static str {
    match message.severity(is_strict) {
        Severity::Fatal | Severity::Error => "error",
        Severity::Warn | Severity::Info => "warning",
        Severity::Ignore => "ignored",
    }
}

/// Answers with whether git accepts a commit or a tag.
pub(crate) fn fsck_verdict_answer(question: &[u8], answer: &mut Answer) {
    let question = question_of(question, answer);
    let bytes = question.bytes.as_slice();
    answer.write(yes_or_no(if question.is_commit {
        is_commit_accepted(question.kind, bytes, question.is_strict)
    } else {
        is_tag_accepted(question.kind, bytes, question.is_strict)
    }));
}
