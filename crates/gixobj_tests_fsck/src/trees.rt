//! The findings and messages about trees.

use crate::options::options_of;
use gixobj_fsck_messages::{Finding, Messages, Options};
use gixobj_fsck_tree_findings::fsck_tree;
use gixobj_fsck_trees::tree_messages;
use gixobj_tests_recorded::answer::Answer;
use gixobj_tests_recorded::fields::{kind_and_bytes, split_at_first};

/// The findings about a tree, or `none`. A question has the check, the kind of ids and the tree.
pub(crate) fn tree_answer(question: &[u8], answer: &mut Answer) {
    let (check, rest) = split_at_first(question, b' ');
    let (hash_kind, bytes) = kind_and_bytes(rest, answer);
    let options = options_of(check);
    let Ok(findings) = fsck_tree(answer.alloc, bytes.as_slice(), hash_kind, &options) else {
        return answer.fail();
    };
    let Ok(messages) = tree_messages(
        answer.alloc,
        bytes.as_slice(),
        hash_kind,
        options.is_strict(),
    ) else {
        return answer.fail();
    };
    if messages_of(&findings) != reported(messages, &options) {
        answer.push(b"other messages than the set: ");
    }
    push_findings(&findings, &options, answer);
}

/// The findings about a tree with their offsets, or `none`.
pub(crate) fn offsets_answer(question: &[u8], answer: &mut Answer) {
    let (check, rest) = split_at_first(question, b' ');
    let (hash_kind, bytes) = kind_and_bytes(rest, answer);
    let options = options_of(check);
    let Ok(findings) = fsck_tree(answer.alloc, bytes.as_slice(), hash_kind, &options) else {
        return answer.fail();
    };
    push_offsets(&findings, answer);
}

/// Appends each finding as git prints it.
fn push_findings(findings: &[Finding], options: &Options, answer: &mut Answer) {
    if findings.is_empty() {
        answer.push(b"none");
    }
    let mut separator = b"".as_slice();
    for finding in findings {
        answer.push(separator);
        if options.severity(finding.message).is_error() {
            answer.push(b"error:");
        } else {
            answer.push(b"warning:");
        }
        answer.push(finding.message.as_str().as_bytes());
        separator = b" ".as_slice();
    }
}

/// Appends each message with its offset.
fn push_offsets(findings: &[Finding], answer: &mut Answer) {
    if findings.is_empty() {
        answer.push(b"none");
    }
    let mut separator = b"".as_slice();
    for finding in findings {
        answer.push(separator);
        answer.push(finding.message.as_str().as_bytes());
        answer.push(b"@");
        answer.push_shown(finding.offset);
        separator = b" ".as_slice();
    }
}

/// The messages of findings.
fn messages_of(findings: &[Finding]) -> Messages {
    let mut messages = Messages::new();
    for finding in findings {
        messages.insert(finding.message);
    }
    messages
}

/// The messages that the options report.
fn reported(messages: Messages, options: &Options) -> Messages {
    let mut reported = Messages::new();
    for message in messages.iter() {
        if options.severity(message).is_reported() {
            reported.insert(message);
        }
    }
    reported
}
