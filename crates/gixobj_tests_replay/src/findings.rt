//! Answers with the findings about commits and tags, and with what git's parser takes.

use gixobj_base::hash::Kind;
use gixobj_fsck_findings::{fsck_commit, fsck_tag, is_parsed_commit, is_parsed_tag};
use gixobj_fsck_messages::{Finding, Message, Options, Override, Severity};
use gixobj_tests_recorded::answer::Answer;
use gixobj_tests_recorded::fields::{kind_of_ids, split_at_first, yes_or_no};

/// Answers with the findings about a commit or a tag: each with its level, its message and its offset.
///
/// A question: `commit` or `tag`, the kind of ids, `strict` or `default`, three overrides, each as `name=severity` or
/// `-`, and the object.
pub(crate) fn fsck_finding_answer(question: &[u8], answer: &mut Answer) {
    let (object, rest) = split_at_first(question, b' ');
    let (kind, rest) = split_at_first(rest, b' ');
    let (level, rest) = split_at_first(rest, b' ');
    let (first, rest) = split_at_first(rest, b' ');
    let (second, rest) = split_at_first(rest, b' ');
    let (third, bytes) = split_at_first(rest, b' ');
    let options = Options::new(level == b"strict".as_slice());
    let options = with_override(with_override(with_override(options, first), second), third);
    let bytes = answer.input(bytes);
    let is_commit = object == b"commit".as_slice();
    write_findings(
        is_commit,
        kind_of_ids(kind),
        bytes.as_slice(),
        &options,
        answer,
    );
}

/// The options with an override, if the field has one.
fn with_override(options: Options, field: &[u8]) -> Options {
    let (name, severity) = split_at_first(field, b'=');
    let mut options = options;
    if let Some(message) = Message::from_name(name) {
        let _ = options.set(message, override_of(severity));
    }
    options
}

/// The override of this name.
fn override_of(name: &[u8]) -> Override {
    match name {
        b"error" => Override::Error,
        b"warn" => Override::Warn,
        _ => Override::Ignore,
    }
}

/// The columns of the findings about an object.
fn write_findings(
    is_commit: bool,
    kind: Kind,
    bytes: &[u8],
    options: &Options,
    answer: &mut Answer,
) {
    let findings = if is_commit {
        fsck_commit(answer.alloc, kind, bytes, options)
    } else {
        fsck_tag(answer.alloc, kind, bytes, options)
    };
    match findings {
        Ok(findings) => {
            if findings.is_empty() {
                answer.write("none");
            }
            for finding in findings.as_slice() {
                write_finding(*finding, options, answer);
            }
        }
        Err(_) => answer.fail(),
    }
}

/// The column of a finding.
fn write_finding(finding: Finding, options: &Options, answer: &mut Answer) {
    answer.write_pair(level_of(finding.message, options), finding.message.as_str());
    answer.add_shown(finding.offset);
}

/// The level that git prints for a message.
fn level_of(message: Message, options: &Options) -> &'static str {
    match options.severity(message) {
        Severity::Fatal | Severity::Error => "error",
        Severity::Warn | Severity::Info => "warning",
        Severity::Ignore => "ignored",
    }
}

/// Answers with whether git's parser takes a commit or a tag.
pub(crate) fn parsed_answer(question: &[u8], answer: &mut Answer) {
    let (object, rest) = split_at_first(question, b' ');
    let (kind, bytes) = split_at_first(rest, b' ');
    let kind = kind_of_ids(kind);
    let bytes = answer.input(bytes);
    answer.write(yes_or_no(if object == b"commit".as_slice() {
        is_parsed_commit(kind, bytes.as_slice())
    } else {
        is_parsed_tag(kind, bytes.as_slice())
    }));
}
