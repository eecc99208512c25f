//! Answers about objects that programs signed and verified. The rows have the output of each program.

use crate::signatures::{bytes_if_some, format_of, level_of};
use bstr::{BStr, BString};
use gixobj_base::date::parse_header;
use gixobj_base::parse::split_at_byte;
use gixobj_base::{WriteTo, hash};
use gixobj_codec::{CommitRef, CommitRefIter, TagRef, TagRefIter};
use gixobj_parse::signature::Format;
use gixobj_signature::signature::verify::{self, Outcome, TrustLevel};
use gixobj_signature::signature::{Call, Output, RunError, Runner, SignedData, Word, sign};
use gixobj_tests_recorded::answer::{Answer, Form};
use gixobj_tests_recorded::fields::{fault, kind_of_ids, split_at_first};
use gixobj_tests_recorded::objects::encoded;
use std::alloc::Global;

/// A call of a row: the object and its ids, the format and the minimum trust, the program with its environment and
/// arguments; a key or the allowed signers, the revoked keys, and the time.
#[derive(Drop)]
struct Task<'a> {
    object: &'a [u8],
    ids: hash::Kind,
    format: Format,
    minimum: TrustLevel,
    environment: Vec<(BString, BString)>,
    program: BString,
    arguments: Vec<BString>,
    key: Vec<u8>,
    revoked: Option<Vec<u8>>,
    time: &'a [u8],
}

/// Answers with a signed object or a verified signature. The programs' outputs are in the row.
pub(crate) fn program_answer(question: &[u8], answer: &mut Answer) {
    let mut row = Row {
        alloc: answer.alloc,
        rest: question,
    };
    let (call, head) = split_at_first(row.next(), b' ');
    let input = answer.unescape(row.next());
    let task = task_of(head, &mut row, answer);
    match call {
        b"sign" => write_signed(input.as_slice(), task, &mut row, answer),
        _ => write_verified(input.as_slice(), task, &mut row, answer),
    }
    if !row.rest.is_empty() {
        answer.push(b", not all calls");
    }
}

/// The call in the rest of the first column and in the next five columns.
fn task_of<'a>(head: &'a [u8], row: &mut Row<'a>, answer: &mut Answer) -> Task<'a> {
    let (object, rest) = split_at_first(head, b' ');
    let (ids, rest) = split_at_first(rest, b' ');
    let (format, minimum) = split_at_first(rest, b' ');
    let environment = environment_of(row.next(), answer);
    let (program, arguments) = split_at_first(row.next(), b' ');
    Task {
        object,
        ids: kind_of_ids(ids),
        format: format_of(format),
        minimum: level_of(minimum),
        environment,
        program: answer.copied(program),
        arguments: arguments_of(arguments, answer),
        key: answer.unescape(row.next()),
        revoked: bytes_if_some(row.next(), answer),
        time: row.next(),
    }
}

/// Arguments, separated by spaces.
fn arguments_of(column: &[u8], answer: &mut Answer) -> Vec<BString> {
    let mut arguments = Vec::new(answer.alloc);
    if column.is_empty() {
        return arguments;
    }
    for argument in column.split(|byte| *byte == b' ') {
        if arguments.push(answer.copied(argument)).is_err() {
            answer.fail();
        }
    }
    arguments
}

/// Names and values, separated by spaces.
fn environment_of(column: &[u8], answer: &mut Answer) -> Vec<(BString, BString)> {
    let mut pairs = Vec::new(answer.alloc);
    for pair in column.split(|byte| *byte == b' ') {
        if let Some((name, value)) = split_at_byte(pair, b'=') {
            let pair = (answer.copied(name), answer.copied(value));
            if pairs.push(pair).is_err() {
                answer.fail();
            }
        }
    }
    pairs
}

/// Adds the encoding of the signed object, or the error.
fn write_signed(input: &[u8], task: Task<'_>, row: &mut Row<'_>, answer: &mut Answer) {
    let options = sign::Options {
        format: task.format,
        program: task.program,
        program_arguments: task.arguments,
        signing_key: BString::new(task.key),
        environment: task.environment,
    };
    match task.object {
        b"tag" => write_signed_tag(input, task.ids, options, row, answer),
        _ => write_signed_commit(input, task.ids, options, row, answer),
    }
}

/// Adds the encoding of the signed tag, or the error.
fn write_signed_tag(
    input: &[u8],
    ids: hash::Kind,
    options: sign::Options,
    row: &mut Row<'_>,
    answer: &mut Answer,
) {
    match TagRef::from_bytes(input, ids) {
        Ok(tag) => match tag.sign(answer.alloc, options, row) {
            Ok(signed) => write_encoded(&signed, answer),
            Err(error) => write_failure(&error, answer),
        },
        Err(error) => answer.write(fault(&error)),
    }
}

/// Adds the encoding of the signed commit, or the error.
fn write_signed_commit(
    input: &[u8],
    ids: hash::Kind,
    options: sign::Options,
    row: &mut Row<'_>,
    answer: &mut Answer,
) {
    match CommitRef::from_bytes(answer.alloc, input, ids) {
        Ok(commit) => match commit.sign(answer.alloc, options, row) {
            Ok(signed) => write_encoded(&signed, answer),
            Err(error) => write_failure(&error, answer),
        },
        Err(error) => answer.write(fault(&error)),
    }
}

/// Adds the encoding of a signed object.
fn write_encoded<T: WriteTo>(object: &T, answer: &mut Answer)
    requires { T.can_write object.now }
{
    let (outcome, out) = encoded(object, answer);
    answer.write_bytes(outcome, out.as_slice());
}

/// Adds the error of signing.
fn write_failure(error: &sign::Error, answer: &mut Answer) {
    match error {
        sign::Error::Failed { program, output } => {
            answer.write_bytes("err Failed", program.as_bytes());
            answer.add_bytes(output.as_bytes());
        }
        error => answer.write_shown("err", error),
    }
}

/// Adds the result of verifying the signature of an object.
fn write_verified(input: &[u8], task: Task<'_>, row: &mut Row<'_>, answer: &mut Answer) {
    let (object, ids) = (task.object, task.ids);
    let options = options_of(task);
    match object {
        b"tag" => write_verified_tag(input, options, row, answer),
        _ => write_verified_commit(input, ids, options, row, answer),
    }
}

/// Adds the result of verifying the signature of a tag.
fn write_verified_tag(
    input: &[u8],
    options: verify::Options,
    row: &mut Row<'_>,
    answer: &mut Answer,
) {
    match TagRefIter::signature(input) {
        Some((signature, signed)) => write_verdict(signed, signature.bytes, options, row, answer),
        None => answer.write("none"),
    }
}

/// Adds the result of verifying the signature of a commit.
fn write_verified_commit(
    input: &[u8],
    ids: hash::Kind,
    options: verify::Options,
    row: &mut Row<'_>,
    answer: &mut Answer,
) {
    match CommitRefIter::signature(answer.alloc, input, ids) {
        Ok(Some((signature, signed))) => write_verdict(
            signed,
            BStr::new(signature.as_slice()),
            options,
            row,
            answer,
        ),
        Ok(None) => answer.write("none"),
        Err(error) => answer.write(fault(&error)),
    }
}

/// Options of verification.
fn options_of(task: Task<'_>) -> verify::Options {
    match task.format {
        Format::OpenPgp => verify::Options::OpenPgp {
            program: task.program,
            program_arguments: task.arguments,
            environment: task.environment,
            minimum_trust: task.minimum,
        },
        Format::X509 => verify::Options::X509 {
            program: task.program,
            program_arguments: task.arguments,
            environment: task.environment,
            minimum_trust: task.minimum,
        },
        Format::Ssh => verify::Options::Ssh {
            program: task.program,
            program_arguments: task.arguments,
            environment: task.environment,
            allowed_signers: BString::new(task.key),
            revocation_file: task.revoked.map(BString::new),
            verify_time: parse_header(task.time).unwrap_or_default(),
            minimum_trust: task.minimum,
        },
    }
}

/// Adds the result of verifying a signature of these bytes.
fn write_verdict(
    signed: SignedData<'_>,
    signature: BStr<'_>,
    options: verify::Options,
    row: &mut Row<'_>,
    answer: &mut Answer,
) {
    match signed.verify(answer.alloc, signature, options, row) {
        Ok(outcome) => add_outcome(&outcome, answer),
        Err(verify::Error::Spawn(requested)) => answer.write_bytes("asked", requested.as_bytes()),
        Err(error) => answer.write_shown("err", &error),
    }
}

/// Adds an outcome.
fn add_outcome(outcome: &Outcome, answer: &mut Answer) {
    let (status, trust) = (outcome.status, outcome.trust_level);
    answer.push_shown(format_args!("{status:?} | {trust:?}"));
    add_part(&outcome.signer, answer);
    add_part(&outcome.key, answer);
    add_part(&outcome.fingerprint, answer);
    add_part(&outcome.primary_key_fingerprint, answer);
    answer.add(if outcome.is_valid() {
        "| valid"
    } else {
        "| not valid"
    });
}

/// Adds bytes, or `-`.
fn add_part(bytes: &Option<BString>, answer: &mut Answer) {
    answer.add("|");
    match bytes {
        Some(bytes) => answer.add_bytes(bytes.as_bytes()),
        None => answer.add("-"),
    }
}

/// The remaining columns of a row. As a runner it consumes five for each call: the expected call, and its
/// output. It starts no program, and reports any other call in its error.
#[derive(Drop)]
struct Row<'a> {
    alloc: Global,
    rest: &'a [u8],
}

impl<'a> Row<'a> {
    /// The next column.
    fn next(&mut self) -> &'a [u8] {
        let (column, rest) = split_at_first(self.rest, b'\t');
        self.rest = rest;
        column
    }
}

impl Runner for Row<'_> {
    ghost use Rattle.std.specs.Prelude.{⊤};

    ghost runs = { λ _ _ _ _. ⊤ };

    fn run(&mut self, call: &Call) -> Result<Output, RunError> {
        let mut requested = Answer::new(self.alloc, Form::Escaped);
        push_call(call, &mut requested);
        if self.next() != requested.as_slice() {
            return match requested.finish() {
                Ok(requested) => Err(RunError::Spawn(BString::new(requested))),
                Err(_) => Err(RunError::OutOfMemory),
            };
        }
        let output = Output {
            success: self.next() == b"ok".as_slice(),
            stdout: requested.unescape(self.next()),
            stderr: requested.unescape(self.next()),
            result: bytes_if_some(self.next(), &mut requested),
        };
        match requested.finish() {
            Ok(_) => Ok(output),
            Err(_) => Err(RunError::OutOfMemory),
        }
    }
}

/// Appends a call in the format of the rows: environment, program and arguments, contents of the files,
/// input, and the file next to which the result is.
fn push_call(call: &Call, requested: &mut Answer) {
    push_environment(&call.environment, requested);
    requested.push_escaped(call.program.as_bytes());
    push_arguments(&call.words, requested);
    push_files(&call.files, requested);
    if let Some(input) = &call.input {
        requested.push(b" <");
        requested.push_in(Form::Quoted, input.as_bytes());
    }
    if let Some(number) = call.result {
        requested.add_shown(format_args!(">@{number}"));
    }
}

/// Appends environment variables.
fn push_environment(environment: &Vec<(BString, BString)>, requested: &mut Answer) {
    for (name, value) in environment {
        requested.push_escaped(name.as_bytes());
        requested.push(b"=");
        requested.push_escaped(value.as_bytes());
        requested.push(b" ");
    }
}

/// Appends arguments.
fn push_arguments(arguments: &Vec<Word>, requested: &mut Answer) {
    for argument in arguments {
        match argument {
            Word::Text(bytes) => requested.add_bytes(bytes.as_bytes()),
            Word::File(number) => requested.add_shown(format_args!("@{number}")),
            Word::VerifyTime(time) => {
                requested.add_shown(format_args!("@time={},{}", time.seconds, time.offset))
            }
        }
    }
}

/// Appends the contents of the files.
fn push_files(files: &Vec<BString>, requested: &mut Answer) {
    for (number, content) in files.iter().enumerate() {
        requested.add_shown(format_args!("@{number}="));
        requested.push_in(Form::Quoted, content.as_bytes());
    }
}
