//! Helpers for tests of signed commits and tags: `gpg` and `ssh-keygen` without further arguments, and the
//! outcomes.

use crate::calls::{Maker, ScriptedAnswer, Step};
use crate::scripted::Played;
use crate::signing::name_of;
use gixobj_encode::{WriteTo, encode};
use gixobj_hash::decode;
use gixobj_hash::hash::Kind;
use gixobj_parse::signature::Format;
use gixobj_signature::signature::SignedData;
use gixobj_signature::signature::sign::{Error, Options, is_literal_ssh_key};
use std::alloc::Global;

/// A row of an object to be signed.
#[derive(Clone, Copy)]
pub(crate) struct Row<'a> {
    /// The encoding of the object.
    pub(crate) encoding: &'a [u8],
    /// The kind of its ids.
    pub(crate) hash: Kind,
    /// The name of the key, or the literal key `k` of SSH.
    pub(crate) key: &'static [u8],
    /// The input of the one call, and its scripted answer; `None` if no call is made.
    pub(crate) call: Option<(&'a [u8], ScriptedAnswer)>,
    /// The expected outcome.
    pub(crate) outcome: Outcome<'a>,
}

/// The outcome of signing bytes or an object.
#[derive(Clone, Copy)]
pub(crate) enum Outcome<'a> {
    /// A signature of these bytes, or an object with this encoding.
    Bytes(&'a [u8]),
    /// The error of this name.
    Error(&'static str),
}

/// Returns the options of signing with this key: by `ssh-keygen` if it is literal, else by `gpg`.
pub(crate) fn signing_options(maker: &mut Maker, key: &[u8]) -> Options {
    let (format, program) = if is_literal_ssh_key(key).is_some() {
        (Format::Ssh, b"ssh-keygen".as_slice())
    } else {
        (Format::OpenPgp, b"gpg".as_slice())
    };
    Options {
        format,
        program: maker.bstring(program),
        program_arguments: Vec::new(maker.alloc),
        signing_key: maker.bstring(key),
        environment: maker.environment(false),
    }
}

/// Returns the call that signs these bytes by `gpg` with the key `K`, with this answer.
pub(crate) fn gpg_call(payload: &[u8], answer: ScriptedAnswer) -> Step<'_> {
    Step {
        program: b"gpg",
        arguments: "--status-fd=2 -bsau K",
        in_english: false,
        files: &[],
        input: Some(payload),
        result: None,
        answer,
    }
}

/// The call that signs by `ssh-keygen` with the literal key `k`, without the file of the payload and an answer.
const SSH_CALL: &Step<'static> = &Step {
    program: b"ssh-keygen",
    arguments: "-Y sign -n git -f @0 -U @1",
    in_english: false,
    files: &[b"k"],
    input: None,
    result: Some(1),
    answer: ScriptedAnswer::NoMemory,
};

/// Returns the runner that expects the call of a row, if it makes one, and no other.
pub(crate) fn runner_of_row(maker: &mut Maker, row: &Row<'_>) -> Played {
    let Some((payload, answer)) = row.call else {
        return maker.runner(&[]);
    };
    if is_literal_ssh_key(row.key).is_none() {
        return maker.runner(&[gpg_call(payload, answer)]);
    }
    let mut call = maker.call(SSH_CALL);
    let file = maker.bstring(payload);
    maker.append(&mut call.files, file);
    let answer = maker.answer(answer);
    let mut runner = maker.runner(&[]);
    maker.append(&mut runner.steps, (call, answer));
    runner
}

/// Returns the answer, or false if an expected call wasn't made; `None` if memory ran out before it.
pub(crate) fn after_calls(answer: Option<bool>, maker: &Maker, runner: &Played) -> Option<bool> {
    match answer {
        Some(is_right) if !maker.is_failed => Some(is_right && runner.steps.is_empty()),
        _ => None,
    }
}

/// Returns whether the outcome is the encoding of this signed object, or the error of writing it; `None` if
/// memory runs out.
pub(crate) fn is_object<T: WriteTo>(alloc: Global, object: &T, outcome: Outcome<'_>) -> Option<bool>
    requires { T.can_write object.now }
{
    let mut encoding = Vec::new(alloc);
    match object.write_to(alloc, &mut encoding) {
        Ok(()) => Some(matches!(outcome, Outcome::Bytes(wanted) if wanted == encoding.as_slice())),
        Err(error) => is_error_of(&Error::Encode(error), outcome),
    }
}

/// Returns whether the outcome is this error; `None` if memory ran out in the call, a copy or a writer.
pub(crate) fn is_error_of(error: &Error, outcome: Outcome<'_>) -> Option<bool> {
    match error {
        Error::OutOfMemory
        | Error::Decode(decode::Error::OutOfMemory)
        | Error::Encode(encode::Error::Writer(_)) => None,
        _ => Some(matches!(outcome, Outcome::Error(name) if name_of(error) == name)),
    }
}

/// Returns whether signed data are these bytes; `None` if memory runs out.
pub(crate) fn has_bytes(alloc: Global, data: &SignedData<'_>, bytes: &[u8]) -> Option<bool> {
    match data.to_bstring(alloc) {
        Ok(copy) => Some(copy.as_bytes() == bytes),
        Err(_) => None,
    }
}
