//! Signing: the arguments of each call, and the outcome of each answer.

use crate::calls::{Maker, PROGRAM, ScriptedAnswer, Step, WHY, name_with};
use crate::objects::{Outcome, after_calls};
use gixobj_encode::encode;
use gixobj_hash::decode;
use gixobj_parse::signature::Format::{self, OpenPgp, Ssh, X509};
use gixobj_signature::signature::sign::{Error, Options, sign_payload};
use std::alloc::Global;

/// The confirmation of a signature.
pub(crate) const CREATED: &[u8] = b"[GNUPG:] SIG_CREATED x\n";

/// Answers of a program of OpenPGP or of X.509, and the outcomes of signing.
const GPG: &[(ScriptedAnswer, Outcome<'static>)] = &[
    (
        ScriptedAnswer::Ran(true, b"A\r\nB\r\n", CREATED, None),
        Outcome::Bytes(b"A\nB\n"),
    ),
    (
        ScriptedAnswer::Ran(true, b"A\rB\r\r\n\r", CREATED, None),
        Outcome::Bytes(b"A\rB\r\n\r"),
    ),
    (
        ScriptedAnswer::Ran(true, b"", b"x\r\n[GNUPG:] SIG_CREATED ", None),
        Outcome::Bytes(b""),
    ),
    (
        ScriptedAnswer::Ran(true, b"A\n", b"", None),
        Outcome::Error("MissingSignatureConfirmation"),
    ),
    (
        ScriptedAnswer::Ran(
            true,
            b"A\n",
            b"x [GNUPG:] SIG_CREATED x\n[GNUPG:] SIG_CREATED\n",
            None,
        ),
        Outcome::Error("MissingSignatureConfirmation"),
    ),
    (
        ScriptedAnswer::Ran(false, b"A\n", CREATED, None),
        Outcome::Error("Failed"),
    ),
    (ScriptedAnswer::NoFile, Outcome::Error("TemporaryFile")),
    (ScriptedAnswer::NotStarted, Outcome::Error("Spawn")),
    (
        ScriptedAnswer::NoCommunication,
        Outcome::Error("Communicate"),
    ),
    (ScriptedAnswer::NoTime, Outcome::Error("Communicate")),
    (ScriptedAnswer::NoMemory, Outcome::Error("OutOfMemory")),
];

/// Answers of a program of SSH, and the outcomes of signing.
const SSH: &[(ScriptedAnswer, Outcome<'static>)] = &[
    (
        ScriptedAnswer::Ran(true, b"", b"", Some(b"S\r\nT")),
        Outcome::Bytes(b"S\nT"),
    ),
    (
        ScriptedAnswer::Ran(true, b"S", CREATED, None),
        Outcome::Error("MissingSshSignature"),
    ),
    (
        ScriptedAnswer::Ran(false, b"", b"why", Some(b"S")),
        Outcome::Error("Failed"),
    ),
    (ScriptedAnswer::NoFile, Outcome::Error("TemporaryFile")),
    (ScriptedAnswer::NotStarted, Outcome::Error("Spawn")),
    (
        ScriptedAnswer::NoCommunication,
        Outcome::Error("Communicate"),
    ),
    (ScriptedAnswer::NoTime, Outcome::Error("Communicate")),
    (ScriptedAnswer::NoMemory, Outcome::Error("OutOfMemory")),
];

/// A key, and the parts of its call.
struct Key {
    key: &'static [u8],
    arguments: &'static str,
    files: &'static [&'static [u8]],
    input: Option<&'static [u8]>,
    /// The index of the file next to the result file.
    result: Option<usize>,
}

/// A key of OpenPGP or of X.509.
const GPG_KEY: &Key = &Key {
    key: b"K",
    arguments: "-x --status-fd=2 -bsau K",
    files: &[],
    input: Some(b"payload"),
    result: None,
};

/// Keys of SSH.
const SSH_KEYS: &[Key] = &[
    Key {
        key: b"K",
        arguments: "-x -Y sign -n git -f K @0",
        files: &[b"payload"],
        input: None,
        result: Some(0),
    },
    Key {
        key: b"keys/ssh-signing",
        arguments: "-x -Y sign -n git -f keys/ssh-signing @0",
        files: &[b"payload"],
        input: None,
        result: Some(0),
    },
    Key {
        key: b"key::k",
        arguments: "-x -Y sign -n git -f @0 -U @1",
        files: &[b"k", b"payload"],
        input: None,
        result: Some(1),
    },
    Key {
        key: b"key::",
        arguments: "-x -Y sign -n git -f @0 -U @1",
        files: &[b"", b"payload"],
        input: None,
        result: Some(1),
    },
    Key {
        key: b"ssh-k",
        arguments: "-x -Y sign -n git -f @0 -U @1",
        files: &[b"ssh-k", b"payload"],
        input: None,
        result: Some(1),
    },
];

/// Returns the call of a key, with this answer.
fn step_of(key: &Key, answer: ScriptedAnswer) -> Step<'static> {
    Step {
        program: PROGRAM,
        arguments: key.arguments,
        in_english: false,
        files: key.files,
        input: key.input,
        result: key.result,
        answer,
    }
}

/// Returns whether signing with this key has this outcome, by these calls only.
fn has_outcome(
    alloc: Global,
    format: Format,
    key: &[u8],
    steps: &[Step<'_>],
    outcome: Outcome<'_>,
) -> bool {
    let mut maker = Maker::new(alloc);
    let mut runner = maker.runner(steps);
    let options = Options {
        format,
        program: maker.bstring(PROGRAM),
        program_arguments: maker.bstrings(&[b"-x"]),
        signing_key: maker.bstring(key),
        environment: maker.environment(false),
    };
    let is_so = match &sign_payload(alloc, b"payload", options, &mut runner) {
        Ok(signature) =>
            matches!(outcome, Outcome::Bytes(wanted) if signature.as_bytes() == wanted),
        Err(error) => matches!(outcome, Outcome::Error(name) if name_of(error) == name),
    };
    after_calls(Some(is_so), &maker, &runner) == Some(true)
}

/// Returns the name of an error, if its payload is as expected, or of its cause if the error comes before any
/// call.
pub(crate) fn name_of(error: &Error) -> &'static str {
    match error {
        Error::Decode(decode::Error::Malformed) => "Malformed",
        Error::Encode(encode::Error::IllegalActor) => "IllegalActor",
        Error::Encode(encode::Error::EmptyValue) => "EmptyValue",
        Error::Encode(encode::Error::StartsWithDash) => "StartsWithDash",
        Error::MissingSigningKey => "MissingSigningKey",
        Error::TemporaryFile(why) => name_with("TemporaryFile", why, WHY),
        Error::Spawn(why) => name_with("Spawn", why, WHY),
        Error::Communicate(why) => name_with("Communicate", why, WHY),
        Error::Failed { program, .. } => name_with("Failed", program, PROGRAM),
        Error::MissingSignatureConfirmation => "MissingSignatureConfirmation",
        Error::MissingSshSignature => "MissingSshSignature",
        Error::OutOfMemory => "OutOfMemory",
        _ => "another",
    }
}

/// Returns the number of the first of these rows whose outcome signing with this key doesn't have.
fn failing_row(
    alloc: Global,
    format: Format,
    key: &Key,
    rows: &[(ScriptedAnswer, Outcome<'static>)],
) -> Option<usize> {
    for (number, &(answer, outcome)) in rows.iter().enumerate() {
        if !has_outcome(alloc, format, key.key, &[step_of(key, answer)], outcome) {
            return Some(number);
        }
    }
    None
}

#[test]
fn signs_by_open_pgp_and_x509(rt: HostRuntime) {
    for format in [OpenPgp, X509] {
        let failing = failing_row(rt.alloc(), format, GPG_KEY, GPG);
        assert!(rt; failing.is_none(), "{format:?} {failing:?}");
    }
}

#[test]
fn signs_by_ssh_with_each_key(rt: HostRuntime) {
    for key in SSH_KEYS {
        let failing = failing_row(rt.alloc(), Ssh, key, SSH);
        assert!(rt; failing.is_none(), "{} {failing:?}", key.arguments);
    }
}

#[test]
fn without_a_key_no_call_is_made(rt: HostRuntime) {
    let missing_key = Outcome::Error("MissingSigningKey");
    for format in [OpenPgp, X509, Ssh] {
        assert!(rt;
            has_outcome(rt.alloc(), format, b"", &[], missing_key),
            "{format:?}"
        );
    }
}
