//! Verifying: the arguments of each call, and the outcome of each answer.

use crate::calls::{Maker, PROGRAM, ScriptedAnswer, Step, WHY, name_with, time};
use crate::objects::after_calls;
use bstr::{BStr, BString};
use gixobj_parse::signature::Format;
use gixobj_signature::signature::SignedData;
use gixobj_signature::signature::verify::TrustLevel::{self, Fully, Marginal, Ultimate};
use gixobj_signature::signature::verify::{Error, Options, Outcome};
use std::alloc::{AllocError, Global};

/// An OpenPGP signature.
const PGP: &[u8] = b"-----BEGIN PGP SIGNATURE-----\n";

/// An X.509 signature.
const X509: &[u8] = b"-----BEGIN SIGNED MESSAGE-----\n";

/// An SSH signature.
const SSH: &[u8] = b"-----BEGIN SSH SIGNATURE-----\n";

/// The data that each signature signs.
const DATA: &[u8] = b"signed data";

/// The output of programs of OpenPGP and of X.509 for a good signature, fully trusted.
const GOOD: &[u8] = b"[GNUPG:] GOODSIG K A\n[GNUPG:] VALIDSIG F\n[GNUPG:] TRUST_FULLY\n";
/// The output of programs of OpenPGP and of X.509 for a good signature, marginally trusted.
const SOME: &[u8] = b"[GNUPG:] GOODSIG K A\n[GNUPG:] TRUST_MARGINAL\n";
/// The output of programs of OpenPGP and of X.509 for a bad signature.
const BAD: &[u8] = b"[GNUPG:] BADSIG K A\n[GNUPG:] TRUST_ULTIMATE\n";
/// The output of a program of SSH for a good signature.
const GOOD_SSH: &[u8] = b"Good \"git\" signature for A with X key F\n";

/// The answer of a program of OpenPGP or of X.509, the minimum trust, and the outcome.
type Gpg = (ScriptedAnswer, TrustLevel, &'static str);

/// Rows of programs of OpenPGP and of X.509.
const GPG: &[Gpg] = &[
    (
        ScriptedAnswer::Ran(true, GOOD, b"human", None),
        Fully,
        "Good Fully A K F [human] true",
    ),
    (
        ScriptedAnswer::Ran(true, GOOD, b"", None),
        Ultimate,
        "Good Fully A K F [] false",
    ),
    (
        ScriptedAnswer::Ran(false, GOOD, b"", None),
        Fully,
        "Good Fully A K F [] false",
    ),
    (
        ScriptedAnswer::Ran(true, SOME, b"", None),
        Marginal,
        "Good Marginal A K - [] true",
    ),
    (
        ScriptedAnswer::Ran(true, SOME, b"", None),
        Fully,
        "Good Marginal A K - [] false",
    ),
    (
        ScriptedAnswer::Ran(true, BAD, b"", None),
        Marginal,
        "Bad Ultimate A K - [] false",
    ),
    (
        ScriptedAnswer::Ran(true, b"", SOME, None),
        TrustLevel::Undefined,
        "Unknown Undefined - - - [[GNUPG:] GOODSIG K A\n[GNUPG:] TRUST_MARGINAL\n] false",
    ),
    (ScriptedAnswer::NoFile, Fully, "TemporaryFile"),
    (ScriptedAnswer::NotStarted, Fully, "Spawn"),
    (ScriptedAnswer::NoCommunication, Fully, "Communicate"),
    (ScriptedAnswer::NoTime, Fully, "CommitTime"),
    (ScriptedAnswer::NoMemory, Fully, "OutOfMemory"),
];

/// A row of a program of SSH.
struct Row {
    /// The minimum trust, and the file of revoked keys.
    how: (TrustLevel, Option<&'static [u8]>),
    /// The arguments of each call, and its answer.
    calls: &'static [(&'static str, ScriptedAnswer)],
    /// The expected outcome.
    expected: &'static str,
}

/// Full trust as the minimum, and a file of revoked keys.
const REVOKED: (TrustLevel, Option<&[u8]>) = (Fully, Some(b"revoked"));

/// Arguments of the call for the principals.
const PRINCIPALS: &str = "-x -Y find-principals -f allowed -s @0 @time";
/// Arguments of the call without a principal.
const ANY: &str = "-x -Y check-novalidate -n git -s @0 @time";
/// Arguments of the call for the principal `A`.
const A: &str = "-x -Y verify -n git -f allowed -I A -s @0 @time -r revoked";
/// Arguments of the call for the principal `A`, without a file of revoked keys.
const A_WITHOUT_FILE: &str = "-x -Y verify -n git -f allowed -I A -s @0 @time";
/// Arguments of the call for the principal `B`.
const B: &str = "-x -Y verify -n git -f allowed -I B -s @0 @time -r revoked";
/// Arguments of the call for the principal `fixture`.
const FIXTURE: &str = "-x -Y verify -n git -f allowed -I fixture -s @0 @time -r revoked";
/// The output of a program of SSH for a good signature of `fixture`.
const GOOD_FIXTURE: &[u8] = b"Good \"git\" signature for fixture with ED25519 key SHA256:fixture\n";
/// Arguments of the call for a principal of bytes that are not UTF-8.
const NO_UTF8: &str = "-x -Y verify -n git -f allowed -I \u{fffd} -s @0 @time -r revoked";

/// Rows of programs of SSH.
const ROWS: &[Row] = &[
    Row {
        how: REVOKED,
        calls: &[
            (PRINCIPALS, ScriptedAnswer::Ran(true, b"A\n", b"", None)),
            (A, ScriptedAnswer::Ran(true, GOOD_SSH, b"", None)),
        ],
        expected: "Good Fully A F F [Good \"git\" signature for A with X key F\n] true",
    },
    Row {
        how: REVOKED,
        calls: &[
            (PRINCIPALS, ScriptedAnswer::Ran(true, b"A\n", b"", None)),
            (A, ScriptedAnswer::Ran(false, GOOD_SSH, b"", None)),
        ],
        expected: "Good Fully - F F [Good \"git\" signature for A with X key F\n] false",
    },
    Row {
        how: REVOKED,
        calls: &[
            (
                PRINCIPALS,
                ScriptedAnswer::Ran(true, b"fixture\n", b"", None),
            ),
            (FIXTURE, ScriptedAnswer::Ran(false, GOOD_FIXTURE, b"", None)),
        ],
        expected: "Good Fully - SHA256:fixture SHA256:fixture \
            [Good \"git\" signature for fixture with ED25519 key SHA256:fixture\n] false",
    },
    Row {
        how: REVOKED,
        calls: &[
            (PRINCIPALS, ScriptedAnswer::Ran(false, b"A\n", b"", None)),
            (ANY, ScriptedAnswer::Ran(true, GOOD_SSH, b"", None)),
        ],
        expected: "Good Undefined - F F [Good \"git\" signature for A with X key F\n] false",
    },
    Row {
        how: REVOKED,
        calls: &[
            (
                PRINCIPALS,
                ScriptedAnswer::Ran(true, b"\n \t\n\r\n", b"", None),
            ),
            (ANY, ScriptedAnswer::Ran(true, b"", b"no", None)),
        ],
        expected: "Bad Undefined - - - [no] false",
    },
    Row {
        how: REVOKED,
        calls: &[
            (
                PRINCIPALS,
                ScriptedAnswer::Ran(true, b"A\n\n B \t\r\nC", b"", None),
            ),
            (A, ScriptedAnswer::Ran(true, b"Bad", b"", None)),
            (B, ScriptedAnswer::Ran(true, GOOD_SSH, b"", None)),
        ],
        expected: "Good Fully B F F [Good \"git\" signature for A with X key F\n] true",
    },
    Row {
        how: REVOKED,
        calls: &[
            (PRINCIPALS, ScriptedAnswer::Ran(true, b"A\nB", b"", None)),
            (A, ScriptedAnswer::Ran(false, GOOD_SSH, b"", None)),
            (B, ScriptedAnswer::Ran(false, b"out", b"err", None)),
        ],
        expected: "Bad Fully - - - [outerr] false",
    },
    Row {
        how: REVOKED,
        calls: &[
            (PRINCIPALS, ScriptedAnswer::Ran(true, b"\xff\n", b"", None)),
            (NO_UTF8, ScriptedAnswer::Ran(true, b"Good", b"", None)),
        ],
        expected: "Bad Fully \u{fffd} - - [Good] false",
    },
    Row {
        how: REVOKED,
        calls: &[(PRINCIPALS, ScriptedAnswer::NoTime)],
        expected: "CommitTime",
    },
    Row {
        how: REVOKED,
        calls: &[(PRINCIPALS, ScriptedAnswer::NoFile)],
        expected: "TemporaryFile",
    },
    Row {
        how: REVOKED,
        calls: &[
            (PRINCIPALS, ScriptedAnswer::Ran(true, b"A\nB", b"", None)),
            (A, ScriptedAnswer::NoCommunication),
        ],
        expected: "Communicate",
    },
    Row {
        how: REVOKED,
        calls: &[
            (PRINCIPALS, ScriptedAnswer::Ran(true, b"", b"", None)),
            (ANY, ScriptedAnswer::NotStarted),
        ],
        expected: "Spawn",
    },
    Row {
        how: REVOKED,
        calls: &[(PRINCIPALS, ScriptedAnswer::NoMemory)],
        expected: "OutOfMemory",
    },
    Row {
        how: (Ultimate, None),
        calls: &[
            (PRINCIPALS, ScriptedAnswer::Ran(true, b"A\n", b"", None)),
            (
                A_WITHOUT_FILE,
                ScriptedAnswer::Ran(true, GOOD_SSH, b"", None),
            ),
        ],
        expected: "Good Fully A F F [Good \"git\" signature for A with X key F\n] false",
    },
];

/// The format of the program, the minimum trust, and the file of revoked keys.
pub(crate) type How = (Format, TrustLevel, Option<&'static [u8]>);

/// Returns the options of verifying.
pub(crate) fn options_of(maker: &mut Maker, how: How) -> Options {
    let (format, minimum_trust, revoked) = how;
    let program = maker.bstring(PROGRAM);
    let program_arguments = maker.bstrings(&[b"-x"]);
    let environment = maker.environment(false);
    match format {
        Format::OpenPgp => Options::OpenPgp {
            program,
            program_arguments,
            environment,
            minimum_trust,
        },
        Format::X509 => Options::X509 {
            program,
            program_arguments,
            environment,
            minimum_trust,
        },
        Format::Ssh => Options::Ssh {
            program,
            program_arguments,
            environment,
            allowed_signers: maker.bstring(b"allowed"),
            revocation_file: maker.bstring_if_some(revoked),
            verify_time: time(),
            minimum_trust,
        },
    }
}

/// Returns the call of a program of this format, with these arguments and this answer.
fn step_of(format: Format, arguments: &'static str, answer: ScriptedAnswer) -> Step<'static> {
    let (files, input): (&'static [&'static [u8]], Option<&'static [u8]>) = match format {
        Format::OpenPgp => (&[PGP], Some(DATA)),
        Format::X509 => (&[X509, DATA], None),
        Format::Ssh if arguments == PRINCIPALS => (&[SSH], Some(b"")),
        Format::Ssh => (&[SSH], Some(DATA)),
    };
    Step {
        program: PROGRAM,
        arguments,
        in_english: format == Format::Ssh,
        files,
        input,
        result: None,
        answer,
    }
}

/// Returns whether verifying this signature has this outcome, by these calls only.
fn has_outcome(
    alloc: Global,
    signature: &[u8],
    how: How,
    calls: &[(&'static str, ScriptedAnswer)],
    expected: &str,
) -> bool {
    let mut maker = Maker::new(alloc);
    let mut runner = maker.runner(&[]);
    for &(arguments, answer) in calls {
        maker.expect(&mut runner, &step_of(how.0, arguments, answer));
    }
    let options = options_of(&mut maker, how);
    let signed = SignedData::new(b"signed", b" data");
    let actual = signed.verify(alloc, BStr::new(signature), options, &mut runner);
    let is_so = match &format_result(alloc, &actual) {
        Ok(formatted) => formatted.as_str() == expected,
        Err(_) => false,
    };
    after_calls(Some(is_so), &maker, &runner) == Some(true)
}

/// Formats an outcome, or an error: its name, or the formats of the program and of the signature.
fn format_result(alloc: Global, actual: &Result<Outcome, Error>) -> Result<String, AllocError> {
    match actual {
        Ok(outcome) => format_outcome(alloc, outcome),
        Err(
            Error::FormatMismatch {
                program_format,
                signature_format,
            },
        ) => format!(in alloc; "{program_format:?} {signature_format:?}"),
        Err(error) => {
            let name = name_of(error);
            format!(in alloc; "{name}")
        }
    }
}

/// Formats an outcome: its fields, the output for users in brackets, and whether it is valid.
fn format_outcome(alloc: Global, outcome: &Outcome) -> Result<String, AllocError> {
    let (status, trust_level) = (outcome.status, outcome.trust_level);
    let signer = shown(outcome.signer.as_ref());
    let key = shown(outcome.key.as_ref());
    let fingerprint = shown(outcome.fingerprint.as_ref());
    let output = shown(Some(&outcome.output));
    let is_valid = outcome.is_valid();
    format!(in alloc;
        "{status:?} {trust_level:?} {signer} {key} {fingerprint} [{output}] {is_valid}"
    )
}

/// Returns a byte string as UTF-8, or `-` if there is none.
fn shown(bytes: Option<&BString>) -> &str {
    match bytes {
        Some(bytes) => str::from_utf8(bytes.as_bytes()).unwrap_or("?"),
        None => "-",
    }
}

/// Returns the name of an error, if its payload is as expected.
fn name_of(error: &Error) -> &'static str {
    match error {
        Error::UnsupportedFormat => "UnsupportedFormat",
        Error::TemporaryFile(why) => name_with("TemporaryFile", why, WHY),
        Error::Spawn(why) => name_with("Spawn", why, WHY),
        Error::Communicate(why) => name_with("Communicate", why, WHY),
        Error::CommitTime(why) => name_with("CommitTime", why, WHY),
        Error::OutOfMemory => "OutOfMemory",
        _ => "another",
    }
}

/// Signatures of OpenPGP and of X.509, and the arguments of the call of each.
const CALLS: &[(Format, &[u8], &str)] = &[
    (
        Format::OpenPgp,
        PGP,
        "-x --keyid-format=long --status-fd=1 --verify @0 -",
    ),
    (Format::X509, X509, "-x --status-fd=1 --verify @0 @1"),
];

/// Returns whether verifying a signature of OpenPGP and of X.509 has the outcome of a row.
fn has_row_outcome(alloc: Global, row: &Gpg) -> bool {
    let (answer, minimum, expected) = *row;
    for &(format, signature, arguments) in CALLS {
        let calls = &[(arguments, answer)];
        if !has_outcome(alloc, signature, (format, minimum, None), calls, expected) {
            return false;
        }
    }
    true
}

#[test]
fn verifies_by_open_pgp_and_x509(rt: HostRuntime) {
    for (number, row) in GPG.iter().enumerate() {
        assert!(rt; has_row_outcome(rt.alloc(), row), "{number}");
    }
}

/// With a file of revoked keys, and without.
#[test]
fn verifies_by_ssh(rt: HostRuntime) {
    for (number, row) in ROWS.iter().enumerate() {
        let how = (Format::Ssh, row.how.0, row.how.1);
        let is_so = has_outcome(rt.alloc(), SSH, how, row.calls, row.expected);
        assert!(rt; is_so, "{number}");
    }
}

/// A program's format, bytes that it doesn't verify, and the error: the formats, or the name for bytes that
/// are no signature.
const MISMATCHES: &[(Format, &[u8], &str)] = &[
    (Format::OpenPgp, X509, "OpenPgp X509"),
    (Format::OpenPgp, SSH, "OpenPgp Ssh"),
    (Format::OpenPgp, b"not a signature", "UnsupportedFormat"),
    (Format::X509, PGP, "X509 OpenPgp"),
    (Format::X509, SSH, "X509 Ssh"),
    (Format::X509, b"not a signature", "UnsupportedFormat"),
    (Format::Ssh, PGP, "Ssh OpenPgp"),
    (Format::Ssh, X509, "Ssh X509"),
    (Format::Ssh, b"not a signature", "UnsupportedFormat"),
];

/// No call is made for a signature of another format, or for bytes that are no signature.
#[test]
fn format_mismatch(rt: HostRuntime) {
    for &(program, signature, expected) in MISMATCHES {
        let how = (program, Fully, None);
        let is_so = has_outcome(rt.alloc(), signature, how, &[], expected);
        assert!(rt; is_so, "{program:?} {expected}");
    }
}
