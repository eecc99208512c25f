//! Verification of OpenPGP and X.509 signatures by one call (gpg(1), `--verify`).
ghost use Rattle.std.specs.Prelude.{◌≡◌, IfOk, Some, map};
ghost use Rattle.std.specs.Option.{option_map};
ghost use Rattle.bstr.specs.Owned.{bstring_bytes};
ghost use Rattle.gixobj_signature_reports.specs.Calls.{call_view, output_view, word_view};
ghost use Rattle.gixobj_signature_reports.specs.Outcomes.{outcome_view};
ghost use Rattle.gixobj_parse.specs.declared.signature.Format.TheVariants as format;
ghost use Rattle.gixobj_signature.specs.SignedBytes.{signed_bytes};
ghost use Rattle.gixobj_signature.specs.Verifiers.{by_open_pgp, by_x509, program_of};
ghost use Rattle.gixobj_signature.specs.VerifyingCalls.{open_pgp_call, open_pgp_arguments, full_call, x509_call};
ghost use Rattle.gixobj_signature.specs.VerifyingCalls.{x509_arguments};
ghost use Rattle.gixobj_signature.specs.Plans.{AllocatesForCalls};
ghost use Rattle.gixobj_signature.specs.Verifying.{IsOutcomeOf, gpg_verified, gpg_verify_plan, reported, verify_plan};
ghost use Rattle.gixobj_signature.specs.Verifying.{verify_view};

use super::{Error, Program, run_call};
use crate::signature::{Call, Output, Runner, SignedData, Word};
use bstr::{BString, ByteSlice};
use gixobj_hash::OutOfMemory;
use gixobj_parse::signature::Format;
use gixobj_signature_reports::arguments::Piece::{File, Text};
use gixobj_signature_reports::arguments::{arguments_with, environment_of, file_of};
use gixobj_signature_reports::report::{Outcome, evaluate, parse_gpg_output};
use std::alloc::Global;

/// Verifies with an OpenPGP program, and rejects a signature of another format.
pub(crate) fn verify_open_pgp<R: Runner>(
    alloc: Global,
    by: &Program,
    format: Format,
    signature: &[u8],
    signed: &SignedData<'_>,
    runner: &mut R,
) -> Result<Outcome, Error>
    ensures outcome { IsOutcomeOf R.runs (verify_plan
        (by_open_pgp (program_of by.now)) signature.now
        (signed_bytes signed.now) (Some format)) runner.old result runner.new }
    ensures allocates { AllocatesForCalls (verify_plan
        (by_open_pgp (program_of by.now)) signature.now
        (signed_bytes signed.now) (Some format)) (verify_view result) }
{
    match format {
        Format::OpenPgp => by_open_pgp_call(alloc, by, signature, signed, runner),
        signature_format => Err(Error::FormatMismatch {
            program_format: Format::OpenPgp,
            signature_format,
        }),
    }
}

/// Verifies with an X.509 program, and rejects a signature of another format.
pub(crate) fn verify_x509<R: Runner>(
    alloc: Global,
    by: &Program,
    format: Format,
    signature: &[u8],
    signed: &SignedData<'_>,
    runner: &mut R,
) -> Result<Outcome, Error>
    ensures outcome { IsOutcomeOf R.runs (verify_plan (by_x509 (program_of by.now)) signature.now
        (signed_bytes signed.now) (Some format)) runner.old result runner.new }
    ensures allocates { AllocatesForCalls (verify_plan (by_x509 (program_of by.now)) signature.now
        (signed_bytes signed.now) (Some format)) (verify_view result) }
{
    match format {
        Format::X509 => by_x509_call(alloc, by, signature, signed, runner),
        signature_format => Err(Error::FormatMismatch {
            program_format: Format::X509,
            signature_format,
        }),
    }
}

/// Makes the call of an OpenPGP program and parses its output.
fn by_open_pgp_call<R: Runner>(
    alloc: Global,
    by: &Program,
    signature: &[u8],
    signed: &SignedData<'_>,
    runner: &mut R,
) -> Result<Outcome, Error>
    ensures { IsOutcomeOf R.runs (gpg_verify_plan format.OpenPgp (program_of by.now)
        (open_pgp_call (program_of by.now) signature.now (signed_bytes signed.now))) runner.old
        result runner.new }
{
    let call = open_pgp_call_of(alloc, by, signature, signed)?;
    let output = run_call(&call, runner)?;
    Ok(outcome_of(alloc, Format::OpenPgp, by, output)?)
}

/// Makes the call of an X.509 program and parses its output.
fn by_x509_call<R: Runner>(
    alloc: Global,
    by: &Program,
    signature: &[u8],
    signed: &SignedData<'_>,
    runner: &mut R,
) -> Result<Outcome, Error>
    ensures { IsOutcomeOf R.runs (gpg_verify_plan format.X509 (program_of by.now)
        (x509_call (program_of by.now) signature.now (signed_bytes signed.now))) runner.old result
        runner.new }
{
    let call = x509_call_of(alloc, by, signature, signed)?;
    let output = run_call(&call, runner)?;
    Ok(outcome_of(alloc, Format::X509, by, output)?)
}

/// Makes the outcome of an output.
fn outcome_of(
    alloc: Global,
    format: Format,
    by: &Program,
    output: Output,
) -> Result<Outcome, OutOfMemory>
    ensures { IfOk result (λ it. reported (outcome_view it)
        ≡ gpg_verified format (program_of by.now) (output_view output)) }
{
    let success = output.success;
    let seen = BString::new(output.stderr);
    let raw = BString::new(output.stdout);
    let report = parse_gpg_output(alloc, format, seen, raw)?;
    Ok(evaluate(report, success, by.minimum_trust))
}

/// Makes the call of an OpenPGP program, whose input is the signed data.
#[tactic(auto, unfolding(crate::specs::VerifyingCalls::open_pgp_call))]
fn open_pgp_call_of(
    alloc: Global,
    by: &Program,
    signature: &[u8],
    signed: &SignedData<'_>,
) -> Result<Call, OutOfMemory>
    ensures { IfOk result (λ it. call_view it
        ≡ open_pgp_call (program_of by.now) signature.now (signed_bytes signed.now)) }
{
    let words = open_pgp_arguments_of(alloc, by)?;
    let files = file_of(alloc, signature)?;
    let input = Some(signed.to_bstring(alloc)?);
    call_of(alloc, by, words, files, input)
}

/// Makes the arguments of an OpenPGP program.
fn open_pgp_arguments_of(alloc: Global, by: &Program) -> Result<Vec<Word>, OutOfMemory>
    ensures { IfOk result (λ it. map word_view it.items ≡ open_pgp_arguments (program_of by.now)) }
{
    let pieces = [
        Text(b"--keyid-format=long"),
        Text(b"--status-fd=1"),
        Text(b"--verify"),
        File(0),
        Text(b"-"),
    ];
    let words = arguments_with(alloc, &by.program_arguments, &pieces)?;
    Ok(words)
}

/// Makes the call of an X.509 program, with the signed data in a file.
#[tactic(auto, unfolding(crate::specs::VerifyingCalls::x509_call))]
fn x509_call_of(
    alloc: Global,
    by: &Program,
    signature: &[u8],
    signed: &SignedData<'_>,
) -> Result<Call, OutOfMemory>
    ensures { IfOk result (λ it. call_view it
        ≡ x509_call (program_of by.now) signature.now (signed_bytes signed.now)) }
{
    let words = x509_arguments_of(alloc, by)?;
    let files = vec![in alloc;
        BString::from_slice(alloc, signature)?,
        signed.to_bstring(alloc)?,
    ]?;
    call_of(alloc, by, words, files, None)
}

/// Makes the arguments of an X.509 program.
fn x509_arguments_of(alloc: Global, by: &Program) -> Result<Vec<Word>, OutOfMemory>
    ensures { IfOk result (λ it. map word_view it.items ≡ x509_arguments (program_of by.now)) }
{
    let pieces = [Text(b"--status-fd=1"), Text(b"--verify"), File(0), File(1)];
    let words = arguments_with(alloc, &by.program_arguments, &pieces)?;
    Ok(words)
}

/// Makes a call with these arguments, files and input.
fn call_of(
    alloc: Global,
    by: &Program,
    words: Vec<Word>,
    files: Vec<BString>,
    input: Option<BString>,
) -> Result<Call, OutOfMemory>
    ensures { IfOk result (λ it. call_view it
        ≡ full_call (program_of by.now) (map word_view words.items) (map bstring_bytes files.items)
        (option_map bstring_bytes input)) }
{
    let environment = environment_of(alloc, &by.environment)?;
    let program = BString::from_slice(alloc, by.program.as_bytes())?;
    Ok(Call {
        program,
        words,
        environment,
        files,
        input,
        result: None,
    })
}
