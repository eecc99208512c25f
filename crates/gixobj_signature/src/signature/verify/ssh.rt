//! Verification of SSH signatures by several calls (ssh-keygen(1), `-Y`).
ghost use Rattle.std.specs.Prelude.{◌≡◌, ◌++◌, ◌∷◌, [], IfOk, None, OnOk, Some, filter, map};
ghost use Rattle.std.specs.Option.{option_map};
ghost use Rattle.bstr.specs.Owned.{bstring_bytes};
ghost use Rattle.gixobj_signature_reports.specs.Calls.{output_view};
ghost use Rattle.gixobj_signature_reports.specs.Outcomes.{outcome_view};
ghost use Rattle.gixobj_signature_reports.specs.declared.report.TrustLevel.TheVariants as trust;
ghost use Rattle.gixobj_signature.specs.SignedBytes.{signed_bytes};
ghost use Rattle.gixobj_signature.specs.Verifiers.{by_ssh, ssh_of, ssh_program_of};
ghost use Rattle.gixobj_signature.specs.VerifyingCalls.{novalidate_call, principal_call, principals_call};
ghost use Rattle.gixobj_signature.specs.Plans.{AllocatesForCalls};
ghost use Rattle.gixobj_signature.specs.Verifying.{WasCalled, IsOutcomeOf, accepts, human, lossy, principals_in};
ghost use Rattle.gixobj_signature.specs.Verifying.{reported, rest_plan, ssh_verified, ssh_verify_plan, tries};
ghost use Rattle.gixobj_signature.specs.Verifying.{verify_plan, verify_view};
ghost use Rattle.gixobj_hash.specs.ByteStrings.{is_filled};

mod calls;

use super::{Error, SshProgram, run_call};
use crate::signature::{Output, Runner, SignedData};
use bstr::{BString, ByteSlice};
use calls::{novalidate_call_of, principal_call_of, principals_call_of};
use gixobj_hash::OutOfMemory;
use gixobj_parse::signature::Format;
use gixobj_signature_reports::report::{Outcome, TrustLevel, evaluate, parse_ssh_output};
use std::alloc::Global;

/// Verifies with an SSH program, and rejects a signature of another format.
pub(crate) fn verify_if_ssh<R: Runner>(
    alloc: Global,
    by: &SshProgram,
    format: Format,
    signature: &[u8],
    signed: &SignedData<'_>,
    runner: &mut R,
) -> Result<Outcome, Error>
    ensures outcome { IsOutcomeOf R.runs (verify_plan
        (by_ssh (ssh_program_of by.now) (ssh_of by.now))
        signature.now (signed_bytes signed.now) (Some format)) runner.old result runner.new }
    ensures allocates { AllocatesForCalls (verify_plan
        (by_ssh (ssh_program_of by.now) (ssh_of by.now))
        signature.now (signed_bytes signed.now) (Some format)) (verify_view result) }
{
    match format {
        Format::Ssh => verify_ssh(alloc, by, signature, signed, runner),
        signature_format => Err(Error::FormatMismatch {
            program_format: Format::Ssh,
            signature_format,
        }),
    }
}

/// Lists the principals of the key, and then verifies for each of them.
fn verify_ssh<R: Runner>(
    alloc: Global,
    by: &SshProgram,
    signature: &[u8],
    signed: &SignedData<'_>,
    runner: &mut R,
) -> Result<Outcome, Error>
    ensures { IsOutcomeOf R.runs (ssh_verify_plan (ssh_program_of by.now)
        (ssh_of by.now) signature.now
        (signed_bytes signed.now)) runner.old result runner.new }
{
    let found = find_principals(alloc, by, signature, runner)?;
    if !found.success {
        return try_each(alloc, by, &[], signature, signed, runner);
    }
    let principals = principals_of(alloc, &found.stdout)?;
    try_each(alloc, by, &principals, signature, signed, runner)
}

/// Lists the principals of the key.
fn find_principals<R: Runner>(
    alloc: Global,
    by: &SshProgram,
    signature: &[u8],
    runner: &mut R,
) -> Result<Output, Error>
    ensures { WasCalled R.runs (principals_call (ssh_program_of by.now)
        (ssh_of by.now) signature.now)
        runner.old result runner.new }
{
    let call = principals_call_of(alloc, by, signature)?;
    run_call(&call, runner)
}

/// Verifies for each principal in turn, until one is accepted.
fn try_each<R: Runner>(
    alloc: Global,
    by: &SshProgram,
    principals: &[BString],
    signature: &[u8],
    signed: &SignedData<'_>,
    runner: &mut R,
) -> Result<Outcome, Error>
    ensures { IsOutcomeOf R.runs (tries (ssh_program_of by.now) (ssh_of by.now) signature.now
        (signed_bytes signed.now) (map bstring_bytes principals.now) None) runner.old result
        runner.new }
{
    let mut last: Option<Output> = None;
    for principal in principals {
        let output = verify_principal(alloc, by, principal, signature, signed, runner)?;
        if is_accepted(&output) {
            return Ok(accepted_by(alloc, by, principal, output)?);
        }
        last = Some(output);
    }
    end_with(alloc, by, last, signature, signed, runner)
}

/// Verifies for one principal.
fn verify_principal<R: Runner>(
    alloc: Global,
    by: &SshProgram,
    principal: &BString,
    signature: &[u8],
    signed: &SignedData<'_>,
    runner: &mut R,
) -> Result<Output, Error>
    ensures { WasCalled R.runs (principal_call (ssh_program_of by.now) (ssh_of by.now) signature.now
        (signed_bytes signed.now) (bstring_bytes principal.now)) runner.old result runner.new }
{
    let call = principal_call_of(alloc, by, principal.as_bytes(), signature, signed)?;
    run_call(&call, runner)
}

/// Makes the outcome of a call that accepted this principal, who is the signer.
fn accepted_by(
    alloc: Global,
    by: &SshProgram,
    principal: &BString,
    output: Output,
) -> Result<Outcome, OutOfMemory>
    ensures { IfOk result (λ it. reported (outcome_view it)
        ≡ ssh_verified (ssh_program_of by.now) output.success trust.Fully
        (Some (bstring_bytes principal.now)) (output_view output)) }
{
    let signer = BString::from_slice(alloc, principal.as_bytes())?;
    let success = output.success;
    outcome_of(alloc, by, success, TrustLevel::Fully, Some(signer), output)
}

/// Makes the outcome without an accepted principal, from the last call or else from one for any key.
fn end_with<R: Runner>(
    alloc: Global,
    by: &SshProgram,
    last: Option<Output>,
    signature: &[u8],
    signed: &SignedData<'_>,
    runner: &mut R,
) -> Result<Outcome, Error>
    ensures { IsOutcomeOf R.runs (rest_plan (ssh_program_of by.now) (ssh_of by.now) signature.now
        (signed_bytes signed.now) (option_map output_view last)) runner.old result runner.new }
{
    if let Some(output) = last {
        return Ok(rejected_by(alloc, by, output)?);
    }
    let output = check_novalidate(alloc, by, signature, signed, runner)?;
    Ok(outcome_of(alloc, by, false, TrustLevel::Undefined, None, output)?)
}

/// Makes the outcome of a call that accepted no principal.
fn rejected_by(alloc: Global, by: &SshProgram, output: Output) -> Result<Outcome, OutOfMemory>
    ensures { IfOk result (λ it. reported (outcome_view it)
        ≡ ssh_verified (ssh_program_of by.now) output.success trust.Fully None
        (output_view output)) }
{
    let success = output.success;
    outcome_of(alloc, by, success, TrustLevel::Fully, None, output)
}

/// Checks the signature for any key.
fn check_novalidate<R: Runner>(
    alloc: Global,
    by: &SshProgram,
    signature: &[u8],
    signed: &SignedData<'_>,
    runner: &mut R,
) -> Result<Output, Error>
    ensures { WasCalled R.runs (novalidate_call (ssh_program_of by.now)
        (ssh_of by.now) signature.now
        (signed_bytes signed.now)) runner.old result runner.new }
{
    let call = novalidate_call_of(alloc, by, signature, signed)?;
    run_call(&call, runner)
}

/// Returns whether a call for a principal accepted it.
fn is_accepted(output: &Output) -> bool
    ensures { result ≡ accepts (output_view output.now) }
{
    output.success && output.stdout.starts_with(b"Good")
}

/// Makes the outcome of an output, with this success, trust and signer.
fn outcome_of(
    alloc: Global,
    by: &SshProgram,
    success: bool,
    trust: TrustLevel,
    signer: Option<BString>,
    output: Output,
) -> Result<Outcome, OutOfMemory>
    ensures { IfOk result (λ it. reported (outcome_view it)
        ≡ ssh_verified (ssh_program_of by.now) success trust (option_map bstring_bytes signer)
        (output_view output)) }
{
    let seen = human_of(output)?;
    let report = parse_ssh_output(alloc, seen, signer, trust)?;
    Ok(evaluate(report, success, by.minimum_trust))
}

/// Joins the standard output and the standard error, for people.
fn human_of(output: Output) -> Result<BString, OutOfMemory>
    ensures { IfOk result (λ it. bstring_bytes it ≡ human (output_view output)) }
{
    let mut bytes = output.stdout;
    bytes.extend_from_slice(&output.stderr)?;
    Ok(BString::new(bytes))
}

/// Returns the principals of this standard output, one on each line.
fn principals_of(alloc: Global, stdout: &[u8]) -> Result<Vec<BString>, OutOfMemory>
    ensures { IfOk result (λ it. map bstring_bytes it.items ≡ principals_in stdout.now) }
{
    let mut principals = Vec::new(alloc);
    let mut lines = stdout.lines();
    'lines: while let Some(line) = lines.next() {
        push_principal(alloc, line.trim(), &mut principals)?;
    }
    Ok(principals)
}

/// Appends the principal of a line, unless the line is empty.
fn push_principal(
    alloc: Global,
    line: &[u8],
    principals: &mut Vec<BString>,
) -> Result<(), OutOfMemory>
    ensures { OnOk result (map bstring_bytes principals.new.items
        ≡ map bstring_bytes principals.old.items ++ map lossy (filter is_filled (line.now ∷ []))) }
{
    if line.is_empty() {
        return Ok(());
    }
    let bytes = line.to_str_lossy(alloc)?;
    principals.push(BString::from_slice(alloc, bytes.as_str().as_bytes())?)?;
    Ok(())
}
