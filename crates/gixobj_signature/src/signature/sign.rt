//! Signing of payloads (gitformat-signature; git-config, `gpg.format`, `user.signingKey`).
ghost use Rattle.std.specs.Prelude.{◌≡◌, Err, IfOk, MatchOption, ⊤};
ghost use Rattle.std.specs.Option.{option_map};
ghost use Rattle.bstr.specs.Owned.{bstring_bytes};
ghost use Rattle.gixobj_signature_reports.specs.Calls.{answer_view, output_view};
ghost use Rattle.gixobj_signature.specs.Plans.{AllocatesForCalls};
ghost use Rattle.gixobj_signature.specs.Signing.{IsFailed, Signs, confirms, gpg_plan, gpg_signed, is_return_before};
ghost use Rattle.gixobj_signature.specs.Signing.{written_signature, literal_key, not_run_view, sign_options_view};
ghost use Rattle.gixobj_signature.specs.Signing.{sign_plan, sign_view, signer_error, ssh_plan, ssh_signed};
ghost use Rattle.gixobj_signature.specs.Signing.{without_returns};

mod calls;

use crate::signature::{Output, RunError, Runner};
use bstr::{BString, ByteSlice};
use calls::{gpg_call_of, ssh_call_of};
use gixobj_hash::{OutOfMemory, decode};
use gixobj_parse::signature::Format;
use gixobj_streams::encode;
use std::alloc::Global;

/// How [`sign_payload`] signs (git-config, `gpg.format`, `gpg.program`, `user.signingKey`).
#[derive(Clone, Debug, Drop)]
pub struct Options {
    /// The format of the signature.
    pub format: Format,
    /// The program that signs.
    pub program: BString,
    /// The arguments of the program before the fixed ones.
    pub program_arguments: Vec<BString>,
    /// The name of the key. For SSH: the path of its file or, by [`is_literal_ssh_key`], the key itself.
    pub signing_key: BString,
    /// Environment variables, as names and values, that are set for the program alone.
    pub environment: Vec<(BString, BString)>,
}

/// The error of [`sign_payload`] and of the calls that sign an object.
#[derive(Debug, Drop, thiserror::Error)]
pub enum Error {
    /// A borrowed object couldn't be copied. The runner isn't called.
    #[error("not copied: {0}")]
    Decode(decode::Error),
    /// The payload couldn't be written. The runner isn't called.
    #[error("not written: {0}")]
    Encode(encode::Error),
    /// The signing key is empty. The runner isn't called.
    #[error("no signing key")]
    MissingSigningKey,
    /// The runner couldn't create a file; the payload is its message.
    #[error("no temporary file: {0}")]
    TemporaryFile(BString),
    /// The runner couldn't start the program; the payload is its message.
    #[error("not started: {0}")]
    Spawn(BString),
    /// The runner couldn't exchange input and output, or format a time; the payload is its message.
    #[error("no communication: {0}")]
    Communicate(BString),
    /// The program ran, and its exit status isn't 0.
    #[error("{program:?} failed: {output:?}")]
    Failed {
        /// The program.
        program: BString,
        /// The standard error of the program.
        output: BString,
    },
    /// An OpenPGP or X.509 program succeeded, but no line of its standard error reports a signature.
    #[error("no confirmation of a signature")]
    MissingSignatureConfirmation,
    /// An SSH program succeeded, but wrote no signature file.
    #[error("no file with a signature")]
    MissingSshSignature,
    /// An allocation failed, perhaps after the call of the program, or the runner ran out of memory.
    #[error("out of memory")]
    OutOfMemory,
}

impl From<OutOfMemory> for Error {
    ghost use Rattle.std.specs.Prelude.{◌≡◌};
    ghost use Rattle.gixobj_signature.specs.declared.signature.sign.Error.TheVariants as sign;

    ghost from_gives = { λ _ error. error ≡ sign.OutOfMemory };

    fn from(_: OutOfMemory) -> Error {
        Error::OutOfMemory
    }
}

/// Returns the literal SSH key of a signing key, or `None` for a file's path (git-config, `user.signingKey`).
///
/// It follows the prefix `key::`, or is an entire signing key that begins with `ssh-`. Allocates nothing.
pub fn is_literal_ssh_key(key: &[u8]) -> Option<&[u8]>
    ensures { option_map (λ it. it.now) result ≡ literal_key key.now }
{
    if let Some(rest) = key.strip_prefix(b"key::") {
        return Some(rest);
    }
    if key.starts_with(b"ssh-") {
        return Some(key);
    }
    None
}

/// Signs a payload with one call of the program and returns the signature.
///
/// Each carriage return directly before a newline is removed. Allocates the call and the signature.
///
/// # Errors
///
/// - [`Error::MissingSigningKey`] if the signing key is empty. This error precedes the call and allocations.
/// - [`Error::TemporaryFile`], [`Error::Spawn`] or [`Error::Communicate`], with the runner's message, if the
///   runner returns that case. [`RunError::CommitTime`] becomes `Communicate`.
/// - [`Error::Failed`], with the program and its standard error, if the program doesn't succeed.
/// - [`Error::MissingSignatureConfirmation`] if no line that an OpenPGP or X.509 program wrote to its
///   standard error begins with `[GNUPG:] SIG_CREATED ` (gnupg, doc/DETAILS).
/// - [`Error::MissingSshSignature`] if an SSH program wrote no signature file.
/// - [`Error::OutOfMemory`] if one of these allocations fails, or if the runner returns that case.
pub fn sign_payload<R: Runner>(
    alloc: Global,
    payload: &[u8],
    options: Options,
    runner: &mut R,
) -> Result<BString, Error>
    ensures signed { Signs R.runs (sign_plan (sign_options_view options) payload.now)
        runner.old result
        runner.new }
    ensures allocates { AllocatesForCalls (sign_plan (sign_options_view options) payload.now)
        (sign_view result) }
{
    if options.signing_key.is_empty() {
        return Err(Error::MissingSigningKey);
    }
    match options.format {
        Format::OpenPgp | Format::X509 => sign_gpg(alloc, payload, options, runner),
        Format::Ssh => sign_ssh(alloc, payload, options, runner),
    }
}

/// Signs with an OpenPGP or X.509 program, whose standard output is the signature.
fn sign_gpg<R: Runner>(
    alloc: Global,
    payload: &[u8],
    options: Options,
    runner: &mut R,
) -> Result<BString, Error>
    ensures { Signs R.runs (gpg_plan (sign_options_view options) payload.now) runner.old result
        runner.new }
{
    let call = gpg_call_of(alloc, payload, &options)?;
    match runner.run(&call) {
        Ok(output) => gpg_signature_of(alloc, options.program, output),
        Err(error) => Err(not_run(error)),
    }
}

/// Returns the signature in the output of an OpenPGP or X.509 program.
fn gpg_signature_of(alloc: Global, program: BString, output: Output) -> Result<BString, Error>
    ensures { MatchOption (sign_view result) ⊤
        (λ it. it ≡ gpg_signed (bstring_bytes program) (output_view output)) }
{
    if !output.success {
        return Err(failed(program, output.stderr));
    }
    if !is_confirmed(&output.stderr) {
        return Err(Error::MissingSignatureConfirmation);
    }
    Ok(without_returns_of(alloc, &output.stdout)?)
}

/// Signs with an SSH program, which writes the signature to a file.
fn sign_ssh<R: Runner>(
    alloc: Global,
    payload: &[u8],
    options: Options,
    runner: &mut R,
) -> Result<BString, Error>
    ensures { Signs R.runs (ssh_plan (sign_options_view options) payload.now) runner.old result
        runner.new }
{
    let call = ssh_call_of(alloc, payload, &options)?;
    match runner.run(&call) {
        Ok(output) => ssh_signature_of(alloc, options.program, output),
        Err(error) => Err(not_run(error)),
    }
}

/// Returns the signature that an SSH program with this output wrote to a file.
fn ssh_signature_of(alloc: Global, program: BString, output: Output) -> Result<BString, Error>
    ensures { MatchOption (sign_view result) ⊤
        (λ it. it ≡ ssh_signed (bstring_bytes program) (output_view output)) }
{
    if !output.success {
        return Err(failed(program, output.stderr));
    }
    written_signature_of(alloc, output.result)
}

/// Returns the signature in the file that an SSH program wrote.
fn written_signature_of(alloc: Global, remaining: Option<Vec<u8>>) -> Result<BString, Error>
    ensures { MatchOption (sign_view result) ⊤
        (λ it. it ≡ written_signature (option_map (λ v. v.items) remaining)) }
{
    match remaining {
        Some(bytes) => Ok(without_returns_of(alloc, &bytes)?),
        None => Err(Error::MissingSshSignature),
    }
}

/// Converts the error of a program that didn't run to its end.
fn not_run(error: RunError) -> Error
    ensures { signer_error result ≡ not_run_view (answer_view (Err error)) }
{
    match error {
        RunError::TemporaryFile(why) => Error::TemporaryFile(why),
        RunError::Spawn(why) => Error::Spawn(why),
        RunError::Communicate(why) | RunError::CommitTime(why) => Error::Communicate(why),
        RunError::OutOfMemory => Error::OutOfMemory,
    }
}

/// Makes the error of a program that ran and failed.
fn failed(program: BString, stderr: Vec<u8>) -> Error
    ensures { IsFailed program stderr.items result }
{
    Error::Failed {
        program,
        output: BString::new(stderr),
    }
}

/// Returns whether a line of this standard error reports a signature.
fn is_confirmed(stderr: &[u8]) -> bool
    ensures { result ≡ confirms stderr.now }
{
    stderr
        .lines()
        .any(|line| line.starts_with(b"[GNUPG:] SIG_CREATED "))
}

/// Copies bytes without each carriage return directly before a newline.
fn without_returns_of(alloc: Global, content: &[u8]) -> Result<BString, OutOfMemory>
    ensures { IfOk result (λ it. bstring_bytes it ≡ without_returns content.now) }
{
    let mut kept = Vec::new(alloc);
    let mut rest = content;
    'bytes: while let Some((byte, after)) = rest.split_first() {
        if !is_dropped(*byte, after) {
            kept.push(*byte)?;
        }
        rest = after;
    }
    Ok(BString::new(kept))
}

/// Returns whether the byte is a carriage return, and the next one a newline.
fn is_dropped(byte: u8, after: &[u8]) -> bool
    ensures { result ≡ is_return_before byte after.now }
{
    byte == b'\r' && after.first() == Some(&b'\n')
}
