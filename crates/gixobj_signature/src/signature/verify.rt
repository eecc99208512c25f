//! Verification of signatures by external programs.
ghost use Rattle.std.specs.Prelude.{◌≡◌, Some};
ghost use Rattle.gixobj_signature.specs.SignedBytes.{signed_bytes};
ghost use Rattle.gixobj_signature.specs.Verifiers.{by_open_pgp, by_ssh, by_x509, verify_options_view, program_of};
ghost use Rattle.gixobj_signature.specs.Verifiers.{ssh_of, ssh_program_of, verifier_view};
ghost use Rattle.gixobj_signature.specs.Plans.{AllocatesForCalls};
ghost use Rattle.gixobj_signature.specs.Verifying.{WasCalled, IsOutcomeOf, Verifies, verify_plan, verify_view};
ghost use Rattle.gixobj_signature_reports.specs.Calls.{call_view};

mod gpg;
mod ssh;

use crate::signature::{Call, Output, RunError, Runner, SignedData};
use bstr::{BStr, BString};
use gixobj_actor::date::Time;
use gixobj_hash::OutOfMemory;
use gixobj_parse::signature::Format;
pub use gixobj_signature_reports::report::{
    Outcome, Status, TrustLevel, parse_gpg_output, parse_ssh_output,
};
use gpg::{verify_open_pgp, verify_x509};
use ssh::verify_if_ssh;
use std::alloc::Global;

/// The program, its arguments and the minimum trust with which [`SignedData::verify`] verifies a signature.
#[derive(Clone, Debug, Drop)]
pub enum Options {
    /// An OpenPGP program.
    OpenPgp {
        /// The program that verifies.
        program: BString,
        /// The arguments of the program before the fixed ones.
        program_arguments: Vec<BString>,
        /// Environment variables, as names and values, that are set for the program alone.
        environment: Vec<(BString, BString)>,
        /// The minimum trust in the key with which a signature is valid.
        minimum_trust: TrustLevel,
    },
    /// An X.509 program.
    X509 {
        /// The program that verifies.
        program: BString,
        /// The arguments of the program before the fixed ones.
        program_arguments: Vec<BString>,
        /// Environment variables, as names and values, that are set for the program alone.
        environment: Vec<(BString, BString)>,
        /// The minimum trust in the key with which a signature is valid.
        minimum_trust: TrustLevel,
    },
    /// An SSH program.
    Ssh {
        /// The program that verifies.
        program: BString,
        /// The arguments of the program before the fixed ones.
        program_arguments: Vec<BString>,
        /// Environment variables, as names and values, that are set for the program alone. `LANG` and
        /// `LC_ALL` follow them, both `C`, since the output is parsed in English.
        environment: Vec<(BString, BString)>,
        /// The path of the file of allowed signers (ssh-keygen(1), "ALLOWED SIGNERS").
        allowed_signers: BString,
        /// The path of the file of revoked keys, or `None`.
        revocation_file: Option<BString>,
        /// The time at which the keys have to be valid: for a commit, the time of its committer.
        verify_time: Time,
        /// The minimum trust in the key with which a signature is valid.
        minimum_trust: TrustLevel,
    },
}

/// The error of [`SignedData::verify`].
#[derive(Debug, Drop, thiserror::Error)]
pub enum Error {
    /// The signature begins with no known marker. The runner isn't called.
    #[error("a signature of no known format")]
    UnsupportedFormat,
    /// The signature has another format than the program. The runner isn't called.
    #[error("a program of {program_format:?} for a signature of {signature_format:?}")]
    FormatMismatch {
        /// The format of the program.
        program_format: Format,
        /// The format of the signature.
        signature_format: Format,
    },
    /// The runner couldn't create a file; the payload is its message.
    #[error("no temporary file: {0}")]
    TemporaryFile(BString),
    /// The runner couldn't start the program; the payload is its message.
    #[error("not started: {0}")]
    Spawn(BString),
    /// The runner couldn't exchange input and output; the payload is its message.
    #[error("no communication: {0}")]
    Communicate(BString),
    /// The runner couldn't format the time of [`Options::Ssh`]; the payload is its message.
    #[error("no text of the time: {0}")]
    CommitTime(BString),
    /// An allocation failed, perhaps after a call of the program, or the runner ran out of memory.
    #[error("out of memory")]
    OutOfMemory,
}

impl From<OutOfMemory> for Error {
    ghost use Rattle.std.specs.Prelude.{◌≡◌};
    ghost use Rattle.gixobj_signature.specs.declared.signature.verify.Error.TheVariants as verify;

    ghost from_gives = { λ _ error. error ≡ verify.OutOfMemory };

    fn from(_: OutOfMemory) -> Error {
        Error::OutOfMemory
    }
}

impl From<RunError> for Error {
    ghost use Rattle.std.specs.Prelude.{◌≡◌};
    ghost use Rattle.gixobj_signature.specs.Verifying.{failed_run};

    ghost from_gives = { λ cause error. error ≡ failed_run cause };

    fn from(error: RunError) -> Error {
        match error {
            RunError::TemporaryFile(why) => Error::TemporaryFile(why),
            RunError::Spawn(why) => Error::Spawn(why),
            RunError::Communicate(why) => Error::Communicate(why),
            RunError::CommitTime(why) => Error::CommitTime(why),
            RunError::OutOfMemory => Error::OutOfMemory,
        }
    }
}

/// An OpenPGP or X.509 program with its options.
#[derive(Debug, Drop)]
pub(crate) struct Program {
    pub(crate) program: BString,
    pub(crate) program_arguments: Vec<BString>,
    pub(crate) environment: Vec<(BString, BString)>,
    pub(crate) minimum_trust: TrustLevel,
}

/// An SSH program with its options.
#[derive(Debug, Drop)]
pub(crate) struct SshProgram {
    pub(crate) program: BString,
    pub(crate) program_arguments: Vec<BString>,
    pub(crate) environment: Vec<(BString, BString)>,
    pub(crate) allowed_signers: BString,
    pub(crate) revocation_file: Option<BString>,
    pub(crate) verify_time: Time,
    pub(crate) minimum_trust: TrustLevel,
}

/// The options, with the fields of each program in a struct.
#[derive(Debug, Drop)]
pub(crate) enum Verifier {
    OpenPgp(Program),
    X509(Program),
    Ssh(SshProgram),
}

impl SignedData<'_> {
    /// Verifies a signature of these bytes with the program of the options and returns the outcome.
    ///
    /// An invalid signature is no error: [`Outcome::is_valid`] reports it. An OpenPGP or X.509 program
    /// verifies with one call. An SSH program is called to list the principals of the key, and then to verify
    /// for each until one is accepted. If all fail, the last call decides. If none is listed, a check for any
    /// key yields an invalid outcome (ssh-keygen(1), `-Y find-principals`, `-Y verify`,
    /// `-Y check-novalidate`). Allocates the calls and the outcome.
    ///
    /// # Errors
    ///
    /// - [`Error::UnsupportedFormat`] if the signature begins with no known marker.
    /// - [`Error::FormatMismatch`], with both formats, if the marker isn't of the program's format. These two
    ///   errors precede all calls and allocations.
    /// - [`Error::TemporaryFile`], [`Error::Spawn`], [`Error::Communicate`] or [`Error::CommitTime`], with
    ///   the runner's message, if the runner returns that case.
    /// - [`Error::OutOfMemory`] if one of these allocations fails, or if the runner returns that case.
    ///
    /// # Examples
    ///
    /// ```rust
    /// match CommitRefIter::signature(alloc, bytes, HashKind::Sha1) {
    ///     Ok(Some((signature, signed))) => {
    ///         let signature = BStr::new(signature.as_slice());
    ///         Ok(Some(signed.verify(alloc, signature, options, runner)?))
    ///     }
    ///     Ok(None) | Err(decode::Error::Malformed) => Ok(None),
    ///     Err(decode::Error::OutOfMemory) => Err(Error::OutOfMemory),
    /// }
    /// ```
    pub fn verify<R: Runner>(
        &self,
        alloc: Global,
        signature: BStr<'_>,
        options: Options,
        runner: &mut R,
    ) -> Result<Outcome, Error>
        ensures { Verifies R.runs options signature.entry self.now runner.old result runner.new }
    {
        match Format::from_signature(signature.as_bytes()) {
            Some(format) => verify_as(alloc, format, signature.as_bytes(), self, options, runner),
            None => Err(Error::UnsupportedFormat),
        }
    }
}

/// Verifies a signature of this format.
fn verify_as<R: Runner>(
    alloc: Global,
    format: Format,
    signature: &[u8],
    signed: &SignedData<'_>,
    options: Options,
    runner: &mut R,
) -> Result<Outcome, Error>
    ensures outcome { IsOutcomeOf R.runs (verify_plan (verify_options_view options) signature.now
        (signed_bytes signed.now) (Some format)) runner.old result runner.new }
    ensures allocates { AllocatesForCalls (verify_plan (verify_options_view options) signature.now
        (signed_bytes signed.now) (Some format)) (verify_view result) }
{
    match verifier_of(options) {
        Verifier::OpenPgp(by) => verify_open_pgp(alloc, &by, format, signature, signed, runner),
        Verifier::X509(by) => verify_x509(alloc, &by, format, signature, signed, runner),
        Verifier::Ssh(by) => verify_if_ssh(alloc, &by, format, signature, signed, runner),
    }
}

/// Converts the options to a verifier.
fn verifier_of(options: Options) -> Verifier
    ensures { verifier_view result ≡ verify_options_view options }
{
    match options {
        Options::OpenPgp {
            program,
            program_arguments,
            environment,
            minimum_trust,
        } => {
            let by = program_with(program, program_arguments, environment, minimum_trust);
            Verifier::OpenPgp(by)
        }
        Options::X509 {
            program,
            program_arguments,
            environment,
            minimum_trust,
        } => {
            let by = program_with(program, program_arguments, environment, minimum_trust);
            Verifier::X509(by)
        }
        Options::Ssh {
            program,
            program_arguments,
            environment,
            allowed_signers,
            revocation_file,
            verify_time,
            minimum_trust,
        } => Verifier::Ssh(SshProgram {
            program,
            program_arguments,
            environment,
            allowed_signers,
            revocation_file,
            verify_time,
            minimum_trust,
        }),
    }
}

/// Makes a program with these options.
fn program_with(
    program: BString,
    program_arguments: Vec<BString>,
    environment: Vec<(BString, BString)>,
    minimum_trust: TrustLevel,
) -> Program
    ensures { result ≡ (record {
      program = program;
      program_arguments = program_arguments;
      environment = environment;
      minimum_trust = minimum_trust;
    }) }
{
    Program {
        program,
        program_arguments,
        environment,
        minimum_trust,
    }
}

/// Makes a call and returns its output.
pub(crate) fn run_call<R: Runner>(call: &Call, runner: &mut R) -> Result<Output, Error>
    ensures { WasCalled R.runs (call_view call.now) runner.old result runner.new }
{
    Ok(runner.run(call)?)
}
