//! The calls of an SSH program that verifies a signature.
ghost use Rattle.std.specs.Prelude.{◌≡◌, ◌++◌, ◌∷◌, [], IfOk, map};
ghost use Rattle.std.specs.Option.{option_map};
ghost use Rattle.bstr.specs.Owned.{bstring_bytes};
ghost use Rattle.gixobj_signature_reports.specs.Calls.{call_view, pair_view, word_view};
ghost use Rattle.gixobj_signature.specs.SignedBytes.{signed_bytes};
ghost use Rattle.gixobj_signature.specs.Verifiers.{ssh_of, ssh_program_of};
ghost use Rattle.gixobj_signature.specs.VerifyingCalls.{in_english, novalidate_call, novalidate_arguments};
ghost use Rattle.gixobj_signature.specs.VerifyingCalls.{principal_call, principal_arguments, principals_call};
ghost use Rattle.gixobj_signature.specs.VerifyingCalls.{revocation_arguments, full_call};

use crate::signature::verify::SshProgram;
use crate::signature::{Call, SignedData, Word};
use bstr::{BString, ByteSlice};
use gixobj_hash::OutOfMemory;
use gixobj_signature_reports::arguments::Piece::{File, Text, VerifyTime};
use gixobj_signature_reports::arguments::{
    arguments_with, environment_of, file_of, git_arguments_of, push_arguments, push_pair,
};
use std::alloc::Global;

/// Makes the call that lists the principals of the signature's key.
#[tactic(auto, unfolding(crate::specs::VerifyingCalls::principals_call))]
pub(crate) fn principals_call_of(
    alloc: Global,
    by: &SshProgram,
    signature: &[u8],
) -> Result<Call, OutOfMemory>
    ensures { IfOk result (λ it. call_view it
        ≡ principals_call (ssh_program_of by.now) (ssh_of by.now) signature.now) }
{
    let pieces = [
        Text(b"-Y"),
        Text(b"find-principals"),
        Text(b"-f"),
        Text(by.allowed_signers.as_bytes()),
        Text(b"-s"),
        File(0),
        VerifyTime(by.verify_time),
    ];
    let words = arguments_with(alloc, &by.program_arguments, &pieces)?;
    let input = Some(BString::new(Vec::new(alloc)));
    call_of(alloc, by, words, signature, input)
}

/// Makes the call that verifies a signature for a principal.
#[tactic(auto, unfolding(crate::specs::VerifyingCalls::principal_call))]
pub(crate) fn principal_call_of(
    alloc: Global,
    by: &SshProgram,
    principal: &[u8],
    signature: &[u8],
    signed: &SignedData<'_>,
) -> Result<Call, OutOfMemory>
    ensures { IfOk result (λ it. call_view it
        ≡ principal_call (ssh_program_of by.now) (ssh_of by.now) signature.now
        (signed_bytes signed.now) principal.now) }
{
    let words = principal_arguments_of(alloc, by, principal)?;
    let words = with_revocation(alloc, words, &by.revocation_file)?;
    let input = Some(signed.to_bstring(alloc)?);
    call_of(alloc, by, words, signature, input)
}

/// Makes the arguments of `-Y verify`, without those of the revocation file.
fn principal_arguments_of<'a>(
    alloc: Global,
    by: &'a SshProgram,
    principal: &'a [u8],
) -> Result<Vec<Word>, OutOfMemory>
    ensures { IfOk result (λ it. map word_view it.items
        ≡ principal_arguments (ssh_program_of by.now) (ssh_of by.now) principal.now) }
{
    let mut words = git_arguments_of(alloc, &by.program_arguments, b"verify")?;
    let pieces = [
        Text(b"-f"),
        Text(by.allowed_signers.as_bytes()),
        Text(b"-I"),
        Text(principal),
        Text(b"-s"),
        File(0),
        VerifyTime(by.verify_time),
    ];
    push_arguments(alloc, &mut words, &pieces)?;
    Ok(words)
}

/// Makes the call that checks a signature for any key.
#[tactic(auto, unfolding(crate::specs::VerifyingCalls::novalidate_call))]
pub(crate) fn novalidate_call_of(
    alloc: Global,
    by: &SshProgram,
    signature: &[u8],
    signed: &SignedData<'_>,
) -> Result<Call, OutOfMemory>
    ensures { IfOk result (λ it. call_view it
        ≡ novalidate_call (ssh_program_of by.now) (ssh_of by.now) signature.now
        (signed_bytes signed.now)) }
{
    let words = novalidate_arguments_of(alloc, by)?;
    let input = Some(signed.to_bstring(alloc)?);
    call_of(alloc, by, words, signature, input)
}

/// Makes the arguments of `-Y check-novalidate`.
fn novalidate_arguments_of(alloc: Global, by: &SshProgram) -> Result<Vec<Word>, OutOfMemory>
    ensures { IfOk result (λ it. map word_view it.items
        ≡ novalidate_arguments (ssh_program_of by.now) (ssh_of by.now)) }
{
    let mut words = git_arguments_of(alloc, &by.program_arguments, b"check-novalidate")?;
    let pieces = [Text(b"-s"), File(0), VerifyTime(by.verify_time)];
    push_arguments(alloc, &mut words, &pieces)?;
    Ok(words)
}

/// Appends the arguments of the revocation file, if there is one.
fn with_revocation(
    alloc: Global,
    words: Vec<Word>,
    file: &Option<BString>,
) -> Result<Vec<Word>, OutOfMemory>
    ensures { IfOk result (λ it. map word_view it.items
        ≡ map word_view words.items ++ revocation_arguments (option_map bstring_bytes file.now)) }
{
    let mut words = words;
    if let Some(path) = file {
        push_arguments(alloc, &mut words, &[Text(b"-r"), Text(path.as_bytes())])?;
    }
    Ok(words)
}

/// Makes a call with these arguments, the signature as file 0, this input, and output in English.
fn call_of(
    alloc: Global,
    by: &SshProgram,
    words: Vec<Word>,
    signature: &[u8],
    input: Option<BString>,
) -> Result<Call, OutOfMemory>
    ensures { IfOk result (λ it. call_view it
        ≡ full_call (in_english (ssh_program_of by.now)) (map word_view words.items)
        (signature.now ∷ []) (option_map bstring_bytes input)) }
{
    let environment = english_of(alloc, by)?;
    let program = BString::from_slice(alloc, by.program.as_bytes())?;
    let files = file_of(alloc, signature)?;
    Ok(Call {
        program,
        words,
        environment,
        files,
        input,
        result: None,
    })
}

/// Copies the environment variables and appends those with which the output is in English.
fn english_of(alloc: Global, by: &SshProgram) -> Result<Vec<(BString, BString)>, OutOfMemory>
    ensures { IfOk result (λ it. map pair_view it.items
        ≡ (in_english (ssh_program_of by.now)).environment) }
{
    let mut environment = environment_of(alloc, &by.environment)?;
    push_pair(alloc, &mut environment, b"LANG", b"C")?;
    push_pair(alloc, &mut environment, b"LC_ALL", b"C")?;
    Ok(environment)
}
