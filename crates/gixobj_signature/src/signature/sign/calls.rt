//! The calls of programs that sign (gpg(1), `--detach-sign`; ssh-keygen(1), `-Y sign`).
ghost use Rattle.std.specs.Prelude.{◌≡◌, ◌∷◌, [], IfOk, map};
ghost use Rattle.bstr.specs.Owned.{bstring_bytes};
ghost use Rattle.gixobj_signature_reports.specs.Calls.{call_view, word_view};
ghost use Rattle.gixobj_signature.specs.Signing.{gpg_call, leaving_call, literal_call, sign_options_view, path_call};
ghost use Rattle.gixobj_signature.specs.Signing.{ssh_call};

use super::{Options, is_literal_ssh_key};
use bstr::{BString, ByteSlice};
use gixobj_hash::OutOfMemory;
use gixobj_signature_reports::arguments::Piece::{File, Text};
use gixobj_signature_reports::arguments::{
    arguments_with, environment_of, file_of, git_arguments_of, push_arguments,
};
use gixobj_signature_reports::call::{Call, Word};
use std::alloc::Global;

/// Makes the call of an OpenPGP or X.509 program, whose input is the payload.
///
/// Allocates the parts of the call.
///
/// # Errors
///
/// [`OutOfMemory`] if an allocation fails.
pub fn gpg_call_of(alloc: Global, payload: &[u8], options: &Options) -> Result<Call, OutOfMemory>
    ensures { IfOk result (λ it. call_view it
        ≡ gpg_call (sign_options_view options.now) payload.now) }
{
    let key = options.signing_key.as_bytes();
    let pieces = [Text(b"--status-fd=2"), Text(b"-bsau"), Text(key)];
    let words = arguments_with(alloc, &options.program_arguments, &pieces)?;
    Ok(Call {
        program: BString::from_slice(alloc, options.program.as_bytes())?,
        words,
        environment: environment_of(alloc, &options.environment)?,
        files: Vec::new(alloc),
        input: Some(BString::from_slice(alloc, payload)?),
        result: None,
    })
}

/// Makes the call of an SSH program, which signs a file with the payload.
///
/// Allocates the parts of the call.
///
/// # Errors
///
/// [`OutOfMemory`] if an allocation fails.
pub fn ssh_call_of(alloc: Global, payload: &[u8], options: &Options) -> Result<Call, OutOfMemory>
    ensures { IfOk result (λ it. call_view it
        ≡ ssh_call (sign_options_view options.now) payload.now) }
{
    match is_literal_ssh_key(options.signing_key.as_bytes()) {
        Some(key) => literal_call_of(alloc, key, payload, options),
        None => path_call_of(alloc, payload, options),
    }
}

/// Makes the SSH call for a key in a file of the caller.
fn path_call_of(alloc: Global, payload: &[u8], options: &Options) -> Result<Call, OutOfMemory>
    ensures { IfOk result (λ it. call_view it
        ≡ path_call (sign_options_view options.now) payload.now) }
{
    let mut words = git_arguments_of(alloc, &options.program_arguments, b"sign")?;
    let key = options.signing_key.as_bytes();
    push_arguments(alloc, &mut words, &[Text(b"-f"), Text(key), File(0)])?;
    let files = file_of(alloc, payload)?;
    call_of(alloc, options, words, files, 0)
}

/// Makes the SSH call for a literal key, which is written to a file too.
fn literal_call_of(
    alloc: Global,
    key: &[u8],
    payload: &[u8],
    options: &Options,
) -> Result<Call, OutOfMemory>
    ensures { IfOk result (λ it. call_view it
        ≡ literal_call (sign_options_view options.now) key.now payload.now) }
{
    let mut words = git_arguments_of(alloc, &options.program_arguments, b"sign")?;
    let pieces = [Text(b"-f"), File(0), Text(b"-U"), File(1)];
    push_arguments(alloc, &mut words, &pieces)?;
    let files = key_and_payload(alloc, key, payload)?;
    call_of(alloc, options, words, files, 1)
}

/// Makes the list of two files, with copies of the key and of the payload.
fn key_and_payload(alloc: Global, key: &[u8], payload: &[u8]) -> Result<Vec<BString>, OutOfMemory>
    ensures { IfOk result (λ it. map bstring_bytes it.items ≡ key.now ∷ payload.now ∷ []) }
{
    let mut files = file_of(alloc, key)?;
    files.push(BString::from_slice(alloc, payload)?)?;
    Ok(files)
}

/// Makes a call with these arguments and files, which may write a signature next to the file of this index.
fn call_of(
    alloc: Global,
    options: &Options,
    words: Vec<Word>,
    files: Vec<BString>,
    number: usize,
) -> Result<Call, OutOfMemory>
    ensures { IfOk result (λ it. call_view it
        ≡ leaving_call (sign_options_view options.now) (map word_view words.items)
        (map bstring_bytes files.items) number) }
{
    let environment = environment_of(alloc, &options.environment)?;
    let program = BString::from_slice(alloc, options.program.as_bytes())?;
    Ok(Call {
        program,
        words,
        environment,
        files,
        input: None,
        result: Some(number),
    })
}
