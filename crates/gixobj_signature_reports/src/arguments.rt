//! Arguments and environment variables of calls, as owned copies.
ghost use Rattle.std.specs.Prelude.{◌≡◌, ◌≢◌, ◌++◌, ◌∷◌, [], ℕ, IfOk, List, OnErr, OnOk, map};
ghost use Rattle.bstr.specs.Owned.{bstring_bytes};
ghost use Rattle.gixobj_signature_reports.specs.Calls.{pair_view, plain, word_view};
ghost use Rattle.gixobj_signature_reports.specs.Pieces.{git_arguments, piece_view};

use crate::call::Word;
use Piece::{File, Text, VerifyTime};
use bstr::{BString, ByteSlice};
use gixobj_actor::date::Time;
use gixobj_hash::OutOfMemory;
use std::alloc::Global;

/// A fixed or borrowed argument, which becomes the [`Word`] of the same name.
#[derive(Clone, Copy)]
pub enum Piece<'a> {
    /// An argument with these bytes.
    Text(&'a [u8]),
    /// The path of the file of this index.
    File(usize),
    /// `-Overify-time=` followed by this time.
    VerifyTime(Time),
}

/// Makes an argument of a copy of these bytes. Allocates the copy.
///
/// # Errors
///
/// [`OutOfMemory`] if the copy can't be allocated.
pub fn plain(alloc: Global, bytes: &[u8]) -> Result<Word, OutOfMemory>
    ensures { IfOk result (λ it. word_view it ≡ plain bytes.now) }
{
    Ok(Word::Text(BString::from_slice(alloc, bytes)?))
}

/// Makes an argument of a copy of each of these strings, in order. Allocates the list and the copies.
///
/// # Errors
///
/// [`OutOfMemory`] if an allocation fails, only for at least one string.
pub fn arguments_of(alloc: Global, encodings: &[BString]) -> Result<Vec<Word>, OutOfMemory>
    ensures arguments { IfOk result (λ it. map word_view it.items
        ≡ map plain (map bstring_bytes encodings.now)) }
    ensures allocates { OnErr result (encodings.now ≢ []) }
{
    let mut words = Vec::new(alloc);
    for one in encodings {
        words.push(plain(alloc, one.as_bytes())?)?;
    }
    Ok(words)
}

/// Makes the first arguments of an `ssh-keygen` command on signatures of git, after these arguments
/// (ssh-keygen(1), `-Y`, `-n`). Allocates the list and the arguments.
///
/// # Errors
///
/// [`OutOfMemory`] if an allocation fails.
pub fn git_arguments_of(
    alloc: Global,
    arguments: &[BString],
    command: &[u8],
) -> Result<Vec<Word>, OutOfMemory>
    ensures { IfOk result (λ it. map word_view it.items
        ≡ git_arguments (map bstring_bytes arguments.now) command.now) }
{
    let pieces = [Text(b"-Y"), Text(command), Text(b"-n"), Text(b"git")];
    arguments_with(alloc, arguments, &pieces)
}

/// Makes an argument of each of these strings, and then of each piece. Allocates the list and the arguments.
///
/// # Errors
///
/// [`OutOfMemory`] if an allocation fails.
pub fn arguments_with(
    alloc: Global,
    encodings: &[BString],
    pieces: &[Piece<'_>],
) -> Result<Vec<Word>, OutOfMemory>
    ensures { IfOk result (λ it. map word_view it.items
        ≡ map plain (map bstring_bytes encodings.now) ++ map piece_view pieces.now) }
{
    let mut words = arguments_of(alloc, encodings)?;
    push_arguments(alloc, &mut words, pieces)?;
    Ok(words)
}

/// Appends an argument for each piece. Allocates the arguments, and the capacity that the list lacks.
///
/// # Errors
///
/// [`OutOfMemory`] if an allocation fails.
pub fn push_arguments(
    alloc: Global,
    words: &mut Vec<Word>,
    pieces: &[Piece<'_>],
) -> Result<(), OutOfMemory>
    ensures { OnOk result (map word_view words.new.items
        ≡ map word_view words.old.items ++ map piece_view pieces.now) }
{
    for piece in pieces {
        words.push(keyword_of(alloc, piece)?)?;
    }
    Ok(())
}

/// Makes an argument of a piece.
fn keyword_of(alloc: Global, piece: &Piece<'_>) -> Result<Word, OutOfMemory>
    ensures { IfOk result (λ it. word_view it ≡ piece_view piece.now) }
{
    match piece {
        Text(bytes) => plain(alloc, bytes),
        File(number) => Ok(Word::File(*number)),
        VerifyTime(time) => Ok(Word::VerifyTime(*time)),
    }
}

/// Copies environment variables, as names and values. Allocates the list and the copies.
///
/// # Errors
///
/// [`OutOfMemory`] if an allocation fails, only for at least one variable.
pub fn environment_of(
    alloc: Global,
    environment: &[(BString, BString)],
) -> Result<Vec<(BString, BString)>, OutOfMemory>
    ensures environment { IfOk result (λ it. map pair_view it.items
        ≡ map pair_view environment.now) }
    ensures allocates { OnErr result (environment.now ≢ []) }
{
    let mut copies = Vec::new(alloc);
    for one in environment {
        copies.push(pair_of(alloc, one.0.as_bytes(), one.1.as_bytes())?)?;
    }
    Ok(copies)
}

/// Copies the name and the value of an environment variable.
fn pair_of(alloc: Global, name: &[u8], value: &[u8]) -> Result<(BString, BString), OutOfMemory>
    ensures { IfOk result (λ it. ◌≡◌ {A = List ℕ × List ℕ} (pair_view it) (name.now, value.now)) }
{
    let name = BString::from_slice(alloc, name)?;
    let value = BString::from_slice(alloc, value)?;
    Ok((name, value))
}

/// Appends a copy of an environment variable. Allocates the copy, and the capacity that the list lacks.
///
/// # Errors
///
/// [`OutOfMemory`] if an allocation fails.
pub fn push_pair(
    alloc: Global,
    environment: &mut Vec<(BString, BString)>,
    name: &[u8],
    value: &[u8],
) -> Result<(), OutOfMemory>
    ensures { OnOk result (map pair_view environment.new.items
        ≡ map pair_view environment.old.items ++ (name.now, value.now) ∷ []) }
{
    environment.push(pair_of(alloc, name, value)?)?;
    Ok(())
}

/// Makes the list of one file, with a copy of these bytes. Allocates the list and the copy.
///
/// # Errors
///
/// [`OutOfMemory`] if an allocation fails.
pub fn file_of(alloc: Global, bytes: &[u8]) -> Result<Vec<BString>, OutOfMemory>
    ensures { IfOk result (λ it. map bstring_bytes it.items ≡ bytes.now ∷ []) }
{
    Ok(vec![in alloc; BString::from_slice(alloc, bytes)?]?)
}
