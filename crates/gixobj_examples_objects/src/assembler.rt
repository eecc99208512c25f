//! An assembler of messages (git-interpret-trailers).
ghost use Rattle.std.specs.Prelude.{◌≡◌, ◌↔◌, ◌++◌, ◌∷◌, [], All, IfErr, IfOk, IsFalse, IsTrue, OnOk};
ghost use Rattle.gix_object.specs.Bytes.{carriage_return, newline};
ghost use Rattle.gix_object.specs.BodyLines as lines;
ghost use Rattle.gix_object.specs.BodyLines.{without_last_byte};
ghost use Rattle.gixobj_examples_objects.specs.Assembled.{IsDescribedMessageOf, IsLineTrailer, IsMessageError};
ghost use Rattle.gixobj_examples_objects.specs.Assembled.{IsMessageOf, IsTitleError, IsTitleLine, IsToken};
ghost use Rattle.gixobj_examples_objects.specs.Assembled.{IsTrailerError, trailer_line, trailer_lines, trailer_section};

pub mod laws;

use bstr::{BString, ByteSlice};
use gix_object::OutOfMemory;
use laws::{assembled_message_has_parts, described_message_has_parts};
use std::alloc::{AllocError, Global};
use std::marker::Model;

/// A trailer, with its token and its value. [`message_of`] writes it as a line.
#[derive(Debug, Drop)]
pub struct Trailer {
    /// The token, such as `Signed-off-by`.
    pub token: BString,
    /// The value.
    pub value: BString,
}

impl Model for Trailer {
    ghost use Rattle.bstr.specs.Owned.{bstring_bytes};
    ghost use Rattle.gix_object.specs.Trailers.{TrailerView};

    ghost Value = { TrailerView };

    ghost view = { λ trailer. record {
      token = bstring_bytes trailer.token;
      value = bstring_bytes trailer.value;
    } };
}

/// The error of [`message_of`] and of [`message_with_description`].
#[derive(Debug, Drop, thiserror::Error)]
pub enum MessageError {
    /// The title has a newline, or ends in a carriage return.
    #[error("the title isn't one line")]
    Title,
    /// A trailer isn't one line: its token is empty or has another byte than ASCII letters, digits and `-`, or
    /// its value has a newline, or white space at an end.
    #[error("trailer {index} isn't one line")]
    Trailer {
        /// The index of the trailer, from 0.
        index: usize,
    },
    /// An allocation failed.
    #[error("out of memory")]
    OutOfMemory,
}

impl From<AllocError> for MessageError {
    ghost use Rattle.gixobj_examples_objects.specs.declared.assembler.MessageError.TheVariants as message;

    ghost from_gives = { λ _ error. error ≡ message.OutOfMemory };

    fn from(_: AllocError) -> MessageError {
        MessageError::OutOfMemory
    }
}

impl From<OutOfMemory> for MessageError {
    ghost use Rattle.gixobj_examples_objects.specs.declared.assembler.MessageError.TheVariants as message;

    ghost from_gives = { λ _ error. error ≡ message.OutOfMemory };

    fn from(_: OutOfMemory) -> MessageError {
        MessageError::OutOfMemory
    }
}

/// Assembles a message: the title, an empty line, and a line for each trailer.
///
/// The message has this title and these trailers. Allocates the message.
///
/// # Errors
///
/// - [`MessageError::Title`] if the title isn't one line;
/// - [`MessageError::Trailer`] with the index of the first trailer that isn't one line;
/// - [`MessageError::OutOfMemory`] if allocation fails.
pub fn message_of(
    alloc: Global,
    title: &[u8],
    trailers: &[Trailer],
) -> Result<Vec<u8>, MessageError>
    ensures message { IfOk result (λ it. IsMessageOf title.now trailers.now it.items) }
    ensures error { IfErr result (IsMessageError title.now trailers.now) }
{
    assembled_message_has_parts();
    let mut message = begin_message(alloc, title)?;
    push_trailers(alloc, &mut message, trailers)?;
    Ok(message)
}

/// Assembles a message: the title, an empty line, a description, another empty line, and a line for each trailer.
///
/// The message has this title; its body begins with the description and a newline. With trailers it has these
/// trailers, and without trailers no second empty line. Allocates the message.
///
/// # Errors
///
/// - [`MessageError::Title`] if the title isn't one line;
/// - [`MessageError::Trailer`] with the index of the first trailer that isn't one line;
/// - [`MessageError::OutOfMemory`] if allocation fails.
pub fn message_with_description(
    alloc: Global,
    title: &[u8],
    description: &[u8],
    trailers: &[Trailer],
) -> Result<Vec<u8>, MessageError>
    ensures message { IfOk result (λ it.
        IsDescribedMessageOf title.now description.now trailers.now it.items) }
    ensures error { IfErr result (IsMessageError title.now trailers.now) }
{
    described_message_has_parts();
    let mut message = begin_message(alloc, title)?;
    message.extend_from_slice(description)?;
    message.extend_from_slice(b"\n")?;
    push_section(alloc, &mut message, trailers)?;
    Ok(message)
}

/// Begins a message: the title, and an empty line.
fn begin_message(alloc: Global, title: &[u8]) -> Result<Vec<u8>, MessageError>
    ensures begun { IfOk result (λ it. it.items ≡ title.now ++ newline ∷ newline ∷ []) }
    ensures one_line { OnOk result (IsTitleLine title.now) }
    ensures error { IfErr result (IsTitleError title.now) }
{
    if !is_title_line(title) {
        return Err(MessageError::Title);
    }
    let mut message = Vec::from_slice(alloc, title)?;
    message.extend_from_slice(b"\n\n")?;
    Ok(message)
}

/// Appends an empty line and a line for each trailer, or nothing without trailers.
fn push_section(
    alloc: Global,
    message: &mut Vec<u8>,
    trailers: &[Trailer],
) -> Result<(), MessageError>
    ensures appended { OnOk result (message.new.items
        ≡ message.old.items ++ trailer_section trailers.now) }
    ensures lines { OnOk result (All IsLineTrailer trailers.now) }
    ensures error { IfErr result (IsTrailerError trailers.now) }
{
    if trailers.is_empty() {
        return Ok(());
    }
    message.extend_from_slice(b"\n")?;
    push_trailers(alloc, message, trailers)
}

/// Appends a line for each trailer.
fn push_trailers(
    alloc: Global,
    message: &mut Vec<u8>,
    trailers: &[Trailer],
) -> Result<(), MessageError>
    ensures appended { OnOk result (message.new.items
        ≡ message.old.items ++ trailer_lines trailers.now) }
    ensures lines { OnOk result (All IsLineTrailer trailers.now) }
    ensures error { IfErr result (IsTrailerError trailers.now) }
{
    for index in 0..trailers.len() {
        if !is_line_trailer(alloc, &trailers[index])? {
            return Err(MessageError::Trailer { index });
        }
        push_line(message, &trailers[index])?;
    }
    Ok(())
}

/// Tests if a title is one line.
fn is_title_line(title: &[u8]) -> bool
    ensures { IsTrue result ↔ IsTitleLine title.now }
{
    !title.contains(&b'\n') && !ends_in_return(title)
}

/// Tests if bytes end in a carriage return.
#[tactic(auto, using(crate::proofs::CarriageReturns::kept_iff_other, crate::proofs::CarriageReturns::kept_of_nil))]
fn ends_in_return(bytes: &[u8]) -> bool
    ensures { IsFalse result ↔ (without_last_byte carriage_return bytes.now ≡ bytes.now) }
{
    match bytes.split_last() {
        Some((last, _)) => *last == b'\r',
        None => false,
    }
}

/// Tests if a trailer is one line. Allocates a copy of its value.
fn is_line_trailer(alloc: Global, trailer: &Trailer) -> Result<bool, AllocError>
    ensures { IfOk result (λ is. IsTrue is ↔ IsLineTrailer trailer.now) }
{
    let mut spaced = Vec::from_slice(alloc, b" ")?;
    spaced.extend_from_slice(&trailer.value)?;
    let is_trimmed = spaced.as_slice().trim() == trailer.value.as_slice();
    Ok(is_token(&trailer.token) && is_title_line(&trailer.value) && is_trimmed)
}

/// Tests if bytes are a token: one byte at least, and token bytes alone.
fn is_token(bytes: &[u8]) -> bool
    ensures { IsTrue result ↔ IsToken bytes.now }
{
    !bytes.is_empty() && bytes.iter().all(is_token_byte)
}

/// Tests if a byte is one of a token.
fn is_token_byte(byte: &u8) -> bool
    ensures { result ≡ lines.is_token_byte byte.now }
{
    byte.is_ascii_alphanumeric() || *byte == b'-'
}

/// Appends the line of a trailer.
fn push_line(message: &mut Vec<u8>, trailer: &Trailer) -> Result<(), AllocError>
    ensures { OnOk result (message.new.items ≡ message.old.items ++ trailer_line trailer.now) }
{
    message.extend_from_slice(&trailer.token)?;
    message.extend_from_slice(b": ")?;
    message.extend_from_slice(&trailer.value)?;
    message.extend_from_slice(b"\n")
}
