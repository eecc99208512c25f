//! A rewriter of messages, which renames trailers (git-interpret-trailers).
ghost use Rattle.std.specs.Prelude.{◌≡◌, IfErr, IfOk, drop, map};
ghost use Rattle.gix_object.specs.Bodies.{bytes_of_body, trailer_block_start};
ghost use Rattle.gix_object.specs.TrailerSteps.{trailer_view};
ghost use Rattle.gix_object.specs.Trailers.{trailers_of_bytes};
ghost use Rattle.gixobj_examples_objects.specs.Assembled.{IsRenamed, IsRenamingError, renamed};

use crate::assembler::{MessageError, Trailer, message_of};
use bstr::BString;
use gix_object::OutOfMemory;
use gix_object::commit::MessageRef;
use gix_object::commit::message::BodyRef;
use gix_object::commit::message::body::TrailerRef;
use gix_object::laws::readers_yield_all;
use std::alloc::{AllocError, Global};

/// Makes a message of the title of another and its trailers. The tokens that are `from`, ASCII case ignored,
/// are `to`.
///
/// The new message has this title, and these trailers in order, each with its value. The rest of the body is
/// left out. Allocates the trailers and the message.
///
/// # Errors
///
/// - [`MessageError::Title`] if the title isn't one line;
/// - [`MessageError::Trailer`] with the index of the first renamed trailer that isn't one line;
/// - [`MessageError::OutOfMemory`] if allocation fails.
pub fn with_renamed_trailers(
    alloc: Global,
    message: &[u8],
    from: &[u8],
    to: &[u8],
) -> Result<Vec<u8>, MessageError>
    ensures renamed { IfOk result (λ it. IsRenamed from.now to.now message.now it.items) }
    ensures error { IfErr result (IsRenamingError from.now to.now message.now) }
{
    let parts = MessageRef::from_bytes(message);
    let trailers = match parts.body() {
        Some(body) => renamed_trailers(alloc, &body, from, to)?,
        None => Vec::new(alloc),
    };
    message_of(alloc, parts.title.as_bytes(), &trailers)
}

/// Copies the trailers of a body, and renames them.
fn renamed_trailers(
    alloc: Global,
    body: &BodyRef<'_>,
    from: &[u8],
    to: &[u8],
) -> Result<Vec<Trailer>, OutOfMemory>
    ensures { IfOk result (λ it. it.items ≡ map (renamed from.now to.now)
        (trailers_of_bytes (drop (trailer_block_start body.now) (bytes_of_body body.now)))) }
{
    readers_yield_all();
    let mut trailers = Vec::new(alloc);
    for trailer in body.trailers(alloc) {
        trailers.push(renamed_copy(alloc, &trailer?, from, to)?)?;
    }
    Ok(trailers)
}

/// Copies a trailer, with another token if it has the one to be renamed.
fn renamed_copy(
    alloc: Global,
    trailer: &TrailerRef<'_>,
    from: &[u8],
    to: &[u8],
) -> Result<Trailer, AllocError>
    ensures { IfOk result (λ it. it ≡ renamed from.now to.now (trailer_view trailer.now)) }
{
    let token = if trailer.token.as_bytes().eq_ignore_ascii_case(from) {
        to
    } else {
        trailer.token.as_bytes()
    };
    Ok(Trailer {
        token: BString::from_slice(alloc, token)?,
        value: BString::from_slice(alloc, &trailer.value)?,
    })
}
