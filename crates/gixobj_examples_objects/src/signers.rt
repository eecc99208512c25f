//! A reader of messages, who lists the sign-offs of a commit, finds its last trailer, and splits a body.
ghost use Rattle.std.specs.Prelude.{◌≡◌, IfErr, IfOk, OnErr, map, option_map};
ghost use Rattle.gix_object.specs.MessageBlocks.{joined_parts};
ghost use Rattle.gix_object.specs.Bodies.{bytes_of_body};
ghost use Rattle.gix_object.specs.Commit.{CommitLines, DecodesToCommit, IsMalformedCommit};
ghost use Rattle.gix_object.specs.CommitViews.{commit_lines};
ghost use Rattle.gix_object.specs.BlockSteps.{block_view};
ghost use Rattle.gix_object.specs.TrailerSteps.{trailer_view};
ghost use Rattle.gix_object.specs.hash.decode.Error.TheVariants.{Malformed};
ghost use Rattle.gixobj_examples_objects.specs.Signers.{AreSignOffs, HasContinuedLine, IsLastTrailer};

use gix_object::commit::message::BodyRef;
use gix_object::commit::message::body::{MessageBlock, TrailerRef};
use gix_object::decode::Error;
use gix_object::hash::Kind;
use gix_object::laws::{parts_append_to_body, readers_yield_all};
use gix_object::{CommitRef, OutOfMemory};
use std::alloc::Global;

/// Decodes a commit, and returns the trailers that sign it off, in order (git-interpret-trailers).
///
/// Allocates the decoded commit, the list, and the values of trailers of several lines.
///
/// # Errors
///
/// - [`Error::Malformed`] if the bytes aren't the encoding of a commit;
/// - [`Error::OutOfMemory`] if allocation fails.
pub fn signers_of<'a>(
    alloc: Global,
    bytes: &'a [u8],
    kind: Kind,
) -> Result<Vec<TrailerRef<'a>>, Error>
    ensures found { IfOk result (λ it. (commit : CommitLines)
        × DecodesToCommit kind bytes.now commit
        × AreSignOffs commit.message (map trailer_view it.items)) }
    ensures error { IfErr result (λ error. error ≡ Malformed → IsMalformedCommit kind bytes.now) }
{
    let commit = CommitRef::from_bytes(alloc, bytes, kind)?;
    let signers = sign_offs_of(alloc, &commit)?;
    Ok(signers)
}

/// Returns the trailers of a commit's message that sign it off, in order.
///
/// Allocates the list, and the values of trailers of several lines.
///
/// # Errors
///
/// [`OutOfMemory`] if allocation fails.
pub fn sign_offs_of<'a>(
    alloc: Global,
    commit: &CommitRef<'a>,
) -> Result<Vec<TrailerRef<'a>>, OutOfMemory>
    ensures { IfOk result (λ it. AreSignOffs (commit_lines commit.now).message
        (map trailer_view it.items)) }
{
    readers_yield_all();
    let mut found = Vec::new(alloc);
    for trailer in commit.signed_off_by_trailers(alloc) {
        found.push(trailer?)?;
    }
    Ok(found)
}

/// Returns the last trailer of a commit's message, or `None` if it has none. Allocates nothing if each
/// trailer is of one line.
///
/// # Errors
///
/// [`OutOfMemory`] if a line of the trailer block continues another, and allocation for a value fails.
pub fn last_trailer_of<'a>(
    alloc: Global,
    commit: &CommitRef<'a>,
) -> Result<Option<TrailerRef<'a>>, OutOfMemory>
    ensures found { IfOk result (λ last. IsLastTrailer (commit_lines commit.now).message
        (option_map trailer_view last)) }
    ensures allocates { OnErr result (HasContinuedLine (commit_lines commit.now).message) }
{
    readers_yield_all();
    let mut last = None;
    for trailer in commit.message_trailers(alloc) {
        last = Some(trailer?);
    }
    Ok(last)
}

/// Returns the messages of a body, each with the trailers that follow it. Their concatenation is the body.
/// Allocates the list.
///
/// # Errors
///
/// [`OutOfMemory`] if allocation fails.
pub fn parts_of<'a>(alloc: Global, body: &BodyRef<'a>) -> Result<Vec<MessageBlock<'a>>, OutOfMemory>
    ensures { IfOk result (λ it. joined_parts (map block_view it.items) ≡ bytes_of_body body.now) }
{
    parts_append_to_body();
    readers_yield_all();
    let blocks = body.message_blocks().collect(alloc)?;
    Ok(blocks)
}
