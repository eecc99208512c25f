//! The messages of a body, each with the trailers that follow it.
ghost use Rattle.std.specs.Prelude.{◌≡◌, ◌≤◌, ◌-◌, ◌||◌, length, take};
ghost use Rattle.gixobj_text.specs.BodyLines.{is_continuation_line as is_continuation_line_of};
ghost use Rattle.gixobj_text.specs.BodyLines.{is_trailer_line as is_trailer_line_of};
ghost use Rattle.gixobj_text.specs.LineSteps.{IsAtTrailer, IsAfterTrailers};

use crate::commit::message::body::lines::{line_content, split_line};
use crate::commit::message::body::trailer_lines::is_line_of_trailer;
use crate::commit::message::body::trailers::{Trailers, is_continuation};
use bstr::BStr;
use std::alloc::Global;

/// A message of a body, and the trailers that follow it. [`MessageBlocks`] yields it.
#[derive(Clone, Copy, Debug)]
pub struct MessageBlock<'a> {
    /// The bytes of the message, with white space and line breaks unchanged.
    pub message: BStr<'a>,
    trailers: &'a [u8],
}

/// Access
impl<'a> MessageBlock<'a> {
    ghost use Rattle.gixobj_text.specs.BlockSteps.{bytes_of_trailers};
    ghost use Rattle.gixobj_text.specs.TrailerSteps.{remaining_bytes};

    /// Returns an iterator over the trailers that follow the message. Making the iterator allocates nothing.
    pub fn trailers(&self, alloc: Global) -> Trailers<'a>
        ensures { remaining_bytes result ≡ bytes_of_trailers self.now }
    {
        Trailers::new(alloc, self.trailers)
    }
}

/// An iterator over the messages of a body, each with its trailers. `BodyRef::message_blocks` makes one.
#[derive(Clone, Copy, Debug)]
pub struct MessageBlocks<'a> {
    cursor: &'a [u8],
    trailer_start: usize,
    ghost within: { trailer_start ≤ length cursor.now },
}

/// Initialization
impl<'a> MessageBlocks<'a> {
    ghost use Rattle.gixobj_text.specs.BlockSteps.{remaining_block_bytes, first_start};

    /// Returns the blocks of `content`; the first message has at least `trailer_start` bytes.
    pub(crate) fn new(content: &'a [u8], trailer_start: usize) -> MessageBlocks<'a>
        requires { trailer_start ≤ length content.now }
        ensures remaining { remaining_block_bytes result ≡ content.now }
        ensures start { first_start result ≡ trailer_start }
    {
        MessageBlocks {
            cursor: content,
            trailer_start,
        }
    }
}

/// Yields the messages of a body in order, each with the trailers that follow it. Allocates nothing.
impl<'a> Iterator for MessageBlocks<'a> {
    ghost use Rattle.gixobj_text.specs.BlockSteps.{NextBlock, remaining_block_count};

    type Item = MessageBlock<'a>;

    ghost next_gives = { NextBlock };

    ghost remaining = { remaining_block_count };

    fn next(&mut self) -> Option<MessageBlock<'a>> {
        if self.cursor.is_empty() {
            return None;
        }
        let (_, from) = self.cursor.split_at(self.trailer_start);
        let trailers = at_trailer(from);
        let rest = skip_trailers(trailers);
        let block = MessageBlock {
            message: BStr::new(prefix_before(self.cursor, trailers)),
            trailers: prefix_before(trailers, rest),
        };
        *self = MessageBlocks::new(rest, 0);
        Some(block)
    }
}

/// Returns `content` without its suffix `rest`.
fn prefix_before<'a>(content: &'a [u8], rest: &[u8]) -> &'a [u8]
    requires { length rest.now ≤ length content.now }
    ensures { result.now ≡ take (length content.now - length rest.now) content.now }
{
    &content[..content.len() - rest.len()]
}

/// Skips the lines before the first trailer line.
#[tactic(auto, using(crate::proofs::Steps::has_consumed_non_trailer_step, crate::proofs::Steps::is_at_trailer_at_end, crate::proofs::Steps::is_at_trailer_at_line))]
fn at_trailer(content: &[u8]) -> &[u8]
    ensures { IsAtTrailer content.now result.now }
{
    let mut rest = content;
    'lines: while let Some((line, after)) = split_line(rest) {
        if is_line_of_trailer(line_content(line)) {
            return rest;
        }
        rest = after;
    }
    rest
}

/// Returns whether a line is a trailer line or continues a trailer.
fn continues_trailer(line: &[u8]) -> bool
    ensures { result ≡ (is_trailer_line_of line.now || is_continuation_line_of line.now) }
{
    is_line_of_trailer(line_content(line)) || is_continuation(line)
}

/// Skips the consecutive trailers at the start of the bytes.
#[tactic(auto, using(crate::proofs::Steps::has_consumed_trailer_step, crate::proofs::Steps::is_after_trailers_at_end, crate::proofs::Steps::is_after_trailers_at_line))]
fn skip_trailers(content: &[u8]) -> &[u8]
    ensures { IsAfterTrailers content.now result.now }
{
    let mut rest = content;
    'lines: while let Some((line, after)) = split_line(rest) {
        if !continues_trailer(line) {
            return rest;
        }
        rest = after;
    }
    rest
}
