//! Title, body, summary and trailers of commit messages (git-commit, "DISCUSSION"; git-interpret-trailers).
ghost use Rattle.std.specs.Prelude.{◌≡◌, ◌≤◌, [], IfErr, IfOk, IfNone, IfSome, MatchOption, None, drop, length, take};
ghost use Rattle.std.specs.Prelude.{true};
ghost use Rattle.std.specs.Cow.{cow_slice_items};
ghost use Rattle.bstr.specs.BStr.{bstr_bytes};
ghost use Rattle.bstr.specs.Text.{lines_of};
ghost use Rattle.gixobj_hash.specs.Optional.{bytes_if_some};
ghost use Rattle.gixobj_text.specs.TrailerSteps.{IsFirstTrailer, is_owned, remaining_bytes, trailer_view};
ghost use Rattle.gixobj_text.specs.MessageTrailers.{HasTrailerBlock};
ghost use Rattle.gixobj_text.specs.SummaryPieces.{is_multiline};
ghost use Rattle.gixobj_text.specs.Titles.{SplitsTitle, summary_of};
ghost use Rattle.gixobj_text.specs.TrailerBlocks.{IsTrailerBlockStart};
ghost use Rattle.gixobj_text.specs.Trailers.{trailers_of_bytes};
ghost use Rattle.gixobj_text.specs.Unfolding.{first_is_folded};

pub mod body;
mod decode;
pub mod summary;

use body::{MessageBlocks, TrailerRef, Trailers, block_start};
use bstr::BStr;
use decode::message_title_and_body;
use gixobj_hash::memory::OutOfMemory;
use std::alloc::Global;
use std::borrow::CowSlice;
use summary::summary;

/// A commit message as title and body (git-commit, "DISCUSSION"). [`MessageRef::from_bytes`] makes one.
#[derive(Clone, Copy, Debug, PartialEq, Eq, PartialOrd, Ord, Hash)]
pub struct MessageRef<'a> {
    /// The bytes before the first two consecutive line breaks, or the entire message without them. A line
    /// break is a newline, or a carriage return and a newline.
    pub title: BStr<'a>,
    /// The bytes after the first two consecutive line breaks, if there are any.
    pub body: Option<BStr<'a>>,
}

/// Initialization
impl<'a> MessageRef<'a> {
    /// Splits a message into its title and its body. Allocates nothing.
    pub fn from_bytes(input: &'a [u8]) -> MessageRef<'a>
        ensures { SplitsTitle input.now (bstr_bytes result.title) (bytes_if_some result.body) }
    {
        let (title, body) = message_title_and_body(input);
        MessageRef { title, body }
    }
}

/// Access
impl<'a> MessageRef<'a> {
    ghost use Rattle.gixobj_text.specs.Bodies.{IsBodyOf};

    /// Returns the body with the start of its trailer block, or `None` without a body. Allocates nothing.
    pub fn body(&self) -> Option<BodyRef<'a>>
        ensures found { IfSome result (IsBodyOf self.now.body) }
        ensures none { IfNone result (self.now.body ≡ None) }
    {
        match self.body {
            Some(body) => Some(BodyRef::from_bytes(body.as_bytes())),
            None => None,
        }
    }

    /// Returns the title on one line (git-log, "PRETTY FORMATS", `%s`).
    ///
    /// The title is trimmed. One line is borrowed and allocates nothing. Several lines are joined by spaces
    /// in an allocated value, up to the first empty line.
    ///
    /// # Errors
    ///
    /// [`OutOfMemory`] if the allocation for a title of several lines fails.
    pub fn summary(&self, alloc: Global) -> Result<CowSlice<'a, u8>, OutOfMemory>
        ensures value { IfOk result (λ it. cow_slice_items it
            ≡ summary_of (bstr_bytes self.now.title)) }
        ensures owned { IfOk result (λ it. is_owned it ≡ is_multiline (bstr_bytes self.now.title)) }
        ensures error { IfErr result (λ _. is_multiline (bstr_bytes self.now.title) ≡ true) }
    {
        summary(alloc, self.title.as_bytes())
    }
}

/// The body of a message, with the start of the trailer block at its end (git-interpret-trailers,
/// "DESCRIPTION"). [`MessageRef::body`] and [`BodyRef::from_bytes`] make one.
#[derive(Clone, Copy, Debug, PartialEq, Eq, PartialOrd, Ord, Hash)]
pub struct BodyRef<'a> {
    body: BStr<'a>,
    trailer_start: usize,
    ghost within: { trailer_start ≤ length (bstr_bytes body) },
}

/// Initialization
impl<'a> BodyRef<'a> {
    ghost use Rattle.gixobj_text.specs.Bodies.{bytes_of_body, trailer_block_start};

    /// Finds the trailer block of a body. Allocates nothing.
    ///
    /// The block is the last paragraph, if it consists of trailers. A paragraph with a line that git
    /// generates may have up to three other lines for each trailer (git-interpret-trailers, "DESCRIPTION").
    #[tactic(auto, using(crate::proofs::BlockStarts::block_start_le_len))]
    pub fn from_bytes(body: &'a [u8]) -> BodyRef<'a>
        ensures body { bytes_of_body result ≡ body.now }
        ensures start { IsTrailerBlockStart body.now (trailer_block_start result) }
    {
        BodyRef {
            body: BStr::new(body),
            trailer_start: block_start(body),
        }
    }
}

/// Access
impl<'a> BodyRef<'a> {
    ghost use Rattle.gixobj_text.specs.Bodies.{bytes_of_body, trailer_block_start};
    ghost use Rattle.gixobj_text.specs.BlockSteps.{remaining_block_bytes, first_start};

    /// Returns the body before its trailer block, or the entire body without a block. Allocates nothing.
    pub fn without_trailer(&self) -> BStr<'a>
        ensures { bstr_bytes result ≡ take (trailer_block_start self.now) (bytes_of_body self.now) }
    {
        BStr::new(&self.body.as_bytes()[..self.trailer_start])
    }

    /// Returns an iterator over the trailers of the block, in order. Making the iterator allocates nothing.
    pub fn trailers(&self, alloc: Global) -> Trailers<'a>
        ensures { remaining_bytes result ≡ drop (trailer_block_start self.now)
            (bytes_of_body self.now) }
    {
        Trailers::new(alloc, self.trailer_block())
    }

    /// Returns the trailer block.
    fn trailer_block(&self) -> &'a [u8]
        ensures { result.now ≡ drop (trailer_block_start self.now) (bytes_of_body self.now) }
    {
        &self.body.as_bytes()[self.trailer_start..]
    }

    /// Returns an iterator over the messages of the body, in order, each with the trailers that follow it.
    /// The first message extends at least to the trailer block. Allocates nothing.
    pub fn message_blocks(&self) -> MessageBlocks<'a>
        ensures remaining { remaining_block_bytes result ≡ bytes_of_body self.now }
        ensures start { first_start result ≡ trailer_block_start self.now }
    {
        MessageBlocks::new(self.body.as_bytes(), self.trailer_start)
    }
}

/// Returns an iterator over the trailers of a message's body, if any. Making the iterator allocates nothing.
pub fn message_trailers<'a>(alloc: Global, message: BStr<'a>) -> Trailers<'a>
    ensures { HasTrailerBlock (bstr_bytes message.entry) (remaining_bytes result) }
{
    Trailers::new(alloc, trailer_block(message.as_bytes()))
}

/// Returns the trailer block at the end of a message, empty without one. Allocates nothing.
pub fn trailer_block(message: &[u8]) -> &[u8]
    ensures { HasTrailerBlock message.now result.now }
{
    match MessageRef::from_bytes(message).body() {
        Some(body) => body.trailer_block(),
        None => b"",
    }
}

/// Decodes the first trailer of a trailer block, or of its last lines. Returns it with the lines after it, or `None` if
/// there is none. A value of one line allocates nothing; a value of several lines is allocated.
///
/// # Errors
///
/// [`OutOfMemory`] if the allocation for a value of several lines fails.
pub fn first_trailer(
    alloc: Global,
    lines: &[u8],
) -> Result<Option<(TrailerRef<'_>, &[u8])>, OutOfMemory>
    ensures found { IfOk result (λ found. MatchOption found (trailers_of_bytes lines.now ≡ [])
        (λ it. IsFirstTrailer lines.now (trailer_view it.0) it.1.now)) }
    ensures error { IfErr result (λ _. first_is_folded (lines_of lines.now) ≡ true) }
{
    let mut trailers = Trailers::new(alloc, lines);
    match trailers.next() {
        Some(Ok(trailer)) => Ok(Some((trailer, trailers.remaining()))),
        Some(Err(error)) => Err(error),
        None => Ok(None),
    }
}
