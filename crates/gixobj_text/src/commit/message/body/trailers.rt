//! Trailers and the unfolding of their values (git-interpret-trailers, "DESCRIPTION").
ghost use Rattle.std.specs.Prelude.{◌≡◌, ◌≤◌, [], length, map, true, IfOk, IfErr, MatchOption, codes};
ghost use Rattle.std.specs.Cow.{cow_slice_items};
ghost use Rattle.bstr.specs.BStr.{bstr_bytes};
ghost use Rattle.bstr.specs.Text.{lines_of};
ghost use Rattle.gixobj_text.specs.TrailerSteps.{NextTrailer, remaining_trailer_count, is_owned, remaining_bytes};
ghost use Rattle.gixobj_text.specs.BodyLines.{is_continuation_line, trimmed_line};
ghost use Rattle.gixobj_text.specs.FirstLines.{HasLastLines};
ghost use Rattle.gixobj_text.specs.TrailerNames.{is_named, names_attribution};
ghost use Rattle.gixobj_text.specs.Trailers.{trailers_of_bytes, unfolded as unfolded_of};
ghost use Rattle.gixobj_hash.specs.ByteStrings.{trimmed};
ghost use Rattle.gixobj_text.specs.Unfolding.{IsNextTrailer, has_lines, continuation_lines, with_folded, with_piece};

use crate::commit::message::body::lines::{
    begins_indented, is_blank_line, line_content, split_line,
};
use crate::commit::message::body::trailer_lines::split_trailer;
use bstr::{BStr, ByteSlice};
use gixobj_hash::memory::OutOfMemory;
use std::alloc::{AllocError, Global};
use std::borrow::CowSlice;

/// A trailer: a token and a value (git-interpret-trailers, "DESCRIPTION"). [`Trailers`] yields it.
#[derive(Clone, Debug, Drop, PartialEq, Eq, PartialOrd, Ord, Hash)]
pub struct TrailerRef<'a> {
    /// The token, such as `Signed-off-by`: ASCII letters, ASCII digits and `-`.
    pub token: BStr<'a>,
    /// The bytes after the colon, trimmed; a value of one line is borrowed. Several lines are unfolded into
    /// an owned value: each trimmed, empty ones left out, joined by spaces.
    pub value: CowSlice<'a, u8>,
}

/// Access. Tokens are compared with ASCII case ignored. These calls allocate nothing.
impl TrailerRef<'_> {
    /// Returns whether the token is `Signed-off-by` (git-commit, `--signoff`), ASCII case ignored.
    /// Allocates nothing.
    pub fn is_signed_off_by(&self) -> bool
        ensures { result ≡ is_named (codes "Signed-off-by") (bstr_bytes self.now.token) }
    {
        self.is_named(b"Signed-off-by")
    }

    /// Returns whether the token is `Co-authored-by`, ASCII case ignored. Allocates nothing.
    pub fn is_co_authored_by(&self) -> bool
        ensures { result ≡ is_named (codes "Co-authored-by") (bstr_bytes self.now.token) }
    {
        self.is_named(b"Co-authored-by")
    }

    /// Returns whether the token is `Assisted-by`, ASCII case ignored. Allocates nothing.
    pub fn is_assisted_by(&self) -> bool
        ensures { result ≡ is_named (codes "Assisted-by") (bstr_bytes self.now.token) }
    {
        self.is_named(b"Assisted-by")
    }

    /// Returns whether the token is `Acked-by`, ASCII case ignored. Allocates nothing.
    pub fn is_acked_by(&self) -> bool
        ensures { result ≡ is_named (codes "Acked-by") (bstr_bytes self.now.token) }
    {
        self.is_named(b"Acked-by")
    }

    /// Returns whether the token is `Reviewed-by`, ASCII case ignored. Allocates nothing.
    pub fn is_reviewed_by(&self) -> bool
        ensures { result ≡ is_named (codes "Reviewed-by") (bstr_bytes self.now.token) }
    {
        self.is_named(b"Reviewed-by")
    }

    /// Returns whether the token is `Tested-by`, ASCII case ignored. Allocates nothing.
    pub fn is_tested_by(&self) -> bool
        ensures { result ≡ is_named (codes "Tested-by") (bstr_bytes self.now.token) }
    {
        self.is_named(b"Tested-by")
    }

    /// Returns whether the token names anyone who had a part in the change, ASCII case ignored. Authors:
    /// `Signed-off-by`, `Co-authored-by`. Others: `Assisted-by`, `Acked-by`, `Reviewed-by`, `Tested-by`.
    /// Allocates nothing.
    pub fn is_attribution(&self) -> bool
        ensures { result ≡ names_attribution (bstr_bytes self.now.token) }
    {
        self.is_signed_off_by()
            || self.is_co_authored_by()
            || self.is_assisted_by()
            || self.is_acked_by()
            || self.is_reviewed_by()
            || self.is_tested_by()
    }

    /// Returns whether the token is this name, ASCII case ignored.
    fn is_named(&self, name: &[u8]) -> bool
        ensures { result ≡ is_named name.now (bstr_bytes self.now.token) }
    {
        self.token.as_bytes().eq_ignore_ascii_case(name)
    }
}

/// An iterator over trailers, in order; it skips other lines. `BodyRef::trailers` makes one.
#[derive(Clone, Copy)]
pub struct Trailers<'a> {
    alloc: Global,
    cursor: &'a [u8],
}

/// Initialization
impl<'a> Trailers<'a> {
    /// Returns an iterator over the trailers of `cursor`.
    pub(crate) fn new(alloc: Global, cursor: &'a [u8]) -> Trailers<'a>
        ensures { remaining_bytes result ≡ cursor.now }
    {
        Trailers { alloc, cursor }
    }
}

/// Access
impl<'a> Trailers<'a> {
    /// Returns the remaining bytes.
    pub(crate) fn remaining(&self) -> &'a [u8]
        ensures { result.now ≡ remaining_bytes self.now }
    {
        self.cursor
    }
}

/// Yields trailers in order. A value of one line allocates nothing; a value of several lines is allocated.
///
/// # Errors
///
/// [`OutOfMemory`] if the allocation for a value of several lines fails. The next item is then `None`.
impl<'a> Iterator for Trailers<'a> {
    type Item = Result<TrailerRef<'a>, OutOfMemory>;

    ghost next_gives = { NextTrailer };

    ghost remaining = { remaining_trailer_count };

    #[tactic(auto, using(crate::proofs::LastLines::last_lines_trans))]
    fn next(&mut self) -> Option<Result<TrailerRef<'a>, OutOfMemory>> {
        let Some((token, first, rest)) = next_trailer(self.cursor) else {
            self.cursor = b"";
            return None;
        };
        match parse_trailer(self.alloc, token, first, rest) {
            Ok(trailer) => {
                self.cursor = after_continuation_lines(rest);
                Some(Ok(trailer))
            }
            Err(_) => {
                self.cursor = b"";
                Some(Err(OutOfMemory))
            }
        }
    }
}

/// Returns the token of the next trailer line, the bytes after its colon, and the lines after it.
fn next_trailer(bytes: &[u8]) -> Option<(&[u8], &[u8], &[u8])>
    ensures { MatchOption result (trailers_of_bytes bytes.now ≡ [])
        (λ it. IsNextTrailer bytes.now it.0.now it.1.now it.2.now) }
{
    let mut rest = bytes;
    'lines: while let Some((line, following)) = split_line(rest) {
        if let Some((token, first)) = split_trailer(line_content(line)) {
            return Some((token, first, following));
        }
        rest = following;
    }
    None
}

/// Returns whether a line continues the trailer before it.
#[inline(always)]
pub(crate) fn is_continuation(line: &[u8]) -> bool
    ensures { result ≡ is_continuation_line line.now }
{
    let bytes = line_content(line);
    begins_indented(bytes) && !is_blank_line(bytes)
}

/// Skips the lines that continue a trailer.
#[inline(always)]
#[tactic(auto, using(crate::proofs::TrailerDecoding::parts_of_continuation_line, crate::proofs::TrailerDecoding::trailers_of_bytes_skip, crate::proofs::TrailerDecoding::rest_len_lt, crate::proofs::LastLines::last_lines_refl, crate::proofs::LastLines::last_lines_step))]
fn after_continuation_lines(bytes: &[u8]) -> &[u8]
    ensures trailers { trailers_of_bytes result.now ≡ trailers_of_bytes bytes.now }
    ensures within { length result.now ≤ length bytes.now }
    ensures last_lines { HasLastLines bytes.now result.now }
{
    if !begins_indented(bytes) {
        return bytes;
    }
    let mut rest = bytes;
    'lines: while let Some((line, following)) = split_line(rest) {
        if !is_continuation(line) {
            return rest;
        }
        rest = following;
    }
    rest
}

/// Returns whether the bytes begin with a line that continues a trailer.
#[inline(always)]
#[tactic(auto, using(crate::proofs::TrailerDecoding::no_continuation_lines_at_end, crate::proofs::ContinuationLines::first_line_not_folded))]
fn has_continuation_lines(bytes: &[u8]) -> bool
    ensures { result ≡ has_lines (continuation_lines bytes.now) }
{
    if !begins_indented(bytes) {
        return false;
    }
    match split_line(bytes) {
        Some((line, _)) => is_continuation(line),
        None => false,
    }
}

/// Decodes a trailer from its token, the bytes after its colon, and the lines after that.
#[tactic(auto, using(crate::proofs::TrailerDecoding::with_folded_eq_unfolded, crate::proofs::TrailerDecoding::unfolded_eq_trimmed))]
fn parse_trailer<'a>(
    alloc: Global,
    token: &'a [u8],
    first: &'a [u8],
    rest: &[u8],
) -> Result<TrailerRef<'a>, AllocError>
    ensures token { IfOk result (λ it. bstr_bytes it.token ≡ token.now) }
    ensures value { IfOk result (λ it. cow_slice_items it.value
        ≡ unfolded_of first.now (map trimmed_line (continuation_lines rest.now))) }
    ensures owned { IfOk result (λ it. is_owned it.value
        ≡ has_lines (continuation_lines rest.now)) }
    ensures error { IfErr result (λ _. has_lines (continuation_lines rest.now) ≡ true) }
{
    if has_continuation_lines(rest) {
        let value = unfolded(alloc, first, rest)?;
        return Ok(TrailerRef {
            token: BStr::new(token),
            value: CowSlice::Owned(value),
        });
    }
    Ok(TrailerRef {
        token: BStr::new(token),
        value: CowSlice::Borrowed(first.trim()),
    })
}

/// Returns the unfolded value of several lines.
#[tactic(auto, using(crate::proofs::TrailerDecoding::with_folded_cons, crate::proofs::TrailerDecoding::with_folded_at_unfolded, crate::proofs::TrailerDecoding::with_folded_at_end, crate::proofs::TrailerDecoding::rest_len_lt))]
fn unfolded(alloc: Global, first: &[u8], rest: &[u8]) -> Result<Vec<u8>, AllocError>
    ensures { IfOk result (λ it. it.items
        ≡ with_folded (with_piece [] (trimmed first.now)) (lines_of rest.now)) }
{
    let mut value = Vec::new(alloc);
    push_piece(&mut value, first.trim())?;
    let mut pending = rest;
    'lines: while let Some((line, following)) = split_line(pending) {
        if !is_continuation(line) {
            return Ok(value);
        }
        push_piece(&mut value, line_content(line).trim())?;
        pending = following;
    }
    Ok(value)
}

/// Appends a piece unless it is empty; a space separates it from the pieces before.
fn push_piece(value: &mut Vec<u8>, piece: &[u8]) -> Result<(), AllocError>
    ensures { IfOk result (λ _. value.new.items ≡ with_piece value.old.items piece.now) }
{
    if piece.is_empty() {
        return Ok(());
    }
    if !value.is_empty() {
        value.push(b' ')?;
    }
    value.extend_from_slice(piece)
}
