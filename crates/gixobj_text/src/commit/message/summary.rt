//! The summary of a message, its first lines on one line (git-log, "PRETTY FORMATS", `%s`).
ghost use Rattle.std.specs.Prelude.{◌≡◌, ◌<◌, ◌++◌, ◌∷◌, [], IfErr, IfOk, MatchOption, true, length};
ghost use Rattle.std.specs.Char.{is_whitespace};
ghost use Rattle.std.specs.Cow.{cow_slice_items};
ghost use Rattle.bstr.specs.Trim.{trim_end_by};
ghost use Rattle.gixobj_text.specs.TrailerSteps.{is_owned};
ghost use Rattle.gixobj_text.specs.SummaryPieces.{is_multiline};
ghost use Rattle.gixobj_text.specs.Titles.{pieces_of, summary_of, summary_of_pieces};
ghost use Rattle.gixobj_text.specs.Titles.{without_trailing as without_trailing_of};

use bstr::ByteSlice;
use gixobj_hash::memory::OutOfMemory;
use std::alloc::{AllocError, Global};
use std::borrow::CowSlice;

/// Returns the first lines of `content` on one line (git-log, "PRETTY FORMATS", `%s`).
///
/// The content is trimmed. One line is borrowed and allocates nothing. Several lines are joined by spaces in
/// an allocated value, up to the first empty line.
///
/// # Errors
///
/// [`OutOfMemory`] if the allocation for content of several lines fails.
#[tactic(auto, using(crate::proofs::Sums::summary_of_one_piece, crate::proofs::Sums::is_of_lines_false, crate::proofs::Sums::is_of_lines_true))]
pub fn summary<'a>(alloc: Global, content: &'a [u8]) -> Result<CowSlice<'a, u8>, OutOfMemory>
    ensures value { IfOk result (λ it. cow_slice_items it ≡ summary_of content.now) }
    ensures owned { IfOk result (λ it. is_owned it ≡ is_multiline content.now) }
    ensures error { IfErr result (λ _. is_multiline content.now ≡ true) }
{
    let inner = content.trim();
    match split_newline(inner) {
        None => Ok(CowSlice::Borrowed(inner)),
        Some((first, rest)) => {
            let value = joined_lines(alloc, first, rest)?;
            Ok(CowSlice::Owned(value))
        }
    }
}

/// Splits at the first newline into the piece before it and the bytes after it.
#[tactic(auto, using(crate::proofs::Sums::pieces_of_split, crate::proofs::Sums::pieces_of_newline_free))]
fn split_newline(content: &[u8]) -> Option<(&[u8], &[u8])>
    ensures { MatchOption result (pieces_of content.now ≡ content.now ∷ [])
        (λ it. (pieces_of content.now ≡ it.0.now ∷ pieces_of it.1.now)
        × (length it.1.now < length content.now)) }
{
    match content.find_byte(b'\n') {
        Some(position) => {
            let (piece, _) = content.split_at(position);
            let (_, rest) = content.split_at(position + 1);
            Some((piece, rest))
        }
        None => None,
    }
}

/// Returns a piece without the ASCII white space at its end.
#[tactic(auto, using(crate::proofs::Sums::without_trailing_space, crate::proofs::Sums::without_trailing_of_other, crate::proofs::Sums::without_trailing_nil))]
fn without_trailing(piece: &[u8]) -> &[u8]
    ensures { result.now ≡ without_trailing_of piece.now }
{
    let mut rest = piece;
    'bytes: while let Some((byte, prefix)) = rest.split_last() {
        if !byte.is_ascii_whitespace() {
            return rest;
        }
        rest = prefix;
    }
    rest
}

/// Appends a space and a piece.
fn push_spaced(value: &mut Vec<u8>, piece: &[u8]) -> Result<(), AllocError>
    ensures { IfOk result (λ _. value.new.items ≡ value.old.items ++ 32 ∷ piece.now) }
{
    value.push(b' ')?;
    value.extend_from_slice(piece)
}

/// Returns the value without white space at its end.
#[tactic(auto, using(crate::proofs::Sums::take_trimmed_len))]
fn trimmed_end(value: Vec<u8>) -> Vec<u8>
    ensures { result.items ≡ trim_end_by is_whitespace value.items }
{
    let mut value = value;
    let count = value.as_slice().trim_end().len();
    value.truncate(count);
    value
}

/// Returns the summary of a first piece and of the bytes after its newline.
#[tactic(auto, using(crate::proofs::Sums::summary_of_first_piece, crate::proofs::Sums::summary_of_next_piece, crate::proofs::Sums::summary_at_empty_piece, crate::proofs::Sums::summary_of_last_piece, crate::proofs::Sums::summary_of_empty_last_piece))]
fn joined_lines(alloc: Global, first: &[u8], rest: &[u8]) -> Result<Vec<u8>, AllocError>
    ensures { IfOk result (λ it. it.items ≡ summary_of_pieces (first.now ∷ pieces_of rest.now)) }
{
    let mut value = Vec::from_slice(alloc, without_trailing(first))?;
    let mut remaining = rest;
    'pieces: while let Some((piece, after)) = split_newline(remaining) {
        if piece.is_empty() {
            return Ok(trimmed_end(value));
        }
        push_spaced(&mut value, without_trailing(piece))?;
        remaining = after;
    }
    if remaining.is_empty() {
        return Ok(trimmed_end(value));
    }
    push_spaced(&mut value, remaining)?;
    Ok(value)
}
