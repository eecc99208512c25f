//! Decodes or skips the line at the beginning of a commit's remaining bytes, by the state of the decoder.
ghost use Rattle.std.specs.Prelude.{◌≡◌, ◌≢◌, ◌∷◌, [], ℕ, List, IfErr, IfNone, IfOk, IfSome, MatchBool, MatchOption};
ghost use Rattle.bstr.specs.BStr.{bstr_bytes};
ghost use Rattle.gixobj_actor.specs.Actor.{IsActorOf, actor_view};
ghost use Rattle.gixobj_hash.specs.HeaderFormat.{BeginsWithHeader, BeginsWithNoHeader, Header, IsHeaderName};
ghost use Rattle.gixobj_parse.specs.HeaderReading.{BeginsWithContinuations, BeginsWithNoContinuations};
ghost use Rattle.gixobj_hash.specs.Runs.{HasNoPiece};
ghost use Rattle.gixobj_hash.specs.ByteStrings.{IsByteFree};
ghost use Rattle.gixobj_hash.specs.declared.hash.kind.Kind.{Kind};
ghost use Rattle.gixobj_grammar.specs.Lines.{BeginsWithActorField, BeginsWithLine, BeginsWithNoActorField};
ghost use Rattle.gixobj_grammar.specs.Lines.{BeginsWithSomeLine, IsLineError, IsParsedLine, line_view};
ghost use Rattle.gixobj_grammar.specs.declared.lines.State.TheVariants as state;
ghost use Rattle.gixobj_hash.specs.Bytes.{newline};

use bstr::BStr;
use gixobj_actor::actor::SignatureRef;
use gixobj_actor::parse::signature_of_line;
use gixobj_hash::decode::Error;
use gixobj_hash::hash::Kind;
use gixobj_hash::split::{has_byte, split_at_byte};
use gixobj_parse::parse::{
    after_name, after_newline, after_space, any_header_field, header_field, header_id,
};
use std::alloc::Global;
use std::borrow::CowSlice;

/// The state of a commit's decoder: which lines may come next.
#[derive(Clone, Copy)]
pub enum State {
    /// The tree.
    Tree,
    /// A parent or the author.
    Parents,
    /// The committer.
    Committer,
    /// The encoding, another header or the message.
    Encoding,
    /// A header or the message.
    ExtraHeaders,
    /// No line: the message was decoded.
    End,
}

/// A line of a commit, or a header of several lines. [`decode_line`] decodes one.
#[derive(Drop)]
pub enum Line<'a> {
    /// The hex of the tree's id.
    Tree(BStr<'a>),
    /// The hex of a parent's id.
    Parent(BStr<'a>),
    /// The value of the author's field, and the actor that it decodes to.
    Author(BStr<'a>, SignatureRef<'a>),
    /// The value of the committer's field, and the actor that it decodes to.
    Committer(BStr<'a>, SignatureRef<'a>),
    /// The name of the message's encoding.
    Encoding(BStr<'a>),
    /// The name and the value of an extra header. A value of one line is borrowed, and one of several lines
    /// is owned.
    ExtraHeader((BStr<'a>, CowSlice<'a, u8>)),
    /// The message.
    Message(BStr<'a>),
}

/// Decodes the line of a commit at the beginning of the input, in the state `before`.
///
/// Returns the line, the state after it and the rest of the input. Ids are hex of the hash function `kind`.
/// An extra header may have several lines.
///
/// Allocates only the value of a header of several lines.
///
/// # Errors
///
/// - [`Error::Malformed`] if the input begins with no line that may come in this state.
/// - [`Error::OutOfMemory`] if the value of a header of several lines can't be allocated.
#[inline(always)]
pub fn decode_line(
    alloc: Global,
    before: State,
    kind: Kind,
    input: &[u8],
) -> Result<(Line<'_>, State, &[u8]), Error>
    ensures found { IfOk result (λ it. BeginsWithLine kind before input.now (line_view it.0) it.1
        it.2.now) }
    ensures parts { IfOk result (λ it. IsParsedLine it.0) }
    ensures error { IfErr result (IsLineError kind before input.now) }
{
    match before {
        State::Tree => decode_tree_line(kind, input),
        State::Parents => decode_parent_or_author(kind, input),
        State::Committer => decode_committer(input),
        State::Encoding => decode_encoding_or_header(alloc, input),
        State::ExtraHeaders => decode_header_or_message(alloc, input),
        State::End => Err(Error::Malformed),
    }
}

/// Decodes the tree.
#[inline(always)]
#[tactic(auto, using(crate::specs::Lines::tree_comes))]
fn decode_tree_line(kind: Kind, input: &[u8]) -> Result<(Line<'_>, State, &[u8]), Error>
    ensures found { IfOk result (λ it. BeginsWithLine kind state.Tree input.now
        (line_view it.0) it.1
        it.2.now) }
    ensures parts { IfOk result (λ it. IsParsedLine it.0) }
    ensures error { IfErr result (IsLineError kind state.Tree input.now) }
{
    let Some((hex, rest)) = header_id(input, b"tree", kind) else {
        return Err(Error::Malformed);
    };
    Ok((Line::Tree(hex), State::Parents, rest))
}

/// Decodes a parent, or else the author.
#[inline(always)]
#[tactic(auto, using(crate::specs::Lines::parent_comes, crate::specs::Lines::author_comes))]
fn decode_parent_or_author(kind: Kind, input: &[u8]) -> Result<(Line<'_>, State, &[u8]), Error>
    ensures found { IfOk result (λ it. BeginsWithLine kind state.Parents input.now
        (line_view it.0) it.1
        it.2.now) }
    ensures parts { IfOk result (λ it. IsParsedLine it.0) }
    ensures error { IfErr result (IsLineError kind state.Parents input.now) }
{
    if let Some((hex, rest)) = header_id(input, b"parent", kind) {
        return Ok((Line::Parent(hex), State::Parents, rest));
    }
    let Some((line, actor, rest)) = actor_line(input, b"author") else {
        return Err(Error::Malformed);
    };
    Ok((Line::Author(line, actor), State::Committer, rest))
}

/// Decodes the committer.
#[inline(always)]
#[tactic(auto, using(crate::specs::Lines::committer_comes))]
fn decode_committer(input: &[u8]) -> Result<(Line<'_>, State, &[u8]), Error>
    ensures found { (kind : Kind) → IfOk result
        (λ it. BeginsWithLine kind state.Committer input.now (line_view it.0) it.1 it.2.now) }
    ensures parts { IfOk result (λ it. IsParsedLine it.0) }
    ensures error { (kind : Kind) → IfErr result (IsLineError kind state.Committer input.now) }
{
    let Some((line, actor, rest)) = actor_line(input, b"committer") else {
        return Err(Error::Malformed);
    };
    Ok((Line::Committer(line, actor), State::Encoding, rest))
}

/// Decodes the encoding if its name comes, and else a header or the message.
#[inline(always)]
#[tactic(auto, using(crate::specs::Lines::encoding_comes))]
fn decode_encoding_or_header(alloc: Global, input: &[u8]) -> Result<(Line<'_>, State, &[u8]), Error>
    ensures found { (kind : Kind) → IfOk result
        (λ it. BeginsWithLine kind state.Encoding input.now (line_view it.0) it.1 it.2.now) }
    ensures parts { IfOk result (λ it. IsParsedLine it.0) }
    ensures error { (kind : Kind) → IfErr result (IsLineError kind state.Encoding input.now) }
{
    let Some(_) = after_name(input, b"encoding") else {
        return decode_header_or_message(alloc, input);
    };
    let Some((encoding, rest)) = header_field(input, b"encoding") else {
        return Err(Error::Malformed);
    };
    Ok((
        Line::Encoding(BStr::new(encoding)),
        State::ExtraHeaders,
        rest,
    ))
}

/// Decodes the message after an empty line, or else a header.
#[inline(always)]
#[tactic(auto, using(crate::specs::Lines::header_comes, crate::specs::Lines::message_comes, crate::proofs::LineErrors::line_error_at_headers))]
fn decode_header_or_message(alloc: Global, input: &[u8]) -> Result<(Line<'_>, State, &[u8]), Error>
    ensures found { (kind : Kind) → IfOk result
        (λ it. BeginsWithLine kind state.ExtraHeaders input.now (line_view it.0) it.1 it.2.now) }
    ensures parts { IfOk result (λ it. IsParsedLine it.0) }
    ensures error { (kind : Kind) → IfErr result (IsLineError kind state.ExtraHeaders input.now) }
{
    if let Some(message) = after_newline(input) {
        return Ok((Line::Message(BStr::new(message)), State::End, b""));
    }
    let (header, rest) = any_header_field(alloc, input)?;
    Ok((Line::ExtraHeader(header), State::ExtraHeaders, rest))
}

/// Decodes the field of this name with an actor: its value, the actor, and the rest of the input.
#[inline(always)]
fn actor_line<'a>(input: &'a [u8], name: &[u8]) -> Option<(BStr<'a>, SignatureRef<'a>, &'a [u8])>
    ensures found { IfSome result (λ it. BeginsWithActorField name.now input.now
        (bstr_bytes it.0) it.2.now) }
    ensures actor { IfSome result (λ it. IsActorOf (bstr_bytes it.0) (actor_view it.1)) }
    ensures none { IfNone result (BeginsWithNoActorField name.now input.now) }
{
    let Some((line, rest)) = header_field(input, name) else {
        return None;
    };
    let Some(actor) = signature_of_line(line) else {
        return None;
    };
    Some((BStr::new(line), actor, rest))
}

/// Skips the line of a commit at the beginning of the input, in the state `before`.
///
/// Returns the state after it and the rest of the input. Returns `None` if the input begins with no line that
/// may come in this state. Ids are hex of the hash function `kind`. Allocates nothing.
pub fn after_line(before: State, kind: Kind, input: &[u8]) -> Option<(State, &[u8])>
    ensures found { IfSome result (λ it. BeginsWithSomeLine kind before input.now it.0 it.1.now) }
    ensures none { IfNone result (HasNoPiece (BeginsWithLine kind) before input.now) }
{
    match before {
        State::Tree => after_tree(kind, input),
        State::Parents => after_parent_or_author(kind, input),
        State::Committer => after_committer(input),
        State::Encoding => after_encoding_or_header(input),
        State::ExtraHeaders => after_header_or_message(input),
        State::End => None,
    }
}

/// Skips the tree.
#[tactic(auto, using(crate::proofs::SkippedLines::no_tree))]
fn after_tree(kind: Kind, input: &[u8]) -> Option<(State, &[u8])>
    ensures found { IfSome result (λ it. BeginsWithSomeLine kind state.Tree input.now
        it.0 it.1.now) }
    ensures none { IfNone result (HasNoPiece (BeginsWithLine kind) state.Tree input.now) }
{
    let Some((_, rest)) = header_id(input, b"tree", kind) else {
        return None;
    };
    Some((State::Parents, rest))
}

/// Skips a parent, or else the author.
#[tactic(auto, using(crate::proofs::SkippedLines::no_parent_or_author))]
fn after_parent_or_author(kind: Kind, input: &[u8]) -> Option<(State, &[u8])>
    ensures found { IfSome result (λ it. BeginsWithSomeLine kind state.Parents input.now
        it.0 it.1.now) }
    ensures none { IfNone result (HasNoPiece (BeginsWithLine kind) state.Parents input.now) }
{
    if let Some((_, rest)) = header_id(input, b"parent", kind) {
        return Some((State::Parents, rest));
    }
    let Some((_, _, rest)) = actor_line(input, b"author") else {
        return None;
    };
    Some((State::Committer, rest))
}

/// Skips the committer.
#[tactic(auto, using(crate::proofs::SkippedLines::no_committer))]
fn after_committer(input: &[u8]) -> Option<(State, &[u8])>
    ensures found { (kind : Kind) → IfSome result
        (λ it. BeginsWithSomeLine kind state.Committer input.now it.0 it.1.now) }
    ensures none { (kind : Kind) → IfNone result
        (HasNoPiece (BeginsWithLine kind) state.Committer input.now) }
{
    let Some((_, _, rest)) = actor_line(input, b"committer") else {
        return None;
    };
    Some((State::Encoding, rest))
}

/// Skips the encoding if its name comes, and else a header or the message.
fn after_encoding_or_header(input: &[u8]) -> Option<(State, &[u8])>
    ensures found { (kind : Kind) → IfSome result
        (λ it. BeginsWithSomeLine kind state.Encoding input.now it.0 it.1.now) }
    ensures none { (kind : Kind) → IfNone result
        (HasNoPiece (BeginsWithLine kind) state.Encoding input.now) }
{
    let Some(_) = after_name(input, b"encoding") else {
        return after_header_or_message(input);
    };
    let Some((_, rest)) = header_field(input, b"encoding") else {
        return None;
    };
    Some((State::ExtraHeaders, rest))
}

/// Skips the message after an empty line, or else a header.
#[tactic(auto, using(crate::proofs::LineErrors::no_line_at_headers))]
fn after_header_or_message(input: &[u8]) -> Option<(State, &[u8])>
    ensures found { (kind : Kind) → IfSome result
        (λ it. BeginsWithSomeLine kind state.ExtraHeaders input.now it.0 it.1.now) }
    ensures none { (kind : Kind) → IfNone result
        (HasNoPiece (BeginsWithLine kind) state.ExtraHeaders input.now) }
{
    if let Some(_) = after_newline(input) {
        return Some((State::End, b""));
    }
    let Some(rest) = after_header(input) else {
        return None;
    };
    Some((State::ExtraHeaders, rest))
}

/// Skips the header at the beginning of the input, with its continuation lines, and returns the rest.
///
/// Returns `None` if the input begins with no header.
fn after_header(input: &[u8]) -> Option<&[u8]>
    ensures found { IfSome result
        (λ rest. (header : Header) × BeginsWithHeader input.now header rest.now) }
    ensures none { IfNone result (BeginsWithNoHeader input.now) }
{
    let Some((name, following)) = split_at_byte(input, b' ') else {
        return None;
    };
    if !is_header_name(name) {
        return None;
    }
    let Some((_, after)) = split_at_byte(following, b'\n') else {
        return None;
    };
    let Some(rest) = after_continuations(after) else {
        return None;
    };
    Some(rest)
}

/// Whether bytes without a space are the name of a header: not empty, and without newline.
fn is_header_name(name: &[u8]) -> bool
    ensures { MatchBool result ((name.now ≢ []) × IsByteFree newline name.now)
        (¬ IsHeaderName name.now) }
{
    !name.is_empty() && !has_byte(name, b'\n')
}

/// Skips the continuation lines at the beginning of the input, and returns the rest.
///
/// Returns `None` if one of them doesn't end in a newline.
#[tactic(auto, using(crate::proofs::SkippedLines::consumed_start, crate::proofs::SkippedLines::consumed_end, gixobj_parse::proofs::HeaderFields::unfolding_len_lt))]
fn after_continuations(input: &[u8]) -> Option<&[u8]>
    ensures found { IfSome result
        (λ rest. (more : List (List ℕ)) × BeginsWithContinuations input.now more rest.now) }
    ensures none { IfNone result (BeginsWithNoContinuations input.now) }
{
    let mut rest = input;
    while let Some(following) = after_space(rest) {
        let Some((_, after)) = split_at_byte(following, b'\n') else {
            return None;
        };
        rest = after;
    }
    Some(rest)
}
