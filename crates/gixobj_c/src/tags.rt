//! The tokens of tags.
ghost use Rattle.std.specs.Prelude.{◌≡◌, ℕ, List, Some, drop};
ghost use Rattle.bstr.specs.BStr.{bstr_bytes};
ghost use Rattle.gixobj_c_codes.specs.Codes.{hash_of_code as hash_of};
ghost use Rattle.gixobj_c.specs.Tags.{BeginsWithTokenAt, HasBodyParts, IsFieldSpan, IsTagTokenCall, IsTokenOfBody};
ghost use Rattle.gixobj_c.specs.Tags.{IsTokenOfTag, IsUnsigned, tag_state_of_code as state_of};
ghost use Rattle.gixobj_hash.specs.HeaderFormat.{BeginsWithField};
ghost use Rattle.gixobj_hash.specs.Optional.{bytes_if_some};
ghost use Rattle.gixobj_grammar.specs.TagTokens.{tag_token_view};

use crate::commits::Cursor;
use crate::spans::{Span, bytes_from, empty_span, offset_of, span_of};
use bstr::BStr;
use gixobj_c_codes::codes::{AT_END, BAD_OFFSET, DONE, MALFORMED, UNKNOWN_CODE, hash_of_code};
use gixobj_grammar::tokens::{State, Token, decode_token};

/// A token of a tag: a part of its encoding.
#[repr(C)]
#[derive(Clone, Copy)]
pub struct TagToken {
    /// 1: the target, 2: the kind of the target, 3: the name, 4: the tagger, 5: the absence of a tagger, 6: the body.
    pub kind: u32,
    /// 1 for a body with a signature, and otherwise 0.
    pub has_signature: u32,
    /// The position of the value. That of a body is its message. An absent tagger is an empty span at its offset.
    pub value: Span,
    /// The position of the signature of a body that has one, else an empty span at the token's offset.
    pub signature: Span,
}

/// Decodes the token of a tag at the cursor, and moves the cursor after it. Allocates nothing.
#[unsafe(no_mangle)]
pub extern "C" fn gixobj_tag_token(
    hash: u8,
    tag: &[u8],
    cursor: &mut Cursor,
    out: &mut TagToken,
) -> u32
    ensures { IsTagTokenCall (hash_of hash) tag.now (state_of cursor.old.state) cursor.old.offset
        cursor.old cursor.new out.old out.new result }
{
    let Some(hash) = hash_of_code(hash) else {
        return UNKNOWN_CODE;
    };
    let Some(before) = state_of_code(cursor.state) else {
        return UNKNOWN_CODE;
    };
    let offset = cursor.offset;
    if offset > tag.len() {
        return BAD_OFFSET;
    }
    if offset == tag.len() {
        return AT_END;
    }
    let input = bytes_from(tag, offset);
    let Some((token, after, rest)) = decode_token(input, before, hash) else {
        return MALFORMED;
    };
    *out = token_at(tag, offset, token, rest);
    *cursor = Cursor {
        offset: offset_of(tag, rest),
        state: state_code(after),
    };
    DONE
}

/// Returns the positions of the token at this offset.
fn token_at(tag: &[u8], offset: usize, token: Token<'_>, rest: &[u8]) -> TagToken
    requires { BeginsWithTokenAt tag.now offset (tag_token_view token) rest.now }
    ensures { IsTokenOfTag tag.now offset (tag_token_view token.entry) rest.now result }
{
    match token {
        Token::Target { .. } => with_value(offset, 1, field_span(tag, offset, b"object", rest)),
        Token::TargetKind(_) => with_value(offset, 2, field_span(tag, offset, b"type", rest)),
        Token::Name(_) => with_value(offset, 3, field_span(tag, offset, b"tag", rest)),
        Token::Tagger(Some(_)) => with_value(offset, 4, field_span(tag, offset, b"tagger", rest)),
        Token::Tagger(None) => with_value(offset, 5, empty_span(offset)),
        Token::Body { message, signature } => body_token(tag, offset, message, signature),
    }
}

/// Returns the token at this offset of this kind and this value, without a signature.
fn with_value(offset: usize, kind: u32, value: Span) -> TagToken
    ensures unsigned { IsUnsigned offset kind result }
    ensures value { result.value ≡ value }
{
    TagToken {
        kind,
        has_signature: 0,
        value,
        signature: empty_span(offset),
    }
}

/// Returns the span of the value of the field at this offset.
fn field_span(tag: &[u8], offset: usize, name: &[u8], rest: &[u8]) -> Span
    requires { (value : List ℕ) × BeginsWithField name.now (drop offset tag.now) value rest.now }
    ensures { IsFieldSpan name.now tag.now offset rest.now result }
{
    let start = offset + name.len() + 1;
    let end = tag.len() - rest.len() - 1;
    Span {
        start,
        len: end - start,
    }
}

/// Returns the token at this offset of a body with this message and this signature, which are at the end of the tag.
fn body_token(tag: &[u8], offset: usize, message: BStr<'_>, signature: Option<BStr<'_>>) -> TagToken
    requires { HasBodyParts tag.now (bstr_bytes message) (bytes_if_some signature) }
    ensures { IsTokenOfBody tag.now offset (bstr_bytes message.entry)
        (bytes_if_some signature.entry) result }
{
    let Some(signature) = signature else {
        return with_value(offset, 6, span_of(tag, message, 0));
    };
    let after = signature.as_bytes().len() + 1;
    TagToken {
        kind: 6,
        has_signature: 1,
        value: span_of(tag, message, after),
        signature: span_of(tag, signature, 0),
    }
}

/// Returns the state of this number, or `None`.
fn state_of_code(code: u8) -> Option<State>
    ensures { result ≡ state_of code }
{
    match code {
        0 => Some(State::Target),
        1 => Some(State::TargetKind),
        2 => Some(State::Name),
        3 => Some(State::Tagger),
        4 => Some(State::Body),
        5 => Some(State::End),
        _ => None,
    }
}

/// Returns the number of a state.
fn state_code(state: State) -> u8
    ensures { state_of result ≡ Some state }
{
    match state {
        State::Target => 0,
        State::TargetKind => 1,
        State::Name => 2,
        State::Tagger => 3,
        State::Body => 4,
        State::End => 5,
    }
}
