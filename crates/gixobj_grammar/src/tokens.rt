//! The tokens of tags (gitdatamodel, "tag objects").
ghost use Rattle.std.specs.Prelude.{◌≡◌, ◌≢◌, [], IfNone, IfSome, MatchOption, None, Some};
ghost use Rattle.gixobj_hash.specs.Runs.{HasNoPiece};
ghost use Rattle.gixobj_hash.specs.Hash.Borrowed.{borrowed_id};
ghost use Rattle.gixobj_hash.specs.declared.hash.kind.Kind as hash;
ghost use Rattle.gixobj_grammar.specs.TagLineViews.{IsParsedTagger, line_if_some};
ghost use Rattle.gixobj_grammar.specs.declared.tokens.State.TheVariants as state;
ghost use Rattle.gixobj_grammar.specs.TagTokens.{BeginsWithTagToken, IsTokenOfTagger, tag_token_id, tag_token_view};

use crate::bodies::body;
use crate::tags::{self, TaggerLine};
use bstr::BStr;
use gixobj_actor::actor::SignatureRef;
use gixobj_hash::hash::{ObjectId, oid};
use gixobj_hash::parse::id_of_hex;
use gixobj_hash::{Kind, hash};
use gixobj_parse::parse::{header_id, header_kind};

/// The state of a tag's decoder: which token may come next.
#[derive(Clone, Copy)]
pub enum State {
    /// Before the target.
    Target,
    /// Before the kind of the target.
    TargetKind,
    /// Before the name.
    Name,
    /// Before the tagger, which may be absent.
    Tagger,
    /// Before the message and the signature.
    Body,
    /// After the signature.
    End,
}

/// Decodes the token of a tag at the beginning of the input, in the state `before`.
///
/// Returns the token, the state after it and the rest of the input. The id of the target is hex of the hash
/// function `hash_kind`. The absence of a tagger is a token without bytes, and the body is all that remains
/// (gitdatamodel, "tag objects").
///
/// Returns `None` if the input begins with no token that may come in this state. The input has at least one
/// byte. Allocates nothing.
pub fn decode_token(
    input: &[u8],
    before: State,
    hash_kind: hash::Kind,
) -> Option<(Token<'_>, State, &[u8])>
    requires { input.now ≢ [] }
    ensures found { IfSome result (λ it.
        BeginsWithTagToken hash_kind before input.now (tag_token_view it.0) it.1 it.2.now) }
    ensures none { IfNone result (HasNoPiece (BeginsWithTagToken hash_kind) before input.now) }
{
    match before {
        State::Target => decode_target(input, hash_kind),
        State::TargetKind => decode_target_kind(input),
        State::Name => decode_name(input),
        State::Tagger => decode_tagger(input),
        State::Body => decode_body(input),
        State::End => None,
    }
}

/// Decodes the target.
#[inline(always)]
#[tactic(auto, using(crate::specs::TagTokens::target_comes))]
fn decode_target(input: &[u8], hash_kind: hash::Kind) -> Option<(Token<'_>, State, &[u8])>
    ensures found { IfSome result (λ it.
        BeginsWithTagToken hash_kind state.Target input.now (tag_token_view it.0) it.1 it.2.now) }
    ensures none { IfNone result (HasNoPiece (BeginsWithTagToken hash_kind) state.Target input.now) }
{
    let Some((hex, rest)) = header_id(input, b"object", hash_kind) else {
        return None;
    };
    let id = id_of_hex(hex);
    Some((Token::Target { id }, State::TargetKind, rest))
}

/// Decodes the kind of the target.
#[inline(always)]
#[tactic(auto, using(crate::specs::TagTokens::kind_comes))]
fn decode_target_kind(input: &[u8]) -> Option<(Token<'_>, State, &[u8])>
    ensures found { (kind : hash.Kind) → IfSome result (λ it.
        BeginsWithTagToken kind state.TargetKind input.now (tag_token_view it.0) it.1 it.2.now) }
    ensures none { (kind : hash.Kind) → IfNone result
        (HasNoPiece (BeginsWithTagToken kind) state.TargetKind input.now) }
{
    let Some((kind, rest)) = header_kind(input, b"type") else {
        return None;
    };
    Some((Token::TargetKind(kind), State::Name, rest))
}

/// Decodes the name.
#[inline(always)]
#[tactic(auto, using(crate::specs::TagTokens::name_comes))]
fn decode_name(input: &[u8]) -> Option<(Token<'_>, State, &[u8])>
    ensures found { (kind : hash.Kind) → IfSome result (λ it.
        BeginsWithTagToken kind state.Name input.now (tag_token_view it.0) it.1 it.2.now) }
    ensures none { (kind : hash.Kind) → IfNone result
        (HasNoPiece (BeginsWithTagToken kind) state.Name input.now) }
{
    let Some((name, rest)) = tags::name(input) else {
        return None;
    };
    Some((Token::Name(name), State::Tagger, rest))
}

/// Decodes the tagger, or its absence.
#[inline(always)]
fn decode_tagger(input: &[u8]) -> Option<(Token<'_>, State, &[u8])>
    requires { input.now ≢ [] }
    ensures found { (kind : hash.Kind) → IfSome result (λ it.
        BeginsWithTagToken kind state.Tagger input.now (tag_token_view it.0) it.1 it.2.now) }
    ensures none { (kind : hash.Kind) → IfNone result
        (HasNoPiece (BeginsWithTagToken kind) state.Tagger input.now) }
{
    let Some((tagger, rest)) = tags::tagger(input) else {
        return None;
    };
    Some((tagger_token(tagger), State::Body, rest))
}

/// Decodes the body.
#[inline(always)]
#[tactic(auto, using(crate::specs::TagTokens::body_comes))]
fn decode_body(input: &[u8]) -> Option<(Token<'_>, State, &[u8])>
    requires { input.now ≢ [] }
    ensures found { (kind : hash.Kind) → IfSome result (λ it.
        BeginsWithTagToken kind state.Body input.now (tag_token_view it.0) it.1 it.2.now) }
    ensures none { (kind : hash.Kind) → IfNone result
        (HasNoPiece (BeginsWithTagToken kind) state.Body input.now) }
{
    let Some((message, signature)) = body(input) else {
        return None;
    };
    Some((Token::Body { message, signature }, State::End, b""))
}

/// Returns the token of a tagger, or that of its absence.
#[tactic(auto, using(crate::specs::TagTokens::yields_tagger, crate::specs::TagTokens::yields_no_tagger))]
fn tagger_token(tagger: Option<TaggerLine<'_>>) -> Token<'_>
    requires { IsParsedTagger tagger }
    ensures { IsTokenOfTagger (line_if_some tagger.entry) (tag_token_view result) }
{
    match tagger {
        Some((_, actor)) => Token::Tagger(Some(actor)),
        None => Token::Tagger(None),
    }
}

/// A token of a tag, yielded by `TagRefIter`.
#[derive(Clone, Debug, Drop, PartialEq, Eq, PartialOrd, Ord, Hash)]
pub enum Token<'a> {
    /// The tagged object.
    Target {
        /// The id of the tagged object.
        id: ObjectId,
    },
    /// The kind of the tagged object.
    TargetKind(Kind),
    /// The name of the tag.
    Name(BStr<'a>),
    /// Who made the tag, and when, untrimmed; `None` if other bytes than a tagger line follow the name.
    Tagger(Option<SignatureRef<'a>>),
    /// The bytes after the header lines, if there are any.
    Body {
        /// The message.
        message: BStr<'a>,
        /// The signature from its marker on, if there is one.
        signature: Option<BStr<'a>>,
    },
}

/// Access
impl Token<'_> {
    /// Returns the id of a target token, borrowed, or `None` for another token. Allocates nothing.
    pub fn id(&self) -> Option<oid<'_>>
        ensures { MatchOption result (tag_token_id (tag_token_view self.now) ≡ None)
            (λ id. tag_token_id (tag_token_view self.now) ≡ Some (borrowed_id id)) }
    {
        match self {
            Token::Target { id } => Some(id.as_oid()),
            _ => None,
        }
    }

    /// Returns the id of a target token, or `None` for another token. Allocates nothing.
    pub fn into_id(self) -> Option<ObjectId>
        ensures { result ≡ tag_token_id (tag_token_view self.entry) }
    {
        match &self {
            Token::Target { id } => Some(*id),
            _ => None,
        }
    }
}
