//! A verifier of tags, who decodes each with both readers.
ghost use Rattle.std.specs.Prelude.{◌≡◌, ◌≢◌, ◌∷◌, ℕ, List, IfNone, IfSome};
ghost use Rattle.bstr.specs.BStr.{bstr_bytes};
ghost use Rattle.gix_object.specs.Hash.{DecodesToId};
ghost use Rattle.gix_object.specs.TagFormat.{IsMalformedTag, DecodesToTag, TagLines};
ghost use Rattle.gix_object.specs.TagTokens.{TagTokenView, name_token, tag_token_view};
ghost use Rattle.gix_object.specs.TagViews.{tag_lines};
ghost use Rattle.gixobj_examples_objects.specs.Yielded.{IsToYield};

use bstr::BStr;
use gix_object::hash::{Kind, ObjectId};
use gix_object::laws::{tag_readers_agree, tag_tokens_decode_uniquely};
use gix_object::tag::ref_iter::Token;
use gix_object::{TagRef, TagRefIter};

/// A tag by both readers. [`read_both_ways`] makes one.
#[derive(Clone, Copy, Debug)]
pub struct BothReadings<'a> {
    /// The entire tag, decoded at once.
    pub tag: TagRef<'a>,
    /// The target that the token reader yields.
    pub target: ObjectId,
    /// The name that the token reader yields.
    pub name: BStr<'a>,
}

/// Decodes an entire tag, and its target and its name token by token: both readers agree on them. Allocates
/// nothing.
///
/// The result is `None` if and only if the bytes aren't the encoding of a tag.
pub fn read_both_ways(content: &[u8], kind: Kind) -> Option<BothReadings<'_>>
    ensures tag { IfSome result (λ it. DecodesToTag kind content.now (tag_lines it.tag)) }
    ensures target { IfSome result (λ it. DecodesToId (tag_lines it.tag).target it.target) }
    ensures name { IfSome result (λ it. bstr_bytes it.name ≡ (tag_lines it.tag).name) }
    ensures none { IfNone result (IsMalformedTag kind content.now) }
{
    let Ok(tag) = TagRef::from_bytes(content, kind) else {
        return None;
    };
    let (target, name) = target_and_name(content, kind)?;
    Some(BothReadings { tag, target, name })
}

/// Returns the target and the name of a tag without decoding the rest: always for the encoding of a tag.
fn target_and_name(content: &[u8], kind: Kind) -> Option<(ObjectId, BStr<'_>)>
    ensures found { IfSome result (λ it. (tag : TagLines) → DecodesToTag kind content.now tag
        → DecodesToId tag.target it.0 × (bstr_bytes it.1 ≡ tag.name)) }
    ensures none { IfNone result (IsMalformedTag kind content.now) }
{
    tag_readers_agree();
    let mut reader = TagRefIter::from_bytes(content, kind);
    let first = next_token(&mut reader)?;
    let target = first.into_id()?;
    let _kind = next_token(&mut reader)?;
    let third = next_token(&mut reader)?;
    let name = name_of(third)?;
    Some((target, name))
}

/// Returns the next token. If tokens remain to the end of the bytes, it is the first of them.
fn next_token<'a>(reader: &mut TagRefIter<'a>) -> Option<Token<'a>>
    ensures found { IfSome result (λ token. (first : TagTokenView) (others : List TagTokenView)
        → IsToYield reader.old (first ∷ others) → (tag_token_view token ≡ first)
        × IsToYield reader.new others) }
    ensures none { IfNone result ((first : TagTokenView) (others : List TagTokenView)
        → ¬ IsToYield reader.old (first ∷ others)) }
{
    tag_tokens_decode_uniquely();
    match reader.next()? {
        Ok(token) => Some(token),
        Err(_) => None,
    }
}

/// Returns the name of a name token.
fn name_of(token: Token<'_>) -> Option<BStr<'_>>
    ensures found { IfSome result (λ name. tag_token_view token.entry
        ≡ name_token (bstr_bytes name)) }
    ensures none { IfNone result ((name : List ℕ) → tag_token_view token.entry ≢ name_token name) }
{
    match token {
        Token::Name(name) => Some(name),
        _ => None,
    }
}
