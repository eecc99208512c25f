//! Whether bytes are the encoding of a tag, and decoding of its name line and its tagger line (gitdatamodel, "tag
//! objects").
ghost use Rattle.std.specs.Prelude.{IfNone, IfSome, MatchBool};
ghost use Rattle.bstr.specs.BStr.{bstr_bytes};
ghost use Rattle.gixobj_grammar.specs.TagLineViews.{IsParsedTagger, line_if_some};
ghost use Rattle.gixobj_grammar.specs.TagLines.{BeginsWithTagName, BeginsWithNoTagName, BeginsWithMalformedTagger};
ghost use Rattle.gixobj_grammar.specs.TagLines.{BeginsWithTagger};
ghost use Rattle.gixobj_grammar.specs.TagPrefix.{IsTag, IsTagBody};

use bstr::BStr;
use gixobj_actor::actor::SignatureRef;
use gixobj_actor::parse::split_signature;
use gixobj_hash::hash::Kind;
use gixobj_parse::parse::{after_name, header_field, header_id, header_kind};

/// Whether the bytes are the encoding of a tag whose target has an id of this kind. Allocates nothing.
pub fn is_tag(bytes: &[u8], hash_kind: Kind) -> bool
    ensures { MatchBool result (IsTag hash_kind bytes.now) (¬ IsTag hash_kind bytes.now) }
{
    let Some((_, after_target)) = header_id(bytes, b"object", hash_kind) else {
        return false;
    };
    let Some((_, after_kind)) = header_kind(after_target, b"type") else {
        return false;
    };
    let Some((_, after_name)) = name(after_kind) else {
        return false;
    };
    let Some((_, body)) = tagger(after_name) else {
        return false;
    };
    is_body(body)
}

/// Whether the bytes are the body of a tag: empty, or with a newline first.
fn is_body(body: &[u8]) -> bool
    ensures { MatchBool result (IsTagBody body.now) (¬ IsTagBody body.now) }
{
    match body {
        [] => true,
        [byte, ..] => *byte == b'\n',
    }
}

/// Decodes the name line at the beginning of the input, and returns the name and the rest.
///
/// Returns `None` if there is no such line, or if the name is empty. Allocates nothing.
#[tactic(auto, using(crate::proofs::TagLines::no_name_of_empty, crate::proofs::TagLines::no_name_of_missing_field))]
pub fn name(input: &[u8]) -> Option<(BStr<'_>, &[u8])>
    ensures found { IfSome result (λ it. BeginsWithTagName input.now (bstr_bytes it.0) it.1.now) }
    ensures none { IfNone result (BeginsWithNoTagName input.now) }
{
    let Some((name, rest)) = header_field(input, b"tag") else {
        return None;
    };
    if name.is_empty() {
        return None;
    }
    Some((BStr::new(name), rest))
}

/// The value of a tagger line, and the untrimmed actor with which it begins.
pub type TaggerLine<'a> = (BStr<'a>, SignatureRef<'a>);

/// Decodes the tagger line at the beginning of the input, and returns it and the rest.
///
/// The line is `None` if the input doesn't begin with `tagger` and a space. The result is `None` if it does,
/// but the line lacks its newline, or its value doesn't begin with an actor. Allocates nothing.
#[tactic(auto, using(crate::proofs::TagLines::no_tagger_of_missing_newline))]
pub fn tagger(input: &[u8]) -> Option<(Option<TaggerLine<'_>>, &[u8])>
    ensures found { IfSome result (λ it. BeginsWithTagger input.now (line_if_some it.0) it.1.now) }
    ensures parts { IfSome result (λ it. IsParsedTagger it.0) }
    ensures none { IfNone result (BeginsWithMalformedTagger input.now) }
{
    let Some(_) = after_name(input, b"tagger") else {
        return Some((None, input));
    };
    let Some((line, rest)) = header_field(input, b"tagger") else {
        return None;
    };
    let Some((actor, _)) = split_signature(line) else {
        return None;
    };
    Some((Some((BStr::new(line), actor)), rest))
}
