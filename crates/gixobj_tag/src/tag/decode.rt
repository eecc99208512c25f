//! Decoding of tags (gitdatamodel, "tag objects").
ghost use Rattle.std.specs.Prelude.{◌≡◌, IfErr, IfNone, IfOk, IfSome};
ghost use Rattle.gixobj_hash.specs.Hash.{IsIdHex};
ghost use Rattle.gixobj_hash.specs.declared.decode.Error.TheVariants.{Malformed};
ghost use Rattle.gixobj_grammar.specs.TagLineViews.{line_if_some};
ghost use Rattle.gixobj_tag.specs.TagFormat.{IsMalformedTag, DecodesToTag};
ghost use Rattle.gixobj_tag.specs.TagViews.{tag_lines};
ghost use Rattle.gixobj_hash.specs.Optional.{bytes_if_some};

use super::TagRef;
use bstr::BStr;
use gixobj_grammar::bodies::body;
use gixobj_grammar::tags::{TaggerLine, name, tagger};
use gixobj_hash::decode::Error;
use gixobj_hash::hash::Kind;
use gixobj_parse::parse::{header_id, header_kind};

impl<'a> TagRef<'a> {
    /// Decodes a tag whose target has an id of this kind (gitdatamodel, "tag objects"). Allocates nothing.
    ///
    /// The lines are `object`, `type`, `tag` and, optionally, `tagger`; the body follows. Any name is decoded
    /// that isn't empty: a writer validates it. The tagger line may have bytes after its actor, which
    /// [`TagRef::tagger`] rejects.
    ///
    /// # Errors
    ///
    /// [`Error::Malformed`] if the bytes are not the encoding of a tag.
    ///
    /// # Examples
    ///
    /// ```rust
    /// pub fn named(bytes: &[u8]) -> Result<(BStr<'_>, Kind, ObjectId), decode::Error> {
    ///     let tag = TagRef::from_bytes(bytes, HashKind::Sha1)?;
    ///     Ok((tag.name, tag.target_kind, tag.target()))
    /// }
    /// ```
    pub fn from_bytes(bytes: &'a [u8], hash_kind: Kind) -> Result<TagRef<'a>, Error>
        ensures found { IfOk result (λ tag. DecodesToTag hash_kind bytes.now (tag_lines tag)) }
        ensures has_id { IfOk result (λ tag. IsIdHex (tag_lines tag).target) }
        ensures error { IfErr result (λ e. (e ≡ Malformed) × IsMalformedTag hash_kind bytes.now) }
    {
        match read_tag(bytes, hash_kind) {
            Some(tag) => Ok(tag),
            None => Err(Error::Malformed),
        }
    }
}

/// Decodes a tag, or returns `None` for malformed bytes.
fn read_tag(bytes: &[u8], hash_kind: Kind) -> Option<TagRef<'_>>
    ensures found { IfSome result (λ tag. DecodesToTag hash_kind bytes.now (tag_lines tag)) }
    ensures has_id { IfSome result (λ tag. IsIdHex (tag_lines tag).target) }
    ensures none { IfNone result (IsMalformedTag hash_kind bytes.now) }
{
    let (target, rest) = header_id(bytes, b"object", hash_kind)?;
    let (target_kind, rest) = header_kind(rest, b"type")?;
    let (name, rest) = name(rest)?;
    let (tagger, rest) = tagger(rest)?;
    let (message, signature) = body(rest)?;
    Some(TagRef {
        target,
        target_kind,
        name,
        tagger: line_of(tagger),
        message,
        signature,
    })
}

/// Returns the value of the tagger line, if there is one.
fn line_of(tagger: Option<TaggerLine<'_>>) -> Option<BStr<'_>>
    ensures { bytes_if_some result ≡ line_if_some tagger.entry }
{
    match tagger {
        Some((line, _)) => Some(line),
        None => None,
    }
}
