//! Copies of borrowed tags.
ghost use Rattle.std.specs.Prelude.{◌≡◌, ℕ, List, Option, IfErr, IfOk};
ghost use Rattle.gixobj_hash.specs.Hash.{IsIdHex};
ghost use Rattle.gixobj_hash.specs.declared.decode.Error.TheVariants.{Malformed};
ghost use Rattle.gixobj_tag.specs.TagOwned.{IsBadTagger, IsOwnedFormOfTag, IsOwnedTagger, IsTagger};
ghost use Rattle.gixobj_tag.specs.TagViews.{tag_lines};
ghost use Rattle.gixobj_hash.specs.Optional.{bytes_if_some};

use super::{Tag, TagRef};
use bstr::{BStr, BString};
use gixobj_actor::actor::{Signature, SignatureRef};
use gixobj_actor::parse::{actor_of_line, owned_actor};
use gixobj_hash::OutOfMemory;
use gixobj_hash::decode::Error;
use gixobj_hash::optional::copied;
use std::alloc::Global;

/// Decodes the untrimmed actor of a tagger line, if there is one. Fails with [`Error::Malformed`] if the line
/// is malformed, or if bytes follow the time of its actor.
pub(super) fn actor(line: Option<BStr<'_>>) -> Result<Option<SignatureRef<'_>>, Error>
    ensures found { IfOk result (IsTagger (bytes_if_some line.entry)) }
    ensures error { IfErr result (λ e. (e ≡ Malformed) × IsBadTagger (bytes_if_some line.entry)) }
{
    match line {
        Some(line) => Ok(Some(actor_of_line(line)?)),
        None => Ok(None),
    }
}

/// Copies a tag with this tagger, which must be that of its line.
pub(super) fn copy(
    alloc: Global,
    tag: &TagRef<'_>,
    tagger: Option<SignatureRef<'_>>,
) -> Result<Tag, OutOfMemory>
    requires id { IsIdHex (tag_lines tag.now).target }
    requires tagger { IsTagger (tag_lines tag.now).tagger tagger }
    ensures { IfOk result (IsOwnedFormOfTag (tag_lines tag.now)) }
{
    Ok(Tag {
        target: tag.target(),
        target_kind: tag.target_kind,
        name: BString::from_slice(alloc, tag.name.as_bytes())?,
        tagger: owned_tagger(alloc, tagger)?,
        message: BString::from_slice(alloc, tag.message.as_bytes())?,
        signature: copied(alloc, tag.signature)?,
    })
}

/// Copies an untrimmed tagger and decodes its time.
fn owned_tagger(
    alloc: Global,
    tagger: Option<SignatureRef<'_>>,
) -> Result<Option<Signature>, OutOfMemory>
    ensures { IfOk result (λ it. (line : Option (List ℕ)) → IsTagger line tagger.entry
        → IsOwnedTagger line it) }
{
    match tagger {
        Some(actor) => Ok(Some(owned_actor(alloc, actor)?)),
        None => Ok(None),
    }
}
