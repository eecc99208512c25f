//! Writing of owned tags (gitdatamodel, "tag objects").
ghost use Rattle.std.specs.Prelude.{◌≡◌, length};
ghost use Rattle.gixobj_hash.specs.Optional.{owned_bytes_if_some};
ghost use Rattle.gixobj_tag.specs.TagWriting.{encode_signature};

use super::super::Tag;
use super::{unsigned_size, write_tag};
use bstr::BString;
use gixobj_encode::{WriteTo, encode};
use gixobj_hash::Kind;
use gixobj_hash::optional::borrowed;
use gixobj_streams::streams::Sink;
use std::alloc::Global;

/// Writes the tag, with its id in lower-case hex and its tagger as `Signature::write_to` encodes it.
///
/// A newline precedes the message, unless it consists of newlines alone. Another one precedes the signature.
/// Only the sink may allocate.
///
/// # Errors
///
/// - [`encode::Error::InvalidRefName`] or [`encode::Error::StartsWithDash`] if [`super::validated_name`]
///   rejects the name. The lines before it are then written, and no byte of its own line.
/// - [`encode::Error::IllegalActor`] if the name or email of the tagger has a `<`, a `>` or a newline. The
///   lines before the tagger are then written, and `tagger` and a space.
/// - [`encode::Error::Writer`] if the sink fails. A proper prefix of the encoding is then written.
impl WriteTo for Tag {
    ghost use Rattle.gixobj_hash.specs.declared.kind.Kind.TheVariants as kind;
    ghost use Rattle.gixobj_tag.specs.TagViews.{owned_tag_lines};
    ghost use Rattle.gixobj_tag.specs.TagWriting.{IsOwnedTagError, encode_tag};

    ghost object_kind = { λ _. kind.Tag };

    ghost encoding = { λ tag. encode_tag (owned_tag_lines tag) };

    ghost rejects = { IsOwnedTagError };

    fn write_into<S: Sink>(&self, _alloc: Global, sink: &mut S) -> Result<(), encode::Error> {
        write_tag(
            &self.target,
            self.target_kind,
            self.name.as_bstr(),
            &self.tagger,
            self.message.as_bstr(),
            borrowed(&self.signature),
            sink,
        )
    }

    fn kind(&self) -> Kind {
        Kind::Tag
    }

    fn size(&self) -> Option<u64> {
        let unsigned = unsigned_size(
            &self.target,
            self.target_kind,
            self.name.as_bstr(),
            &self.tagger,
            self.message.as_bstr(),
        )?;
        unsigned.checked_add(signature_len(&self.signature, &self.message))
    }
}

/// Returns the number of bytes of a signature and the newline before it, or 0 without one.
///
/// Without a signature the length of the other string is loaded, so there is no branch to predict.
#[inline(always)]
fn signature_len(signature: &Option<BString>, other: &BString) -> u64
    ensures { result ≡ length (encode_signature (owned_bytes_if_some signature.now)) }
{
    let content = match signature {
        Some(content) => content,
        None => other,
    };
    let len = 1 + content.as_bytes().len() as u64;
    if signature.is_some() { len } else { 0 }
}
