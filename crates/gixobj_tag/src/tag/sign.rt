//! Signing of tags (gitformat-signature, "Tag signatures").
ghost use Rattle.std.specs.Prelude.{◌≡◌, ◌++◌, ◌∷◌, [], IfErr, IfOk, OnOk, Some};
ghost use Rattle.bstr.specs.Owned.{bstring_bytes};
ghost use Rattle.gixobj_streams.specs.Writing.{RejectsNothing};
ghost use Rattle.gixobj_hash.specs.Hash.{IsIdHex};
ghost use Rattle.gixobj_signature.specs.Signing.{sign_options_view, sign_plan, signer_error};
ghost use Rattle.gixobj_signature.specs.Plans.{IsCarriedOut};
ghost use Rattle.gixobj_tag.specs.TagSigning.{GetsTagSignature, HasNoPayload, IsSignedTag, IsSignedTagCopy};
ghost use Rattle.gixobj_tag.specs.TagSigning.{IsTagSigningError, IsTagCopySigningError, IsTagEncodingError, signed_as};
ghost use Rattle.gixobj_tag.specs.TagSigning.{unsigned};
ghost use Rattle.gixobj_tag.specs.TagViews.{owned_tag_lines, tag_lines};
ghost use Rattle.gixobj_tag.specs.TagWriting.{IsOwnedTagError, encode_tag};
ghost use Rattle.gixobj_hash.specs.Bytes.{newline};

use super::{Tag, TagRef};
use bstr::BString;
use gixobj_encode::{WriteTo, encode};
use gixobj_hash::OutOfMemory;
use gixobj_signature::signature::Runner;
use gixobj_signature::signature::sign::{Error, Options, sign_payload};
use std::alloc::Global;

/// Signing
impl Tag {
    /// Signs the tag and returns it with the new signature, which replaces any former one.
    ///
    /// The payload is the encoding of the tag without a signature, followed by a newline. The call consumes
    /// the tag, also if it fails. It allocates the payload, the call of the program and the signature.
    ///
    /// # Errors
    ///
    /// - [`Error::Encode`], with its cause, if the payload can't be written: the name or the tagger is
    ///   rejected, or an allocation for the encoding fails (`Writer` of kind `OutOfMemory`). The runner isn't
    ///   called.
    /// - [`Error::OutOfMemory`] if another allocation fails, or if the runner returns that case.
    /// - [`Error::MissingSigningKey`], [`Error::TemporaryFile`], [`Error::Spawn`], [`Error::Communicate`],
    ///   [`Error::Failed`], [`Error::MissingSignatureConfirmation`] or [`Error::MissingSshSignature`] if
    ///   [`sign_payload`] returns that case.
    pub fn sign<R: Runner>(
        self,
        alloc: Global,
        options: Options,
        runner: &mut R,
    ) -> Result<Tag, Error>
        ensures signed { IfOk result (IsSignedTag R.runs options self runner.old runner.new) }
        ensures error { IfErr result (IsTagSigningError R.runs options self runner.old
            runner.new) }
    {
        let unsigned = without_signature(self);
        match payload_of(alloc, &unsigned) {
            Ok(payload) => sign_written(alloc, unsigned, &payload, options, runner),
            Err(error) => Err(error),
        }
    }
}

/// Signing
impl TagRef<'_> {
    /// Copies the tag and signs the copy, as [`Tag::sign`] does.
    ///
    /// The field `target` must be an id in hex, as it is in each tag that [`TagRef::from_bytes`] returns.
    /// Allocates the copy and what [`Tag::sign`] allocates.
    ///
    /// # Errors
    ///
    /// - [`Error::Decode`], with the error of [`TagRef::into_owned`], if the copy fails. The runner isn't
    ///   called.
    /// - The errors of [`Tag::sign`] if the copy succeeds.
    pub fn sign<R: Runner>(
        self,
        alloc: Global,
        options: Options,
        runner: &mut R,
    ) -> Result<Tag, Error>
        requires { IsIdHex (tag_lines self).target }
        ensures signed { IfOk result (IsSignedTagCopy R.runs options (tag_lines self.entry)
            runner.old runner.new) }
        ensures error { IfErr result (IsTagCopySigningError R.runs options (tag_lines self.entry)
            runner.old runner.new) }
    {
        match self.into_owned(alloc) {
            Ok(tag) => tag.sign(alloc, options, runner),
            Err(error) => Err(Error::Decode(error)),
        }
    }
}

/// Removes the signature of the tag.
fn without_signature(tag: Tag) -> Tag
    ensures { result ≡ unsigned tag }
{
    let mut tag = tag;
    tag.signature = None;
    tag
}

/// Sets the signature of the tag.
fn with_signature(tag: Tag, signature: BString) -> Tag
    ensures { owned_tag_lines result ≡ signed_as (Some (bstring_bytes signature))
        (owned_tag_lines tag) }
{
    let mut tag = tag;
    tag.signature = Some(signature);
    tag
}

/// Encodes the payload of a tag without signature.
fn payload_of(alloc: Global, tag: &Tag) -> Result<Vec<u8>, Error>
    ensures encoded { IfOk result (λ content. content.items
        ≡ encode_tag (owned_tag_lines tag.now) ++ newline ∷ []) }
    ensures writable { OnOk result (RejectsNothing (IsOwnedTagError tag.now)) }
    ensures error { IfErr result (HasNoPayload tag.now) }
{
    match tag_written(alloc, tag) {
        Ok(content) => Ok(with_newline(content)?),
        Err(error) => Err(Error::Encode(error)),
    }
}

/// Encodes a tag.
fn tag_written(alloc: Global, tag: &Tag) -> Result<Vec<u8>, encode::Error>
    ensures encoded { IfOk result (λ content. content.items
        ≡ encode_tag (owned_tag_lines tag.now)) }
    ensures writable { OnOk result (RejectsNothing (IsOwnedTagError tag.now)) }
    ensures error { IfErr result (IsTagEncodingError tag.now) }
{
    let mut content = Vec::new(alloc);
    tag.write_to_vec(alloc, &mut content)?;
    Ok(content)
}

/// Appends a newline.
fn with_newline(content: Vec<u8>) -> Result<Vec<u8>, OutOfMemory>
    ensures { IfOk result (λ it. it.items ≡ content.items ++ newline ∷ []) }
{
    let mut content = content;
    content.push(b'\n')?;
    Ok(content)
}

/// Signs this payload and sets the signature of the tag.
fn sign_written<R: Runner>(
    alloc: Global,
    unsigned: Tag,
    payload: &[u8],
    options: Options,
    runner: &mut R,
) -> Result<Tag, Error>
    ensures signed { IfOk result (GetsTagSignature R.runs options payload.now unsigned runner.old
        runner.new) }
    ensures error { IfErr result (λ error.
        IsCarriedOut R.runs (sign_plan (sign_options_view options) payload.now) runner.old (signer_error error)
        runner.new) }
{
    match sign_payload(alloc, payload, options, runner) {
        Ok(bytes) => Ok(with_signature(unsigned, bytes)),
        Err(error) => Err(error),
    }
}
