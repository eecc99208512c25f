//! Borrowed and owned tags (gitdatamodel, "tag objects").
ghost use Rattle.std.specs.Prelude.{◌≡◌, IfErr, IfOk};
ghost use Rattle.bstr.specs.BStr.{bstr_bytes};
ghost use Rattle.gixobj_hash.specs.Hash.{IsIdHex, DecodesToId};
ghost use Rattle.gixobj_hash.specs.declared.decode.Error.TheVariants.{Malformed};
ghost use Rattle.gixobj_tag.specs.Signed.{IsSignature};
ghost use Rattle.gixobj_tag.specs.TagOwned.{IsBadTagger, IsOwnedFormOfTag, IsTrimmedTagger, IsIntoOwnedTagError};
ghost use Rattle.gixobj_tag.specs.TagViews.{owned_tag_lines, tag_lines};
ghost use Rattle.gixobj_hash.specs.Optional.{bytes_if_some};

mod decode;
mod owned;
mod sign;
pub mod write;

use bstr::{BStr, BString};
use gixobj_actor::actor::{Signature, SignatureRef};
use gixobj_actor::parse::trimmed_actor;
use gixobj_hash::Kind;
use gixobj_hash::decode::Error;
use gixobj_hash::hash::ObjectId;
use gixobj_hash::optional::borrowed;
use gixobj_hash::parse::id_of_hex;
use gixobj_parse::signature;
use gixobj_parse::signature::Format;
use std::alloc::Global;

/// A borrowed tag, with its fields as they are encoded. [`TagRef::from_bytes`] decodes one.
#[derive(Clone, Copy, Debug, PartialEq, Eq, PartialOrd, Ord, Hash)]
pub struct TagRef<'a> {
    /// The id of the tagged object in hex. [`TagRef::target`] decodes it.
    pub target: BStr<'a>,
    /// The kind of the tagged object.
    pub target_kind: Kind,
    /// The name of the tag, such as `v1.0`. A writer validates it by [`write::validated_name`].
    pub name: BStr<'a>,
    /// The value of the tagger line with all its white space, or `None` without that line. [`TagRef::tagger`]
    /// decodes it.
    pub tagger: Option<BStr<'a>>,
    /// The message: the body without its first newline, the signature, and the newline before the signature.
    /// A body of newlines alone is the message.
    pub message: BStr<'a>,
    /// The signature at the end of the tag, from its marker on, or `None`. [`TagRef::signature`] detects its
    /// format.
    pub signature: Option<BStr<'a>>,
}

/// An owned tag. [`TagRef::into_owned`] makes one.
#[derive(Clone, Debug, Drop, PartialEq, Eq, PartialOrd, Ord, Hash)]
pub struct Tag {
    /// The id of the tagged object.
    pub target: ObjectId,
    /// The kind of the tagged object.
    pub target_kind: Kind,
    /// The name of the tag, such as `v1.0`. A writer validates it by [`write::validated_name`].
    pub name: BString,
    /// Who made the tag and when, or `None`. A writer rejects a name or email with a `<`, a `>` or a newline.
    pub tagger: Option<Signature>,
    /// The message. A newline is written before it, unless it consists of newlines alone.
    pub message: BString,
    /// The signature, which is written after the message and a newline, or `None`.
    pub signature: Option<BString>,
}

/// Access
impl<'a> TagRef<'a> {
    /// Returns the id of the tagged object. Allocates nothing.
    ///
    /// The field `target` must be an id in hex, as it is in each tag that [`TagRef::from_bytes`] returns.
    pub fn target(&self) -> ObjectId
        requires { IsIdHex (tag_lines self.now).target }
        ensures { DecodesToId (tag_lines self.now).target result }
    {
        id_of_hex(self.target)
    }

    /// Decodes the tagger, or returns `None` without a tagger line. Allocates nothing.
    ///
    /// White space at the ends of name, email and time is removed.
    ///
    /// # Errors
    ///
    /// [`Error::Malformed`] if the tagger line is malformed, or if bytes follow the time of its actor.
    ///
    /// # Examples
    ///
    /// ```rust
    /// pub fn tagger_email(bytes: &[u8]) -> Result<Option<BStr<'_>>, decode::Error> {
    ///     match TagRef::from_bytes(bytes, HashKind::Sha1)?.tagger()? {
    ///         Some(tagger) => Ok(Some(tagger.email)),
    ///         None => Ok(None),
    ///     }
    /// }
    /// ```
    pub fn tagger(&self) -> Result<Option<SignatureRef<'a>>, Error>
        ensures found { IfOk result (IsTrimmedTagger (tag_lines self.now).tagger) }
        ensures error { IfErr result (λ e. (e ≡ Malformed)
            × IsBadTagger (tag_lines self.now).tagger) }
    {
        match self.tagger {
            Some(line) => Ok(Some(trimmed_actor(line)?)),
            None => Ok(None),
        }
    }

    /// Returns the signature with its format (gitformat-signature, "DESCRIPTION"). Allocates nothing.
    ///
    /// Returns `None` without a signature, or if it begins with no known marker.
    pub fn signature(&self) -> Option<signature::SignatureRef<'a>>
        ensures { IsSignature (tag_lines self.now).signature result }
    {
        with_format(self.signature)
    }
}

/// Conversion
impl TagRef<'_> {
    /// Copies the tag into an owned one, and decodes its id, tagger and time. Allocates the copy.
    ///
    /// The tagger keeps its white space. A malformed time becomes the start of 1970 in UTC. The field
    /// `target` must be an id in hex, as it is in each tag that [`TagRef::from_bytes`] returns.
    ///
    /// # Errors
    ///
    /// - [`Error::Malformed`] if the tagger line is malformed, or if bytes follow the time of its actor.
    /// - [`Error::OutOfMemory`] otherwise, if an allocation fails.
    pub fn into_owned(self, alloc: Global) -> Result<Tag, Error>
        requires { IsIdHex (tag_lines self).target }
        ensures owned { IfOk result (IsOwnedFormOfTag (tag_lines self.entry)) }
        ensures error { IfErr result (IsIntoOwnedTagError (tag_lines self.entry)) }
    {
        let tagger = owned::actor(self.tagger)?;
        Ok(owned::copy(alloc, &self, tagger)?)
    }
}

/// Access
impl Tag {
    /// Returns the signature with its format (gitformat-signature, "DESCRIPTION"). Allocates nothing.
    ///
    /// Returns `None` without a signature, or if it begins with no known marker.
    pub fn signature(&self) -> Option<signature::SignatureRef<'_>>
        ensures { IsSignature (owned_tag_lines self.now).signature result }
    {
        with_format(borrowed(&self.signature))
    }
}

/// Returns the signature with its format, or `None` without bytes or a known marker.
fn with_format(bytes: Option<BStr<'_>>) -> Option<signature::SignatureRef<'_>>
    ensures { IsSignature (bytes_if_some bytes.entry) result }
{
    let Some(bytes) = bytes else {
        return None;
    };
    let Some(format) = Format::from_signature(bytes.as_bytes()) else {
        return None;
    };
    Some(signature::SignatureRef { format, bytes })
}
