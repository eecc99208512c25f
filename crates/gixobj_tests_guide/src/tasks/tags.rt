//! Decodes a tag.

use bstr::BStr;
use gix_object::hash::{Kind as HashKind, ObjectId};
use gix_object::{Kind, TagRef, decode};

/// Returns the name of a tag, and the kind and the id of its target.
pub fn named(bytes: &[u8]) -> Result<(BStr<'_>, Kind, ObjectId), decode::Error> {
    let tag = TagRef::from_bytes(bytes, HashKind::Sha1)?;
    Ok((tag.name, tag.target_kind, tag.target()))
}

/// Returns the email of the tagger, if the tag has one.
pub fn tagger_email(bytes: &[u8]) -> Result<Option<BStr<'_>>, decode::Error> {
    match TagRef::from_bytes(bytes, HashKind::Sha1)?.tagger()? {
        Some(tagger) => Ok(Some(tagger.email)),
        None => Ok(None),
    }
}
