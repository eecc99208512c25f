//! A publisher of releases, who decodes tags, validates their names and encodes them.
ghost use Rattle.std.specs.Prelude.{◌≡◌, IfErr, IfOk, MatchOption, Some};
ghost use Rattle.bstr.specs.BStr.{bstr_bytes};
ghost use Rattle.gix_object.specs.Hash.{DecodesToId};
ghost use Rattle.gix_object.specs.NameRule.{IsTagName};
ghost use Rattle.gix_object.specs.TagRewriting.{PreservesBody};
ghost use Rattle.gix_object.specs.TagFormat.{DecodesToTag, TagLines};
ghost use Rattle.gix_object.specs.TagViews.{tag_lines};
ghost use Rattle.gix_object.specs.hash.hash.object_id.ObjectId.{ObjectId};
ghost use Rattle.gixobj_examples_objects.specs.Copies.{FailsForRoom};

use crate::store::CopyError;
use bstr::BStr;
use gix_object::hash::{Kind, ObjectId};
use gix_object::laws::{
    tag_decodes_uniquely, tag_part_search_complete, tag_reencodes_identically,
    write_error_implies_sink_error,
};
use gix_object::tag::write::validated_name;
use gix_object::{TagRef, TagRefIter, WriteTo};
use std::alloc::Global;

/// Decodes a tag and encodes it. The result equals the bytes if the tag is unsigned or its message is more
/// than newlines. Allocates the encoding.
///
/// # Errors
///
/// - [`CopyError::Read`] if the bytes are malformed;
/// - [`CopyError::Write`] if the name is invalid as that of a reference, or allocation fails.
pub fn tag_copy_of(alloc: Global, bytes: &[u8], kind: Kind) -> Result<Vec<u8>, CopyError>
    ensures same_bytes { IfOk result (λ copy. (tag : TagLines) → DecodesToTag kind bytes.now tag
        → PreservesBody tag → copy.items ≡ bytes.now) }
    ensures error { IfErr result (λ error. (tag : TagLines) → DecodesToTag kind bytes.now tag
        → IsTagName tag.name → FailsForRoom error) }
{
    tag_decodes_uniquely();
    tag_reencodes_identically();
    let tag = match TagRef::from_bytes(bytes, kind) {
        Ok(tag) => tag,
        Err(error) => return Err(CopyError::Read(error)),
    };
    write_error_implies_sink_error(&tag);
    let mut copy = Vec::new(alloc);
    match tag.write_to_vec(alloc, &mut copy) {
        Ok(()) => Ok(copy),
        Err(error) => Err(CopyError::Write(error)),
    }
}

/// Returns the id of the tagged object without decoding the rest. Allocates nothing.
///
/// The result is never `None` for the encoding of a tag. For other bytes it is unspecified.
pub fn target_of(bytes: &[u8], kind: Kind) -> Option<ObjectId>
    ensures { (tag : TagLines) → DecodesToTag kind bytes.now tag → (id : ObjectId)
        × (result ≡ Some id)
        × DecodesToId tag.target id }
{
    tag_part_search_complete();
    match TagRefIter::from_bytes(bytes, kind).target_id() {
        Ok(id) => Some(id),
        Err(_) => None,
    }
}

/// Returns the name of the tag if it is valid as the name of a reference (git-check-ref-format). Allocates
/// nothing.
pub fn checked_name<'a>(tag: &TagRef<'a>) -> Option<BStr<'a>>
    ensures { MatchOption result (¬ IsTagName (tag_lines tag.now).name)
        (λ name. (bstr_bytes name ≡ (tag_lines tag.now).name)
        × IsTagName (tag_lines tag.now).name) }
{
    match validated_name(tag.name) {
        Ok(name) => Some(name),
        Err(_) => None,
    }
}
