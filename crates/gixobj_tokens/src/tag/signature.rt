//! The signature in a tag's encoding, and the data that it signs (gitformat-signature, "Tag signatures").
ghost use Rattle.std.specs.Prelude.{IfNone, IfSome};
ghost use Rattle.gixobj_parse.specs.Markers.{HasNoMarker};
ghost use Rattle.gixobj_tokens.specs.TagExtracting.{FindsSignatureOfTag};

use super::TagRefIter;
use bstr::BStr;
use gixobj_parse::signature::{SignatureRef, find};
use gixobj_signature::signature::SignedData;

/// Signatures
impl<'a> TagRefIter<'a> {
    /// Finds the signature in a tag's encoding, and the data that it signs: all bytes before it.
    ///
    /// The signature begins at the last marker at the start of a line. Returns `None` without such a marker.
    /// The bytes aren't decoded as a tag. Allocates nothing.
    pub fn signature(bytes: &'a [u8]) -> Option<(SignatureRef<'a>, SignedData<'a>)>
        ensures found { IfSome result (FindsSignatureOfTag bytes.now) }
        ensures none { IfNone result (HasNoMarker bytes.now) }
    {
        let (position, format) = find(bytes)?;
        let (before, after) = bytes.split_at(position);
        let signature = SignatureRef {
            format,
            bytes: BStr::new(after),
        };
        Some((signature, SignedData::new(before, b"")))
    }
}
