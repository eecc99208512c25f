//! Written tags: failing writers, an id of another kind, and the law that encodes.

use crate::helpers::{holds, is_written, stops};
use crate::tags::BARE;
use gixobj_base::decode;
use gixobj_base::hash::{Kind, ObjectId};
use gixobj_codec::laws::tag_decode_encode_agree;
use gixobj_codec::{Tag, TagRef};
use std::alloc::Global;

/// Returns the owned form of a decoded tag.
pub(super) fn owned_form(alloc: Global, bytes: &[u8]) -> Result<Tag, decode::Error> {
    TagRef::from_bytes(bytes, Kind::Sha1)?.into_owned(alloc)
}

/// Returns whether the owned form with this target has this encoding.
fn is_written_with(alloc: Global, bytes: &[u8], target: ObjectId, wanted: &[u8]) -> bool {
    let Ok(mut tag) = owned_form(alloc, bytes) else {
        return false;
    };
    tag.target = target;
    is_written(alloc, &tag, wanted)
}

/// The bare tag of the null id of SHA-256.
const OF_NULL: &[u8] = b"object 0000000000000000000000000000000000000000000000000000000000000000\n\
    type tree\ntag v1\n";

/// The target is counted with its own length.
#[test]
fn counts_target_with_its_own_length(rt: HostRuntime) {
    assert!(rt; is_written_with(rt.alloc(), BARE, ObjectId::null(Kind::Sha256), OF_NULL));
}

/// A tag with a tagger, a message and a signature.
const SIGNED: &[u8] = b"object 4b825dc642cb6eb9a060e54bf8d69288fbee4904\n\
    type tree\ntag v1\ntagger A <a@b> 0 +0000\n\
    \nhi\n-----BEGIN SSH SIGNATURE-----\n";

#[test]
fn returns_writer_error_after_each_prefix(rt: HostRuntime) {
    let tag = TagRef::from_bytes(SIGNED, Kind::Sha1);
    assert!(rt; holds!(&tag, Ok(tag) => stops(rt.alloc(), tag, SIGNED)));
    let tag = owned_form(rt.alloc(), SIGNED);
    assert!(rt; holds!(&tag, Ok(tag) => stops(rt.alloc(), tag, SIGNED)));
}

/// Returns whether a decoded tag is encoded identically, by the call of the law.
fn is_reencoded(alloc: Global, bytes: &[u8]) -> bool {
    let Ok(tag) = TagRef::from_bytes(bytes, Kind::Sha1) else {
        return false;
    };
    let mut written = Vec::new(alloc);
    tag_decode_encode_agree(alloc, &tag, &mut written).is_ok() && written.as_slice() == bytes
}

#[test]
fn reencodes_identically(rt: HostRuntime) {
    assert!(rt; is_reencoded(rt.alloc(), BARE));
    assert!(rt; is_reencoded(rt.alloc(), SIGNED));
}
