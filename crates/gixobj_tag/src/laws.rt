//! Laws of tags. Most of these functions do nothing, and their contract is the law.

mod tags;

pub use tags::{
    owned_tag_has_same_parts, tag_decode_encode_agree, tag_decodes_uniquely,
    tag_recognition_agrees, tag_reencodes_identically,
};
