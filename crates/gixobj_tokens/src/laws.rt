//! Laws that tie the token iterators to the decoders of entire commits and tags. Most functions are empty,
//! and their contract is the law.

pub mod readers;
mod tags;
pub mod tokens;

pub use tags::{
    consumed_tag_tokens_are_prefix, tag_part_search_complete, tag_readers_agree,
    tag_tokens_decode_uniquely,
};
