//! Laws of trees, commits, tags and stores. Most functions are empty, and their contract is the law.

mod commits;
mod headers;

pub use crate::messages::{
    blocks_are_unique, message_split_is_unique, parts_append_to_body, readers_yield_all,
    trailer_block_start_is_unique, trailer_line_decodes, trailers_are_unique,
};
pub use crate::received::{received_commits_are_signed, received_tags_are_signed};
pub use crate::signed::{
    commit_payloads_are_signed, owned_commits_have_line_fields, signed_commit_has_payload,
    signed_tag_has_payload, tag_payloads_are_signed, tag_signatures_agree,
};
pub use commits::{
    commit_decode_encode_agree, commit_decodes_uniquely, commit_reencodes_identically,
    owned_commit_has_same_parts,
};
pub use gixobj_encode::laws::header_round_trips;
pub use gixobj_hash::laws::hex_decodes_uniquely;
pub use gixobj_store::laws::{
    consumed_entries_are_prefix, id_equality_is_decidable, object_map_insert,
    remaining_bytes_are_suffix, tree_readers_agree,
};
pub use gixobj_tag::laws::{
    owned_tag_has_same_parts, tag_decode_encode_agree, tag_decodes_uniquely,
    tag_reencodes_identically,
};
pub use gixobj_tokens::laws::{
    consumed_tag_tokens_are_prefix, readers, tag_part_search_complete, tag_readers_agree,
    tag_tokens_decode_uniquely, tokens,
};
pub use gixobj_tree::laws::{tree_decodes_uniquely, tree_reencodes_identically, tree_round_trips};
pub use headers::{
    borrowed_header_search_complete, borrowed_mergetag_search_complete,
    owned_header_search_complete, owned_mergetag_search_complete,
};
