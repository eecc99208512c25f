//! Laws of the definitions: public lemmas that users import. Most functions here have an empty body: their
//! contract is the law.

pub use gixobj_base::laws::{
    actor_line_decodes_uniquely, actor_round_trips, header_field_decodes_uniquely,
    hex_reencodes_identically, hex_round_trips, loose_header_round_trips, mode_round_trips,
    time_round_trips, write_error_implies_sink_error,
};
pub use gixobj_codec::laws::{
    blocks_are_unique, borrowed_header_search_complete, borrowed_mergetag_search_complete,
    commit_decode_encode_agree, commit_decodes_uniquely, commit_payloads_are_signed,
    commit_reencodes_identically, consumed_entries_are_prefix, consumed_tag_tokens_are_prefix,
    header_round_trips, hex_decodes_uniquely, id_equality_is_decidable, message_split_is_unique,
    object_map_insert, owned_commit_has_same_parts, owned_commits_have_line_fields,
    owned_header_search_complete, owned_mergetag_search_complete, owned_tag_has_same_parts,
    parts_append_to_body, readers, readers_yield_all, received_commits_are_signed,
    received_tags_are_signed, remaining_bytes_are_suffix, signed_commit_has_payload,
    signed_tag_has_payload, tag_decode_encode_agree, tag_decodes_uniquely,
    tag_part_search_complete, tag_payloads_are_signed, tag_readers_agree,
    tag_reencodes_identically, tag_signatures_agree, tag_tokens_decode_uniquely, tokens,
    trailer_block_start_is_unique, trailer_line_decodes, trailers_are_unique,
    tree_decodes_uniquely, tree_readers_agree, tree_reencodes_identically, tree_round_trips,
};
pub use gixobj_editor::laws::{
    consistent_run_has_table, encodable_tree_decodes_to_itself, run_table_agrees_with_writes,
};
pub use gixobj_editor_files::laws::{
    built_trees_are_unique, consistent_pairs_have_table, directory_has_files_of_tree,
    list_has_table, null_id_test_decides, plain_history_is_table_independent,
    single_root_is_opened, store_has_table,
};
pub use gixobj_editor_import::laws::consistent_import_has_table;
pub use gixobj_editor_lookups::laws::{looked_up_file_exists, store_has_tree_map};
pub use gixobj_parse::laws::{marker_position_is_unique, signature_format_is_unique};
