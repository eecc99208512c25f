//! Each public path of `gix_object` that users can import.

mod root {
    pub use gix_object::{
        Blob, BlobRef, Commit, CommitRef, CommitRefIter, Data, DataExt, Exists, Find, FindExt,
        FindHeader, FindObjectOrHeader, Header, HeaderExt, Keep, KeepCommit, KeepError, Kind,
        LooseDecodeError, Memory, Object, ObjectRef, OutOfMemory, Store, Tag, TagRef, TagRefIter,
        Tree, TreeRef, TreeRefIter, Write, WriteTo, actor, commit, compute_hash,
        compute_stream_hash, data, date, decode, encode, find, hash, import, kind, laws, signature,
        stream_hash, streams, tag, tree, write,
    };
}

mod of_actors {
    pub use gix_object::actor::{Signature, SignatureRef};
    pub use gix_object::date::{Time, TimeBuf, parse_header};
}

mod of_commit {
    pub use gix_object::commit::{
        BorrowedHeaders, Commit, CommitRef, CommitRefIter, ExtraHeaders, FindAll, Mergetags,
        MessageRef, OwnedHeaders, Parents, SIGNATURE_FIELD_NAME, SIGNATURE_FIELD_NAME_SHA256,
        message, ref_iter, signature_field_name,
    };
}

mod of_message {
    pub use gix_object::commit::message::body::{
        Filtered, MessageBlock, MessageBlocks, TrailerRef, Trailers,
    };
    pub use gix_object::commit::message::{BodyRef, body};
}

mod of_ref_iter {
    pub use gix_object::commit::ref_iter::{CommitRefIter, ParentIds, Signatures, Token};
}

mod of_data {
    pub use gix_object::data::verify::Error;
    pub use gix_object::data::{Data, verify};
}

mod of_decode {
    pub use gix_object::decode::{
        Error, LooseContentError, LooseHeaderDecodeError, ParseIntegerErrorKind, loose_content,
        loose_header,
    };
}

mod of_encode {
    pub use gix_object::encode::{Error, RefNameFault, loose_header};
}

mod of_find {
    pub use gix_object::find::{Error, Never, existing, existing_iter, existing_object};
}

mod of_existing {
    pub use gix_object::find::existing::Error;
}

mod of_existing_iter {
    pub use gix_object::find::existing_iter::Error;
}

mod of_existing_object {
    pub use gix_object::find::existing_object::Error;
}

mod of_hash {
    pub use gix_object::hash::verify::Error;
    pub use gix_object::hash::{Kind, ObjectId, oid, verify};
}

mod of_import {
    pub use gix_object::import::{
        ImportError, Imported, Importer, KeepCommit, Step, Stopped, import_all,
    };
}

mod of_kind {
    pub use gix_object::kind::{Error, Kind};
}

mod of_laws {
    pub use gix_object::laws::{
        built_trees_are_unique, consistent_import_has_table, consistent_pairs_have_table,
        consistent_run_has_table, directory_has_files_of_tree, encodable_tree_decodes_to_itself,
        list_has_table, looked_up_file_exists, null_id_test_decides, object_map_insert,
        plain_history_is_table_independent, run_table_agrees_with_writes, single_root_is_opened,
        store_has_table, store_has_tree_map,
    };
}

mod of_laws_of_commits {
    pub use gix_object::laws::readers::{
        actor_search_complete, commit_readers_agree, consumed_commit_tokens_are_prefix,
        id_search_complete, message_search_complete,
    };
    pub use gix_object::laws::tokens::{
        commit_runs_decode_uniquely, commit_tokens_decode_uniquely,
    };
    pub use gix_object::laws::{
        borrowed_header_search_complete, borrowed_mergetag_search_complete,
        commit_decode_encode_agree, commit_decodes_uniquely, commit_reencodes_identically,
        owned_commit_has_same_parts, owned_header_search_complete, owned_mergetag_search_complete,
        readers, tokens,
    };
}

mod of_laws_of_fields {
    pub use gix_object::laws::{
        actor_line_decodes_uniquely, actor_round_trips, header_field_decodes_uniquely,
        header_round_trips, hex_decodes_uniquely, hex_reencodes_identically, hex_round_trips,
        loose_header_round_trips, mode_round_trips, time_round_trips,
        write_error_implies_sink_error,
    };
}

mod of_laws_of_messages {
    pub use gix_object::laws::{
        blocks_are_unique, message_split_is_unique, parts_append_to_body, readers_yield_all,
        trailer_block_start_is_unique, trailer_line_decodes, trailers_are_unique,
    };
}

mod of_laws_of_signatures {
    pub use gix_object::laws::{
        commit_payloads_are_signed, marker_position_is_unique, owned_commits_have_line_fields,
        received_commits_are_signed, received_tags_are_signed, signature_format_is_unique,
        signed_commit_has_payload, signed_tag_has_payload, tag_payloads_are_signed,
        tag_signatures_agree,
    };
}

mod of_laws_of_tags {
    pub use gix_object::laws::{
        consumed_tag_tokens_are_prefix, owned_tag_has_same_parts, tag_decode_encode_agree,
        tag_decodes_uniquely, tag_part_search_complete, tag_readers_agree,
        tag_reencodes_identically, tag_tokens_decode_uniquely,
    };
}

mod of_laws_of_trees {
    pub use gix_object::laws::{
        consumed_entries_are_prefix, id_equality_is_decidable, remaining_bytes_are_suffix,
        tree_decodes_uniquely, tree_readers_agree, tree_reencodes_identically, tree_round_trips,
    };
}

mod of_signature {
    pub use gix_object::signature::{
        Call, Format, Output, RunError, Runner, SignatureRef, SignedData, Word, sign, verify,
    };
}

mod of_signing {
    pub use gix_object::signature::sign::{Error, Options, is_literal_ssh_key, sign_payload};
}

mod of_verifying {
    pub use gix_object::signature::verify::{
        Error, Options, Outcome, Status, TrustLevel, parse_gpg_output, parse_ssh_output,
    };
}

mod of_stream_hash {
    pub use gix_object::stream_hash::{
        Error, compute_slice_hash, compute_source_hash, compute_stream_hash, skip_source,
        skip_stream,
    };
}

mod of_tag {
    pub use gix_object::tag::ref_iter::Token;
    pub use gix_object::tag::write::{Error, validated_name};
    pub use gix_object::tag::{Tag, TagRef, TagRefIter, ref_iter, write};
}

mod of_tree {
    pub use gix_object::tree::editor::{
        Command, Cursor, Edit, EditReply, Editor, Error, Reply, WriteError, Written, run,
    };
    pub use gix_object::tree::{
        Entry, EntryKind, EntryMode, EntryRef, editor, name_order, next_entry,
    };
}

mod of_write {
    pub use gix_object::write::Error;
}
