//! Each public path of `gixobj_codec`, as its users write it.

mod root {
    pub use gixobj_codec::{
        Commit, CommitRef, CommitRefIter, Data, Exists, Find, FindHeader, FindObjectOrHeader,
        LooseDecodeError, Object, ObjectRef, Store, Tag, TagRef, TagRefIter, TreeRef, TreeRefIter,
        commit, data, find, laws, tag, tree,
    };
}

mod of_commit {
    pub use gixobj_codec::commit::{
        BorrowedHeaders, Commit, CommitRef, CommitRefIter, ExtraHeaders, FindAll, Mergetags,
        MessageRef, OwnedHeaders, Parents, SIGNATURE_FIELD_NAME, SIGNATURE_FIELD_NAME_SHA256,
        message, ref_iter, signature_field_name,
    };
}

mod of_message {
    pub use gixobj_codec::commit::message::body::{
        Filtered, MessageBlock, MessageBlocks, TrailerRef, Trailers,
    };
    pub use gixobj_codec::commit::message::{BodyRef, body};
}

mod of_data {
    pub use gixobj_codec::data::verify::Error;
    pub use gixobj_codec::data::{Data, verify};
}

mod of_find {
    pub use gixobj_codec::find::Error;
}

mod of_ref_iter {
    pub use gixobj_codec::commit::ref_iter::{CommitRefIter, ParentIds, Signatures, Token};
}

mod of_laws {
    pub use gixobj_codec::laws::{
        borrowed_header_search_complete, borrowed_mergetag_search_complete,
        commit_decode_encode_agree, commit_decodes_uniquely, commit_reencodes_identically,
        consumed_entries_are_prefix, consumed_tag_tokens_are_prefix, header_round_trips,
        hex_decodes_uniquely, id_equality_is_decidable, message_split_is_unique, object_map_insert,
        owned_commit_has_same_parts, owned_header_search_complete, owned_mergetag_search_complete,
        owned_tag_has_same_parts, parts_append_to_body, readers, readers_yield_all,
        remaining_bytes_are_suffix, tag_decode_encode_agree, tag_decodes_uniquely,
        tag_part_search_complete, tag_readers_agree, tag_reencodes_identically,
        tag_tokens_decode_uniquely, tokens, trailer_block_start_is_unique, trailer_line_decodes,
        trailers_are_unique, tree_decodes_uniquely, tree_readers_agree, tree_reencodes_identically,
        tree_round_trips,
    };
}

mod of_tree {
    pub use gixobj_codec::tree::{EntryRef, TreeRef, TreeRefIter, next_entry};
}

mod of_tag {
    pub use gixobj_codec::tag::ref_iter::Token;
    pub use gixobj_codec::tag::write::{Error, validated_name};
    pub use gixobj_codec::tag::{Tag, TagRef, TagRefIter, ref_iter, write};
}

mod of_laws_by_topic {
    pub use gixobj_codec::laws::readers::{
        actor_search_complete, commit_readers_agree, consumed_commit_tokens_are_prefix,
        id_search_complete, message_search_complete,
    };
    pub use gixobj_codec::laws::tokens::{
        commit_runs_decode_uniquely, commit_tokens_decode_uniquely,
    };
}
