//! Each public path of `gixobj_base`, as its users write it.

mod root {
    pub use gixobj_base::{
        Blob, BlobRef, Header, Kind, OutOfMemory, Tree, WriteTo, actor, compute_hash,
        compute_stream_hash, date, decode, encode, hash, kind, laws, parse, stream_hash, streams,
        traits, tree,
    };
}

mod of_actors {
    pub use gixobj_base::actor::{Signature, SignatureRef};
    pub use gixobj_base::date::{Time, TimeBuf, parse_header};
}

mod of_decode {
    pub use gixobj_base::decode::{
        Error, LooseContentError, LooseHeaderDecodeError, ParseIntegerErrorKind, loose_content,
        loose_header,
    };
}

mod of_encode {
    pub use gixobj_base::encode::{Error, RefNameFault, loose_header};
}

mod of_hash {
    pub use gixobj_base::hash::verify::Error;
    pub use gixobj_base::hash::{Kind, ObjectId, oid, verify};
}

mod of_kind {
    pub use gixobj_base::kind::{Error, Kind};
}

mod of_laws {
    pub use gixobj_base::laws::{
        actor_line_decodes_uniquely, actor_round_trips, header_field_decodes_uniquely,
        hex_reencodes_identically, hex_round_trips, loose_header_round_trips, mode_round_trips,
        time_round_trips, write_error_implies_sink_error,
    };
}

mod of_parse {
    pub use gixobj_base::parse::{
        after_name, any_header_field, has_byte, header_field, hex_hash, signature, split_at_byte,
        split_at_last_byte,
    };
}

mod of_stream_hash {
    pub use gixobj_base::stream_hash::{
        Error, compute_slice_hash, compute_source_hash, compute_stream_hash, skip_source,
        skip_stream,
    };
}

mod of_streams {
    pub use gixobj_base::streams::{FromRead, Sink, Source, ToWrite};
    pub use gixobj_base::traits::WriteTo;
}

mod of_tree {
    pub use gixobj_base::tree::{Entry, EntryKind, EntryMode, Tree, name_order};
}
