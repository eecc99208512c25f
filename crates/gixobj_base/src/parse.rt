//! Steps that decoders share: splits at a byte, hex, actors and header fields (gitdatamodel, "commits").

pub use gixobj_actor::parse::signature;
pub use gixobj_hash::parse::hex_hash;
pub use gixobj_hash::split::{has_byte, split_at_byte, split_at_last_byte};
pub use gixobj_parse::parse::{after_name, any_header_field, header_field};
