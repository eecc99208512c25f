//! Laws of encoding and decoding: round trips and unique decoding. Each function is empty; its contract is
//! the law.

pub use gixobj_actor::laws::{actor_line_decodes_uniquely, actor_round_trips, time_round_trips};
pub use gixobj_encode::laws::write_error_implies_sink_error;
pub use gixobj_hash::laws::{hex_reencodes_identically, hex_round_trips, loose_header_round_trips};
pub use gixobj_parse::laws::header_field_decodes_uniquely;
pub use gixobj_tree_entries::laws::mode_round_trips;
