//! Laws of the decoders and encoders of trees and modes. The contract of each function is the law, and
//! its body is empty.

mod trees;

pub use gixobj_tree_entries::laws::mode_round_trips;
pub use trees::{tree_decodes_uniquely, tree_reencodes_identically, tree_round_trips};
