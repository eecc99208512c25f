//! Entries of trees, owned and borrowed, with their modes and kinds: decoded, compared and copied, and the order of
//! their names (gitdatamodel, "trees").
#![tactic(auto)]

pub mod decode;
mod entry;
mod entry_kind;
mod entry_mode;
mod entry_ref;
pub mod laws;
pub mod order;
mod owned;

pub use entry::Entry;
pub use entry_kind::EntryKind;
pub use entry_mode::{EntryMode, encode_kind, encoded_len};
pub use entry_ref::EntryRef;
pub use order::name_order;
