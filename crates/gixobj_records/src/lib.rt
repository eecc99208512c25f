//! Records of objects, as `git cat-file --batch` prints them (git-cat-file, "BATCH OUTPUT").
#![tactic(auto)]

pub mod header;
pub mod laws;
pub mod records;

pub use records::{BatchError, Record, RecordFault, decode_record, decode_records};
