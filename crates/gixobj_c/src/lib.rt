//! Calls for C, and for languages that call C: functions over bytes, which keep nothing and return nothing that is to
//! be freed.
//!
//! Each call returns a status of [`gixobj_c_codes::codes`]. It writes what it found through its last parameters. If it
//! fails, they are unchanged, except that the length that a buffer needs is always written.
#![tactic(auto)]

mod actors;
mod commits;
mod entries;
mod headers;
mod ids;
pub mod laws;
mod loose;
mod messages;
mod objects;
mod signatures;
mod spans;
mod tags;
mod trailers;
mod trees;
