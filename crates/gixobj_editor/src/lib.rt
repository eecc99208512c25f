//! An editor of nested trees over an object store, and runs of edits, writes and new roots on it.
//!
//! The store of a run keeps the written trees.
#![tactic(auto)]

mod by_cursor;
pub mod editor;
pub mod edits;
pub mod laws;
pub mod reply;
mod running;

pub use gixobj_editor_commands::{Command, Edit};
pub use reply::{EditReply, Reply};
pub use running::{run, run_command};
