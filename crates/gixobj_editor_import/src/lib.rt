//! Imports of history: steps of edits, each of which becomes a commit on the one before it.
//!
//! They use the public calls of the editor, of stores and of commits alone.
#![tactic(auto)]

mod commits;
mod edits;
pub mod import;
pub mod laws;
mod written;

pub use import::{ImportError, Imported, Importer, Step, Stopped, import_all};
