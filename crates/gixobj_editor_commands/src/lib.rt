//! Commands of edits, and scripts of them: parsed line by line, with no editor.
#![tactic(auto)]

pub mod command;
pub mod laws;
mod line;
mod path;
pub mod script;

pub use command::{Command, Edit};
pub use script::{ScriptError, parse_script};
