//! The program's command `edit`, and the program over arguments, an input and outputs. `edit` parses a script
//! of edits line by line, runs its commands on an editor, and reports the replies.
#![tactic(auto)]

pub mod editing;
pub mod engine;
pub mod fault;
pub mod laws;
pub mod reporting;

pub use editing::{edit, edit_on};
pub use gixobj_editor_commands::script::{ScriptError, parse_script};
pub use reporting::report_lines;
