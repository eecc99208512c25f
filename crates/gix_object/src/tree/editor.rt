//! The editor of nested trees, its cursors, and complete runs of commands.

pub use gixobj_editor::editor::{Cursor, Editor, Error, WriteError, Written};
pub use gixobj_editor::{Command, Edit, EditReply, Reply, run, run_command};
