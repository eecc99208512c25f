//! Parsing of scripts.
ghost use Rattle.std.specs.Prelude.{◌≡◌, ◌≢◌, ◌++◌, [], map, IfErr, IfOk, OnOk};
ghost use Rattle.gixobj_editor_commands.specs.Views.{command_view};
ghost use Rattle.gixobj_editor_commands.specs.Scripts.{IsScript, AppendsLine, IsScriptLineError, IsScriptParseError};

use crate::Command;
use crate::line::parse_command;
use gixobj_hash::OutOfMemory;
use gixobj_hash::hash::Kind;
use gixobj_hash::split::split_at_byte;
use std::alloc::{AllocFailed, Global};

/// The error of parsing a script, running it or reporting its replies.
#[derive(Clone, Copy, Debug, PartialEq, Eq, thiserror::Error)]
pub enum ScriptError {
    /// The line with this number is the first that is neither empty nor a command. Numbers begin with 1, and
    /// count empty lines. Nothing is run.
    #[error("line {0}")]
    BadLine(u64),
    /// An allocation failed, for the commands or for the report.
    #[error("out of memory")]
    OutOfMemory,
}

impl From<OutOfMemory> for ScriptError {
    ghost use Rattle.gixobj_editor_commands.specs.declared.script.ScriptError.TheVariants.{OutOfMemory};

    ghost from_gives = { λ _ error. error ≡ OutOfMemory };

    fn from(_: OutOfMemory) -> ScriptError {
        ScriptError::OutOfMemory
    }
}

impl<T: Drop> From<AllocFailed<T>> for ScriptError {
    ghost use Rattle.gixobj_editor_commands.specs.declared.script.ScriptError.TheVariants.{OutOfMemory};

    ghost from_gives = { λ _ error. error ≡ OutOfMemory };

    fn from(_: AllocFailed<T>) -> ScriptError {
        ScriptError::OutOfMemory
    }
}

/// Parses a script into its commands, in order, with ids of `hash`.
///
/// Each line is a command or empty, and ends in a newline, which the last one may lack. Empty lines are
/// skipped. The commands are
///
/// - `upsert KIND ID PATH`; the kind is `tree`, `blob`, `exe`, `link` or `commit`, and the id is in hex of
///   either case;
/// - `remove PATH`, and `leaf PATH` for the removal of an entry unless it is a directory;
/// - `write`;
/// - `at PREFIX EDIT`, for one of these in the directory at a path without spaces;
/// - `root`, for the empty tree as the new root.
///
/// One space separates two tokens, and a path extends to the end of the line. It is split at each `/` into
/// names, which may be empty. The path `.` has no names.
///
/// Allocates the commands.
///
/// # Errors
///
/// - [`ScriptError::BadLine`] with the number of the first line that is neither empty nor a command.
/// - [`ScriptError::OutOfMemory`] if an allocation fails for a command before any bad line.
pub fn parse_script(alloc: Global, bytes: &[u8], hash: Kind) -> Result<Vec<Command>, ScriptError>
    ensures found { IfOk result (λ commands.
        IsScript hash bytes.now (map command_view commands.items)) }
    ensures error { IfErr result (IsScriptParseError hash bytes.now) }
{
    let mut commands = Vec::new(alloc);
    let mut rest = bytes;
    let mut number = 1;
    while let Some((line, after)) = split_at_byte(rest, b'\n') {
        write_line(&mut commands, alloc, number, line, hash)?;
        rest = after;
        number += 1;
    }
    write_line(&mut commands, alloc, number, rest, hash)?;
    Ok(commands)
}

/// Appends the command of a line. An empty line has none.
fn write_line(
    commands: &mut Vec<Command>,
    alloc: Global,
    number: u64,
    line: &[u8],
    hash: Kind,
) -> Result<(), ScriptError>
    ensures appended { OnOk result (AppendsLine hash line.now (map command_view commands.old.items)
        (map command_view commands.new.items)) }
    ensures error { IfErr result (IsScriptLineError hash number line.now) }
{
    if line.is_empty() {
        return Ok(());
    }
    match parse_command(alloc, line, hash)? {
        Some(command) => {
            commands.push(command)?;
            Ok(())
        }
        None => Err(ScriptError::BadLine(number)),
    }
}
