//! Runs of scripts on an editor, with a report of the replies.
ghost use Rattle.std.specs.Prelude.{◌≡◌, ◌⊎◌, ℕ, IfErr, IfOk, OnErr};
ghost use Rattle.std.specs.Fn.{FnReturnsAt};
ghost use Rattle.gixobj_store.specs.Stores.{store_model};
ghost use Rattle.gixobj_tree.specs.TreeEncoding.{IsDigestResult};
ghost use Rattle.gixobj_cli_edit.specs.Edits.{IsCommandReported, IsEdit, IsReported, IsScriptRunError, WasRun};
ghost use Rattle.gixobj_editor_commands.specs.declared.script.ScriptError.TheVariants.{BadLine};
ghost use Rattle.gixobj_editor.specs.Replies.{IsCallable};

use crate::reporting::{push_lookups, with_reply};
use crate::{ScriptError, parse_script};
use gixobj_editor::editor::Editor;
use gixobj_editor::{Command, run_command};
use gixobj_hash::hash::{Kind, ObjectId};
use gixobj_store_keep::{Keep, Memory};
use gixobj_tree::Tree;
use std::alloc::Global;

/// Runs a script on the empty root, over an empty store in memory, and returns the report of [`edit_on`].
///
/// Ids are of `hash`; the id of a tree is the digest of its encoding. Allocates the commands, each reply, the
/// store and the report. [`parse_script`] describes the lines of a script.
///
/// An allocation that fails in an edit or a write is no error of the call. The report has a line for it.
///
/// # Errors
///
/// - [`ScriptError::BadLine`] with the number of the first line that is neither empty nor a command. Nothing
///   is run.
/// - [`ScriptError::OutOfMemory`] if an allocation fails for a command before any bad line. Without a bad
///   line also if one fails for the report.
pub fn edit(alloc: Global, script: &[u8], hash: Kind) -> Result<Vec<u8>, ScriptError>
    ensures reported { IfOk result (λ content. IsEdit hash script.now content.items) }
    ensures error { IfErr result (IsScriptRunError hash script.now) }
{
    let mut editor = Editor::new(Tree::empty(alloc), Memory::new(alloc), hash);
    edit_on(
        alloc,
        &mut editor,
        script,
        hash,
        |tree: &Tree|
            ensures { IsDigestResult hash tree.now result }
        { tree.compute_id(alloc, hash) },
    )
}

/// Runs a script on an editor, and returns a report of the replies.
///
/// `out` returns the ids of written trees. It must be callable on every well-formed tree without null ids.
/// [`report_lines`] describes the lines of the report. The last has the number of all lookups that the
/// editor has made.
///
/// Each reply is dropped once its lines are in the report, so memory grows with the editor's files and the
/// store, and not with the writes. Allocates the commands, each reply and the report; the editor and the store
/// allocate for the commands.
///
/// An allocation that fails in an edit or a write is no error of the call. The report has a line for it.
///
/// # Errors
///
/// - [`ScriptError::BadLine`] with the number of the first line that is neither empty nor a command. Nothing
///   is run.
/// - [`ScriptError::OutOfMemory`] if an allocation fails for a command before any bad line. Without a bad
///   line also if one fails for the report: the entire script was run then, and has no report.
pub fn edit_on<S: Keep, E: Drop, F: Fn(&Tree) -> Result<ObjectId, E> + Drop>(
    alloc: Global,
    editor: &mut Editor<S>,
    script: &[u8],
    hash: Kind,
    out: F,
) -> Result<Vec<u8>, ScriptError>
    requires callable { IsCallable F.pre out }
    ensures reported { IfOk result (λ content. IsReported (store_model S.objects S.may_fail)
        (FnReturnsAt F.Fn out)
        hash script.now editor.old content.items editor.new) }
    ensures error { IfErr result (IsScriptRunError hash script.now) }
    ensures unchanged { IfErr result (λ error. (number : ℕ) → error ≡ BadLine number
        → editor.new ≡ editor.old) }
    ensures after_error { OnErr result ((editor.new ≡ editor.old)
        ⊎ WasRun (store_model S.objects S.may_fail) (FnReturnsAt F.Fn out) hash script.now editor.old
        editor.new) }
{
    let commands = parse_script(alloc, script, hash)?;
    let mut lines = Some(Vec::new(alloc));
    for command in commands {
        lines = run_and_report(alloc, editor, command, &out, lines);
    }
    let mut content = match lines {
        Some(lines) => lines,
        None => return Err(ScriptError::OutOfMemory),
    };
    push_lookups(&mut content, editor.lookups())?;
    Ok(content)
}

/// Runs a command, and appends the lines of its reply to those of the replies before, unless these are lost.
/// `None` if an allocation for the lines fails.
fn run_and_report<S: Keep, E: Drop, F: Fn(&Tree) -> Result<ObjectId, E>>(
    alloc: Global,
    editor: &mut Editor<S>,
    command: Command,
    out: &F,
    lines: Option<Vec<u8>>,
) -> Option<Vec<u8>>
    requires callable { IsCallable F.pre out.now }
    ensures { IsCommandReported (store_model S.objects S.may_fail)
        (FnReturnsAt F.Fn out.now) editor.old
        command lines result editor.new }
{
    let reply = run_command(alloc, editor, command, out);
    with_reply(lines, &reply)
}
