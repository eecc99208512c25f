//! Runs of commands on an editor, and the theorem of the files that a written tree has.
ghost use Rattle.std.specs.Prelude.{◌≡◌, [], ℕ, IfOk, OnErr, Some, take};
ghost use Rattle.std.specs.Fn.{FnReturnsAt};
ghost use Rattle.gixobj_editor_files.specs.Bases.{HasBases};
ghost use Rattle.gixobj_editor_files.specs.Files.{NamedFiles, SameFiles, Table};
ghost use Rattle.gixobj_editor_files.specs.History.{FilesAfter};
ghost use Rattle.gixobj_editor_files.specs.State.{EditorFiles, open_bases, open_dirs};
ghost use Rattle.gixobj_editor_files.specs.Tables.{AgreesWithPairs};
ghost use Rattle.gixobj_editor.specs.Causes.{HasReplyCauses, HaveRunCauses};
ghost use Rattle.gixobj_editor.specs.Commands.{accepted_steps, kept_pairs, written_at};
ghost use Rattle.gixobj_editor.specs.PlainRuns.{IdsDetermineFiles, IsPlainRun};
ghost use Rattle.gixobj_editor.specs.Replies.{IsCallable, IsReply, IsRun};
ghost use Rattle.gixobj_editor.specs.RunTables.{AgreesWithRun};
ghost use Rattle.gixobj_store_keep.specs.Keeping.{with_trees};
ghost use Rattle.gixobj_store.specs.Stores.{store_model};

use crate::Command;
use crate::by_cursor::do_edits_at;
use crate::editor::{Editor, Written};
use crate::edits::{do_edit, push_reserved};
use crate::reply::Reply;
use gixobj_hash::OutOfMemory;
use gixobj_hash::hash::ObjectId;
use gixobj_store_keep::Keep;
use gixobj_tree::Tree;
use std::alloc::Global;

/// Does the commands in order, on an editor over a store that keeps trees.
///
/// Each command gets a reply; a failed one doesn't end the run. After each successful write the store keeps
/// the emitted trees in their order, up to the first that it doesn't keep. At the end it has its former
/// objects and the trees that the replies report as kept. Allocates the replies; edits and writes allocate as
/// the calls of [`Editor`], and the store as its [`Keep::keep`].
///
/// The cause in each [`EditReply::NotKept`](crate::EditReply::NotKept) is the error that [`Keep::keep`] returned
/// for the first tree that isn't kept, in the store as it then was.
///
/// `out` must be callable on every well-formed tree without null ids.
///
/// Whenever a write of the root returns an id, that tree has exactly the files that the accepted commands
/// before it make, at every depth. They start with the files of the last root: the last one that was set, or
/// else the editor's files at the start.
///
/// This holds for every table of trees that agrees with the editor's bases and with the run up to that write,
/// its trees included. It assumes nothing of later commands.
///
/// Let the editor be new with the empty root, and let no command insert a tree or set another root. Then two
/// writes of the root return one id if and only if their files are equal at every depth. This assumes a table
/// that agrees with the run, so that no id names two trees. It also assumes that no tree got two ids.
///
/// # Errors
///
/// [`OutOfMemory`] if the allocation of the list of replies fails: nothing was done then.
///
/// # Examples
///
/// ```rust
/// let mut commands: Vec<Command> = edits.into_iter().map(Command::Edit).collect(alloc)?;
/// commands.push(Command::Edit(Edit::Write))?;
/// run(
///     alloc,
///     editor,
///     commands,
///     |tree: &Tree| tree.compute_id(alloc, HashKind::Sha1),
/// )
/// ```
pub fn run<S: Keep, E: Drop, F: Fn(&Tree) -> Result<ObjectId, E> + Drop>(
    alloc: Global,
    editor: &mut Editor<S>,
    commands: Vec<Command>,
    out: F,
) -> Result<Vec<Reply<E>>, OutOfMemory>
    requires callable { IsCallable F.pre out }
    ensures replies { IfOk result (λ replies.
        IsRun (store_model S.objects S.may_fail) (FnReturnsAt F.Fn out) editor.old commands.items
        replies.items editor.new) }
    ensures causes { IfOk result (λ replies.
        HaveRunCauses (store_model S.objects S.may_fail) S.keep_errors (FnReturnsAt F.Fn out) editor.old
        commands.items replies.items editor.new) }
    ensures stored { IfOk result (λ replies. S.objects editor.new.store
        ≡ with_trees (kept_pairs replies.items) (S.objects editor.old.store)) }
    ensures files_of_root { IfOk result (λ replies. (T : Table) (n k : ℕ) (written : Written)
        → written_at replies.items k ≡ Some written
        → AgreesWithRun T (S.objects editor.old.store) (take k replies.items)
        → AgreesWithPairs T written.trees.items
        → HasBases T (open_dirs editor.old) (open_bases editor.old)
        → SameFiles (NamedFiles T n written.id)
        (FilesAfter T n (accepted_steps (take k commands.items) (take k replies.items))
        (EditorFiles T n editor.old))) }
    ensures one_id { IfOk result (λ replies. (T : Table) (m : ℕ)
        → IsPlainRun T (S.objects editor.old.store) editor.old (take m commands.items)
        (take m replies.items) → IdsDetermineFiles (take m commands.items) (take m replies.items)) }
    ensures no_effect { OnErr result (editor.new ≡ editor.old) }
{
    let mut replies = Vec::with_capacity(alloc, commands.len())?;
    for command in commands {
        let reply = run_command(alloc, editor, command, &out);
        push_reserved(&mut replies, reply);
    }
    Ok(replies)
}

/// Does one command as [`run`] does each of its own, and returns the reply.
///
/// A caller that handles each reply at once holds one reply at a time. Replies to writes have the emitted
/// trees, so [`run`] holds the trees of all writes. An edit that fails is reported in the reply. Allocates as
/// the edit, the write or the edits at a prefix do, and the store as its [`Keep::keep`].
///
/// `out` must be callable on every well-formed tree without null ids.
pub fn run_command<S: Keep, E: Drop, F: Fn(&Tree) -> Result<ObjectId, E>>(
    alloc: Global,
    editor: &mut Editor<S>,
    command: Command,
    out: &F,
) -> Reply<E>
    requires callable { IsCallable F.pre out.now }
    ensures reply { IsReply (store_model S.objects S.may_fail) (FnReturnsAt F.Fn out.now) editor.old
        command result editor.new }
    ensures causes { HasReplyCauses (store_model S.objects S.may_fail) S.keep_errors
        (FnReturnsAt F.Fn out.now) editor.old command result editor.new }
{
    match command {
        Command::Edit(edit) => Reply::Edit(do_edit(editor, edit, out)),
        Command::At { prefix, edits } => do_edits_at(alloc, editor, &prefix, edits, out),
        Command::SetRoot(root) => {
            if root.is_well_formed() {
                editor.set_root(root);
                Reply::RootSet
            } else {
                Reply::RootRefused
            }
        }
    }
}
