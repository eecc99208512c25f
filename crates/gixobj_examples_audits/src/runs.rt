//! Runs of commands on a stored root, and the changes that they make.
ghost use Rattle.std.specs.Prelude.{◌≡◌, ℕ, IfErr, IfOk, IsFalse};
ghost use Rattle.std.specs.Fn.{FnReturnsAt};
ghost use Rattle.gix_object.specs.Bases.{HasBases};
ghost use Rattle.gix_object.specs.Commands.{accepted_steps, kept_pairs};
ghost use Rattle.gix_object.specs.Files.{NamedFiles, SameFiles, Table, is_null};
ghost use Rattle.gix_object.specs.History.{FilesAfter};
ghost use Rattle.gix_object.specs.Keeping.{with_trees};
ghost use Rattle.gix_object.specs.Replies.{IsCallable, IsRun};
ghost use Rattle.gix_object.specs.RunTables.{AgreesWithRun};
ghost use Rattle.gix_object.specs.State.{EditorFiles, open_bases, open_dirs};
ghost use Rattle.gix_object.specs.Stores.{store_model};
ghost use Rattle.gixobj_listings.specs.Changes.{AreChangesInOrder};
ghost use Rattle.gixobj_examples_audits.specs.Runs.{HasNoWrite, IsChangedByRun, IsReopenError, IsReopened, IsRunError};
ghost use Rattle.gixobj_examples_audits.specs.Runs.{and_reply, and_write};

use gix_object::hash::ObjectId;
use gix_object::laws::{run_table_agrees_with_writes, store_has_tree_map};
use gix_object::tree::editor::{Command, Edit, EditReply, Editor, Reply, WriteError, Written, run};
use gix_object::{Keep, KeepError, OutOfMemory, Tree};
use gixobj_listings::differences::{Change, changes};
use gixobj_listings::laws::{stored_root_has_files, tree_changes_are_step_changes};
use gixobj_listings::listing::ListError;
use gixobj_listings::roots::{RootError, root_in};
use std::alloc::Global;
use std::fmt::Display;

/// What a run made of a stored root. [`changes_of_run`] returns it.
#[derive(Debug, Drop)]
pub struct RunChanges<E> {
    /// The replies to the commands, one each.
    pub replies: Vec<Reply<E>>,
    /// The result of the write after the commands.
    pub written: Written,
    /// The changes from the stored root to the written one, in the order of their paths.
    pub changes: Vec<Change>,
}

/// The error of [`changes_of_run`] and of [`run_and_reopen`].
#[derive(Debug, Drop, thiserror::Error)]
#[error_bound(E: Display)]
pub enum RunError<E> {
    /// The root isn't found, or is invalid.
    #[error("no root: {0}")]
    Root(RootError),
    /// The commands are done, but the write failed.
    #[error("not written: {0}")]
    Write(WriteError<E>),
    /// The commands are done and written, but the store didn't keep all emitted trees.
    #[error("not kept: {error}")]
    NotKept {
        /// The result of the write.
        written: Written,
        /// The number of emitted trees that the store has kept, in order.
        count: usize,
        /// Why it didn't keep the next one.
        error: KeepError,
    },
    /// The roots aren't compared, for this cause.
    #[error("not compared: {0}")]
    Changes(ListError),
    /// Allocation of the commands or of their replies failed. No command was done.
    #[error("out of memory")]
    OutOfMemory,
}

impl<E> From<OutOfMemory> for RunError<E> {
    ghost use Rattle.std.specs.Prelude.{◌≡◌};
    ghost use Rattle.gixobj_examples_audits.specs.declared.runs.RunError.TheVariants as run;

    ghost from_gives = { λ _ error. error ≡ run.OutOfMemory };

    fn from(_: OutOfMemory) -> RunError<E> {
        RunError::OutOfMemory
    }
}

/// Runs commands on an editor of a stored root, writes, and lists the changes between the two roots
/// (git-diff-tree, `-r`).
///
/// The changes are exactly those that the accepted commands make of the root's files, to every depth from
/// `depth` on. This holds in each table that agrees with the run, if the root's id isn't null.
///
/// `out` must be callable on every well-formed tree without null ids. Allocates the root, the commands and
/// their replies, and as [`run`] and [`changes`]; drops the store at the end.
///
/// # Errors
///
/// - [`RunError::Root`] with the error of [`root_in`], if the root isn't found, or is invalid;
/// - [`RunError::Write`] with the error of the write, if it fails;
/// - [`RunError::NotKept`] with result, count and error, if the store doesn't keep all emitted trees;
/// - [`RunError::Changes`] with the error of [`changes`], if the roots aren't compared;
/// - [`RunError::OutOfMemory`] if allocation of the commands or of the list of their replies fails.
pub fn changes_of_run<S: Keep + Drop, E: Drop, F: Fn(&Tree) -> Result<ObjectId, E> + Drop>(
    alloc: Global,
    store: S,
    root: ObjectId,
    commands: Vec<Command>,
    depth: u32,
    out: F,
) -> Result<RunChanges<E>, RunError<E>>
    requires callable { IsCallable F.pre out }
    ensures changed { IfOk result (IsChangedByRun (store_model S.objects S.may_fail)
        (FnReturnsAt F.Fn out) store root commands.items depth) }
    ensures ordered { IfOk result (λ it. AreChangesInOrder it.changes.items) }
    ensures error { IfErr result (IsRunError (store_model S.objects S.may_fail)
        (FnReturnsAt F.Fn out)
        store root commands.items depth) }
{
    store_has_tree_map();
    stored_root_has_files();
    tree_changes_are_step_changes();
    let tree = match root_in(alloc, &store, root) {
        Ok(tree) => tree,
        Err(error) => return Err(RunError::Root(error)),
    };
    let mut editor = Editor::new(tree, store, root.kind());
    let (replies, written) = match run_and_write(alloc, &mut editor, commands, out) {
        Ok(it) => it,
        Err(error) => return Err(error),
    };
    match changes(alloc, editor.store_mut(), root, written.id, depth) {
        Ok(changes) => Ok(RunChanges {
            replies,
            written,
            changes,
        }),
        Err(error) => Err(RunError::Changes(error)),
    }
}

/// Runs commands on an editor, writes, and makes the written root, as the store has it then, the root of the
/// editor. Returns the replies to the commands, and the result of the write.
///
/// The editor has exactly the files that the accepted commands make of its files before. This holds in each
/// table that agrees with the run and has the bases of the open directories. Its root alone is open.
///
/// `out` must be callable on every well-formed tree without null ids. Allocates the commands and their
/// replies, the root, and as [`run`].
///
/// # Errors
///
/// - [`RunError::Write`] with the error of the write, if it fails;
/// - [`RunError::NotKept`] with result, count and error, if the store doesn't keep all emitted trees;
/// - [`RunError::Root`] with the error of [`root_in`], if the store doesn't have the written root;
/// - [`RunError::OutOfMemory`] if allocation of the commands or of the list of their replies fails.
pub fn run_and_reopen<S: Keep, E: Drop, F: Fn(&Tree) -> Result<ObjectId, E> + Drop>(
    alloc: Global,
    editor: &mut Editor<S>,
    commands: Vec<Command>,
    out: F,
) -> Result<(Vec<Reply<E>>, Written), RunError<E>>
    requires callable { IsCallable F.pre out }
    ensures reopened { IfOk result (λ it. IsReopened (store_model S.objects S.may_fail)
        (FnReturnsAt F.Fn out) editor.old commands.items it.0.items it.1 editor.new) }
    ensures error { IfErr result (λ error. IsReopenError (store_model S.objects S.may_fail)
        (FnReturnsAt F.Fn out) editor.old commands.items error editor.new) }
{
    store_has_tree_map();
    stored_root_has_files();
    let (replies, written) = match run_and_write(alloc, editor, commands, out) {
        Ok(it) => it,
        Err(error) => return Err(error),
    };
    let root = match root_in(alloc, editor.store_mut(), written.id) {
        Ok(root) => root,
        Err(error) => return Err(RunError::Root(error)),
    };
    editor.set_root(root);
    Ok((replies, written))
}

/// Runs the commands and then writes the root. Returns the replies to the commands, and the result of the
/// write.
fn run_and_write<S: Keep, E: Drop, F: Fn(&Tree) -> Result<ObjectId, E> + Drop>(
    alloc: Global,
    editor: &mut Editor<S>,
    commands: Vec<Command>,
    out: F,
) -> Result<(Vec<Reply<E>>, Written), RunError<E>>
    requires callable { IsCallable F.pre out }
    ensures run { IfOk result (λ it. IsRun (store_model S.objects S.may_fail) (FnReturnsAt F.Fn out)
        editor.old (and_write commands.items) (and_reply it.0.items (EditReply.Written it.1))
        editor.new) }
    ensures files { IfOk result (λ it. (T : Table) (n : ℕ)
        → AgreesWithRun T (S.objects editor.old.store) (and_reply it.0.items (EditReply.Written it.1))
        → HasBases T (open_dirs editor.old) (open_bases editor.old)
        → SameFiles (NamedFiles T n it.1.id)
        (FilesAfter T n (accepted_steps commands.items it.0.items) (EditorFiles T n editor.old))) }
    ensures filled { IfOk result (λ it. (T : Table)
        → AgreesWithRun T (S.objects editor.old.store) (and_reply it.0.items (EditReply.Written it.1))
        → IsFalse (is_null it.1.id)) }
    ensures stored { IfOk result (λ it. S.objects editor.new.store
        ≡ with_trees (kept_pairs (and_reply it.0.items (EditReply.Written it.1)))
        (S.objects editor.old.store)) }
    ensures error { IfErr result (λ error. HasNoWrite (store_model S.objects S.may_fail)
        (FnReturnsAt F.Fn out) editor.old commands.items error editor.new) }
{
    let commands = commands_and_write(commands)?;
    let mut replies = run(alloc, editor, commands, out)?;
    run_table_agrees_with_writes(&replies);
    let Some(last) = replies.pop() else {
        unreachable!()
    };
    let Reply::Edit(reply) = last else {
        unreachable!()
    };
    match reply {
        EditReply::Done => unreachable!(),
        EditReply::Refused(_) => unreachable!(),
        EditReply::Written(written) => Ok((replies, written)),
        EditReply::WriteRefused(error) => Err(RunError::Write(error)),
        EditReply::NotKept(written, count, error) => Err(RunError::NotKept {
            written,
            count,
            error,
        }),
    }
}

/// Appends a write of the root to the commands.
fn commands_and_write(commands: Vec<Command>) -> Result<Vec<Command>, OutOfMemory>
    ensures { IfOk result (λ all. all.items ≡ and_write commands.items) }
{
    let mut commands = commands;
    commands.push(Command::Edit(Edit::Write))?;
    Ok(commands)
}
