//! An importer of files, by edits whose trees are kept.
ghost use Rattle.std.specs.Prelude.{◌≡◌, ◌↔◌, ℕ, Contains, Err, IfErr, IfOk, IsTrue, OnErr, not, position};
ghost use Rattle.std.specs.Fn.{FnReturnsAt};
ghost use Rattle.gix_object.specs.Bases.{HasBases};
ghost use Rattle.gix_object.specs.Causes.{HasKeepCause};
ghost use Rattle.gix_object.specs.Files.{NamedFiles, SameFiles, Table};
ghost use Rattle.gix_object.specs.History.{FilesAfter};
ghost use Rattle.gix_object.specs.Keeping.{with_trees};
ghost use Rattle.gix_object.specs.Replies.{IsCallable};
ghost use Rattle.gix_object.specs.RunTables.{AgreesWithObjects};
ghost use Rattle.gix_object.specs.State.{EditorFiles, open_bases, open_dirs};
ghost use Rattle.gix_object.specs.Tables.{AgreesWithPairs};
ghost use Rattle.gixobj_examples_edits.specs.Imports.{Decides, FailsImport, HasImportCauseIn, HasWriteReply};
ghost use Rattle.gixobj_examples_edits.specs.Imports.{edits_and_write, import_steps, is_done};
ghost use Rattle.gix_object.specs.Stores.{store_model};

use gix_object::hash::ObjectId;
use gix_object::laws::store_has_tree_map;
use gix_object::tree::editor::{
    Command, Edit, EditReply, Editor, Error, Reply, WriteError, Written, run,
};
use gix_object::{Keep, KeepError, OutOfMemory, Tree};
use std::alloc::Global;
use std::fmt::Display;

/// The error of [`import_files`].
#[derive(Debug, Drop, thiserror::Error)]
#[error_bound(E: Display)]
pub enum ImportError<E> {
    /// One of the edits is a write. Nothing was done.
    #[error("a write among the edits")]
    HoldsWrite,
    /// An edit failed. The edits after it and the write were still tried.
    #[error("edit {index} failed: {error}")]
    Edit {
        /// The index of the first edit that failed, from 0.
        index: usize,
        /// The error of that edit.
        error: Error,
    },
    /// The edits are done, but the write failed.
    #[error("not written: {0}")]
    Write(WriteError<E>),
    /// The edits are done and written, but the store didn't keep all emitted trees.
    #[error("not kept: {error}")]
    NotKept {
        /// The result of the write.
        written: Written,
        /// The number of emitted trees that the store has kept, in order.
        count: usize,
        /// Why it didn't keep the next one.
        error: KeepError,
    },
    /// Allocation of the commands or of their replies failed. Nothing was done.
    #[error("out of memory")]
    OutOfMemory,
}

impl<E> From<OutOfMemory> for ImportError<E> {
    ghost use Rattle.std.specs.Prelude.{◌≡◌};
    ghost use Rattle.gixobj_examples_edits.specs.declared.importer.ImportError.TheVariants as import;

    ghost from_gives = { λ _ error. error ≡ import.OutOfMemory };

    fn from(_: OutOfMemory) -> ImportError<E> {
        ImportError::OutOfMemory
    }
}

/// Does the edits, writes the root, has the store keep the emitted trees, and returns the result of the
/// write.
///
/// The named tree has, at every depth, exactly the files that the edits make of the editor's. This holds in
/// each table that agrees with the store and the emitted trees, and has the bases of the open directories.
/// The editor has these files then, and its root alone is open.
///
/// `out` must be callable on every well-formed tree without null ids. Allocates the commands and their
/// replies; the editor and the store allocate for them.
///
/// # Errors
///
/// - [`ImportError::HoldsWrite`] if and only if one of the edits is a write;
/// - [`ImportError::Edit`] with index and error, for the first edit that fails; the others and the write are
///   still tried;
/// - [`ImportError::Write`] with the error of the write, if it fails;
/// - [`ImportError::NotKept`] with result, count and the store's error, if it doesn't keep all emitted trees;
/// - [`ImportError::OutOfMemory`] if allocation of the commands or of the list of their replies fails.
///
/// The editor is unchanged after the first and the last.
pub fn import_files<S: Keep, E: Drop, F: Fn(&Tree) -> Result<ObjectId, E> + Drop>(
    alloc: Global,
    editor: &mut Editor<S>,
    edits: Vec<Edit>,
    out: F,
) -> Result<Written, ImportError<E>>
    requires callable { IsCallable F.pre out }
    ensures root { IfOk result (λ written. (T : Table) (n : ℕ)
        → AgreesWithObjects T (S.objects editor.old.store) → AgreesWithPairs T written.trees.items
        → HasBases T (open_dirs editor.old) (open_bases editor.old)
        → SameFiles (NamedFiles T n written.id)
        (FilesAfter T n (import_steps edits.items) (EditorFiles T n editor.old))) }
    ensures continues { IfOk result (λ written. (T : Table) (n : ℕ)
        → AgreesWithPairs T written.trees.items
        → SameFiles (EditorFiles T n editor.new) (NamedFiles T n written.id)) }
    ensures has_bases { IfOk result (λ written. (T : Table)
        → HasBases T (open_dirs editor.new) (open_bases editor.new)) }
    ensures stored { IfOk result (λ written. S.objects editor.new.store
        ≡ with_trees written.trees.items (S.objects editor.old.store)) }
    // Each edit succeeds, and then the write; or the error reports which call failed, and why.
    ensures written { IfOk result (λ written.
        HasWriteReply (store_model S.objects S.may_fail) (FnReturnsAt F.Fn out) editor.old edits.items
        (EditReply.Written written) editor.new) }
    ensures error { IfErr result (λ error.
        FailsImport (store_model S.objects S.may_fail) (FnReturnsAt F.Fn out) editor.old edits.items
        error editor.new) }
    ensures cause { IfErr result (HasImportCauseIn S.objects S.keep_errors editor.old.store) }
    ensures holds_write { (result ≡ Err ImportError.HoldsWrite) ↔ Contains edits.items Edit.Write }
{
    store_has_tree_map();
    if hold_a_write(&edits) {
        return Err(ImportError::HoldsWrite);
    }
    let (index, reply) = deciding_reply(alloc, editor, edits, out)?;
    match reply {
        EditReply::Done => unreachable!(),
        EditReply::Refused(error) => Err(ImportError::Edit { index, error }),
        EditReply::Written(written) => Ok(written),
        EditReply::WriteRefused(error) => Err(ImportError::Write(error)),
        EditReply::NotKept(written, count, error) => Err(ImportError::NotKept {
            written,
            count,
            error,
        }),
    }
}

/// Does the edits and a write, and returns the first reply other than `Done`, with its index: that to an edit
/// that failed, or to the write.
fn deciding_reply<S: Keep, E: Drop, F: Fn(&Tree) -> Result<ObjectId, E> + Drop>(
    alloc: Global,
    editor: &mut Editor<S>,
    edits: Vec<Edit>,
    out: F,
) -> Result<(usize, EditReply<E>), OutOfMemory>
    requires callable { IsCallable F.pre out }
    requires no_write { ¬ Contains edits.items Edit.Write }
    ensures decides { IfOk result (λ it.
        Decides (store_model S.objects S.may_fail) (FnReturnsAt F.Fn out) editor.old edits.items it.0
        it.1 editor.new) }
    ensures cause { IfOk result (λ it. HasKeepCause S.objects S.keep_errors editor.old.store it.1) }
    ensures no_effect { OnErr result (editor.new ≡ editor.old) }
{
    store_has_tree_map();
    let commands = commands_of(alloc, edits)?;
    let mut replies = run(alloc, editor, commands, out)?;
    let Some(index) = position_of_reply(&replies) else {
        unreachable!()
    };
    let Reply::Edit(reply) = replies.remove(index) else {
        unreachable!()
    };
    Ok((index, reply))
}

/// Tests if one of the edits is a write.
fn hold_a_write(edits: &[Edit]) -> bool
    ensures { IsTrue result ↔ Contains edits.now Edit.Write }
{
    edits.iter().any(|edit| matches!(edit, Edit::Write))
}

/// Makes a command of each edit, and appends a write.
fn commands_of(alloc: Global, edits: Vec<Edit>) -> Result<Vec<Command>, OutOfMemory>
    ensures { IfOk result (λ commands. commands.items ≡ edits_and_write edits.items) }
{
    let mut commands: Vec<Command> = edits.into_iter().map(Command::Edit).collect(alloc)?;
    commands.push(Command::Edit(Edit::Write))?;
    Ok(commands)
}

/// Returns the index of the first reply other than that to an accepted edit.
fn position_of_reply<E>(replies: &[Reply<E>]) -> Option<usize>
    ensures { result ≡ position (λ reply. not (is_done reply)) replies.now }
{
    replies
        .iter()
        .position(|reply| !matches!(reply, Reply::Edit(EditReply::Done)))
}
