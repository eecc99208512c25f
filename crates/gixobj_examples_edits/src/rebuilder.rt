//! A rebuilder, which runs commands on an editor without files, and returns or compares the roots it writes.
ghost use Rattle.std.specs.Prelude.{◌≡◌, ◌↔◌, IfErr, IfOk, IsTrue, None, OnErr};
ghost use Rattle.std.specs.Fn.{FnReturnsAt};
ghost use Rattle.gix_object.specs.Commands.{written_at, written_by, written_by_edit};
ghost use Rattle.gix_object.specs.Replies.{IsCallable};
ghost use Rattle.gixobj_examples_edits.specs.Rebuilds.{IsCompared, IsComparisonError, IsRebuildError, IsRebuilt};
ghost use Rattle.gixobj_examples_edits.specs.Rebuilds.{NamesWritten, id_named};
ghost use Rattle.gix_object.specs.Stores.{store_model};

use gix_object::hash::{Kind, ObjectId};
use gix_object::laws::{consistent_run_has_table, run_table_agrees_with_writes};
use gix_object::tree::editor::{Command, EditReply, Editor, Reply, run};
use gix_object::{Keep, OutOfMemory, Tree};
use std::alloc::Global;

/// The error of [`rebuild`] and [`wrote_the_same`].
#[derive(Debug, Drop, thiserror::Error)]
pub enum CompareError {
    /// The command at this index isn't a successful write of the root, or is missing. The commands were run.
    #[error("no write of the root at position {position}")]
    NoWrite {
        /// The index, from 0; the first of the two if neither is that of a write.
        position: usize,
    },
    /// Allocation of the replies failed. Nothing was done.
    #[error("out of memory")]
    OutOfMemory,
}

impl From<OutOfMemory> for CompareError {
    ghost use Rattle.std.specs.Prelude.{◌≡◌};
    ghost use Rattle.gixobj_examples_edits.specs.declared.rebuilder.CompareError.TheVariants as compare;

    ghost from_gives = { λ _ error. error ≡ compare.OutOfMemory };

    fn from(_: OutOfMemory) -> CompareError {
        CompareError::OutOfMemory
    }
}

/// Runs commands on an editor without files, and returns the id that the write of the root at this index, from
/// 0, names.
///
/// The write also counts if the store didn't keep all its trees. Allocates the replies, and what the edits
/// allocate; drops the store at the end.
///
/// Let the emitted trees be consistent with the trees of the store before the run, and let each kept tree
/// decode to itself. Then some table agrees with the run. In it, the tree of the id has, at every depth,
/// exactly the files that the accepted commands before that write make of none.
///
/// Trees are consistent if no id is null, no id names two trees, the store's included, and the empty tree's
/// id names it alone.
///
/// `out` must be callable on every well-formed tree without null ids.
///
/// # Errors
///
/// - [`CompareError::NoWrite`] with the index, if its command is missing, or isn't a successful write of the
///   root;
/// - [`CompareError::OutOfMemory`] if allocation of the list of replies fails.
pub fn rebuild<S: Keep + Drop, E: Drop, F: Fn(&Tree) -> Result<ObjectId, E> + Drop>(
    alloc: Global,
    store: S,
    object_hash: Kind,
    commands: Vec<Command>,
    position: usize,
    out: F,
) -> Result<ObjectId, CompareError>
    requires callable { IsCallable F.pre out }
    ensures files { IfOk result (IsRebuilt (store_model S.objects S.may_fail) (FnReturnsAt F.Fn out)
        store object_hash commands.items position) }
    ensures error { IfErr result (IsRebuildError (store_model S.objects S.may_fail)
        (FnReturnsAt F.Fn out) store object_hash commands.items position) }
{
    let mut editor = Editor::new(Tree::empty(alloc), store, object_hash);
    let replies = run(alloc, &mut editor, commands, out)?;
    consistent_run_has_table(&replies);
    run_table_agrees_with_writes(&replies);
    id_written(&replies, position)
}

/// Runs commands on an editor without files, and tests if its writes of the root at two indices, from 0, name
/// one id.
///
/// A write also counts if the store didn't keep all its trees. Allocates the replies, and what the edits
/// allocate; drops the store at the end.
///
/// Let the commands insert no tree and set no root but the empty one, and let no emitted tree have two ids.
/// Then the result is whether the files of both writes are equal at every depth. This assumes a table that
/// agrees with the run, so that no id names two trees.
///
/// `out` must be callable on every well-formed tree without null ids.
///
/// # Errors
///
/// - [`CompareError::NoWrite`] with the first of the two indices whose command is missing, or isn't a
///   successful write of the root;
/// - [`CompareError::OutOfMemory`] if allocation of the list of replies fails.
pub fn wrote_the_same<S: Keep + Drop, E: Drop, F: Fn(&Tree) -> Result<ObjectId, E> + Drop>(
    alloc: Global,
    store: S,
    object_hash: Kind,
    commands: Vec<Command>,
    position: usize,
    other: usize,
    out: F,
) -> Result<bool, CompareError>
    requires callable { IsCallable F.pre out }
    ensures compared { IfOk result (IsCompared (store_model S.objects S.may_fail)
        (FnReturnsAt F.Fn out)
        store object_hash commands.items position other) }
    ensures error { IfErr result (IsComparisonError (store_model S.objects S.may_fail)
        (FnReturnsAt F.Fn out) store object_hash commands.items position other) }
{
    let mut editor = Editor::new(Tree::empty(alloc), store, object_hash);
    let replies = run(alloc, &mut editor, commands, out)?;
    let first = match id_written(&replies, position) {
        Ok(first) => first,
        Err(error) => return Err(error),
    };
    let second = match id_written(&replies, other) {
        Ok(second) => second,
        Err(error) => return Err(error),
    };
    Ok(are_same(first, second))
}

/// Tests if the ids are equal.
fn are_same(id: ObjectId, other: ObjectId) -> bool
    ensures { IsTrue result ↔ (id ≡ other) }
{
    id == other
}

/// Returns the id that a write of the root names, by the reply at this index.
fn id_written<E>(replies: &[Reply<E>], position: usize) -> Result<ObjectId, CompareError>
    ensures found { IfOk result (NamesWritten replies.now position) }
    ensures error { IfErr result (λ error. error ≡ CompareError.NoWrite position) }
    ensures none { OnErr result (written_at replies.now position ≡ None) }
{
    let Some(reply) = replies.get(position) else {
        return Err(CompareError::NoWrite { position });
    };
    match id_in(reply) {
        Some(id) => Ok(id),
        None => Err(CompareError::NoWrite { position }),
    }
}

/// Returns the id that a write of the root names, if the reply reports a successful one.
fn id_in<E>(reply: &Reply<E>) -> Option<ObjectId>
    ensures { result ≡ id_named (written_by reply.now) }
{
    match reply {
        Reply::Edit(reply) => id_in_edit(reply),
        Reply::At(_) => None,
        Reply::AtRefused(_) => None,
        Reply::RootSet => None,
        Reply::RootRefused => None,
    }
}

/// Returns the id that a write names, if the reply to an edit reports a successful one.
fn id_in_edit<E>(reply: &EditReply<E>) -> Option<ObjectId>
    ensures { result ≡ id_named (written_by_edit reply.now) }
{
    match reply {
        EditReply::Done => None,
        EditReply::Refused(_) => None,
        EditReply::Written(written) => Some(written.id),
        EditReply::WriteRefused(_) => None,
        EditReply::NotKept(written, _, _) => Some(written.id),
    }
}
