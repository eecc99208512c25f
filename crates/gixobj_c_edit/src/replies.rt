//! Replies to the commands of a script, and to the write after them.
ghost use Rattle.std.specs.Prelude.{◌≡◌, ◌++◌, IfErr, IfOk, MatchOption, OnOk};
ghost use Rattle.gixobj_c_edit.specs.Replies.{AreDone, IsFirstFailure, edit_reply_failure, edits_failure, missing_id};
ghost use Rattle.gixobj_c_edit.specs.Replies.{missing_ids, reply_failure, written_id};
ghost use Rattle.gixobj_c_edit.specs.declared.failure.Failure.TheVariants as failure;
ghost use Rattle.gixobj_store_keep.specs.Memory.{memory_objects};

use crate::failure::{Failure, edit_failure, encode_failure, given_failure, keep_failure};
use gixobj_editor::editor::WriteError;
use gixobj_editor::{EditReply, Reply};
use gixobj_encode::encode;
use gixobj_hash::hash::ObjectId;
use gixobj_store_keep::Memory;
use std::alloc::Global;

/// Returns the index of the first command that failed, with its failure, or `None` if all are done.
pub fn first_failure(replies: &[Reply<encode::Error>]) -> Option<(usize, Failure)>
    ensures { MatchOption result (AreDone replies.now)
        (λ it. IsFirstFailure replies.now it.0 it.1) }
{
    for (index, reply) in replies.iter().enumerate() {
        if let Some(failure) = reply_failure(reply) {
            return Some((index, failure));
        }
    }
    None
}

/// Returns the ids of the trees that commands lack, one after another, in the order of the commands. Allocates them.
///
/// # Errors
///
/// [`Failure::OutOfMemory`] if an allocation fails.
pub fn missing_ids(
    alloc: Global,
    lossy: &Memory,
    replies: &[Reply<encode::Error>],
) -> Result<Vec<u8>, Failure>
    ensures ids { IfOk result (λ ids. ids.items
        ≡ missing_ids (memory_objects lossy.now) replies.now) }
    ensures error { IfErr result (λ it. it ≡ failure.OutOfMemory) }
{
    let mut ids = Vec::new(alloc);
    for reply in replies {
        append_missing(lossy, reply, &mut ids)?;
    }
    Ok(ids)
}

/// Appends the id of the tree that a command lacks.
fn append_missing(
    lossy: &Memory,
    reply: &Reply<encode::Error>,
    ids: &mut Vec<u8>,
) -> Result<(), Failure>
    ensures appended { OnOk result (ids.new.items
        ≡ ids.old.items ++ missing_id (memory_objects lossy.now) reply.now) }
    ensures error { IfErr result (λ it. it ≡ failure.OutOfMemory) }
{
    let Some(failure) = reply_failure(reply) else {
        return Ok(());
    };
    let Failure::NotFound(id) = given_failure(lossy, failure) else {
        return Ok(());
    };
    match ids.extend_from_slice(id.as_bytes()) {
        Ok(()) => Ok(()),
        Err(_) => Err(Failure::OutOfMemory),
    }
}

/// Returns the failure of a command by its reply, or `None` if it is done.
fn reply_failure(reply: &Reply<encode::Error>) -> Option<Failure>
    ensures { result ≡ reply_failure reply.now }
{
    match reply {
        Reply::Edit(reply) => edit_reply_failure(reply),
        Reply::At(replies) => edits_failure(replies),
        Reply::AtRefused(error) => Some(edit_failure(error)),
        Reply::RootSet => None,
        Reply::RootRefused => Some(Failure::MalformedTree),
    }
}

/// Returns the failure of the first edit that failed, or `None` if all are done.
fn edits_failure(replies: &[EditReply<encode::Error>]) -> Option<Failure>
    ensures { result ≡ edits_failure replies.now }
{
    for reply in replies {
        if let Some(failure) = edit_reply_failure(reply) {
            return Some(failure);
        }
    }
    None
}

/// Returns the failure of an edit or a write by its reply, or `None` if it is done.
fn edit_reply_failure(reply: &EditReply<encode::Error>) -> Option<Failure>
    ensures { result ≡ edit_reply_failure reply.now }
{
    match reply {
        EditReply::Done | EditReply::Written(_) => None,
        EditReply::Refused(error) => Some(edit_failure(error)),
        EditReply::WriteRefused(WriteError::Out(error)) => Some(encode_failure(error)),
        EditReply::WriteRefused(WriteError::OutOfMemory) => Some(Failure::OutOfMemory),
        EditReply::NotKept(_, _, error) => Some(keep_failure(error)),
    }
}

/// Returns the id that a write of the root returned, by its reply.
pub fn written_id(reply: &Reply<encode::Error>) -> Option<ObjectId>
    ensures { result ≡ written_id reply.now }
{
    match reply {
        Reply::Edit(EditReply::Written(written)) => Some(written.id),
        _ => None,
    }
}
