//! Replies to the commands of a run.
use crate::editor::{Error, WriteError, Written};
use gixobj_store_keep::KeepError;

/// The reply to an [`Edit`](crate::Edit): to an edit, or to a write.
#[derive(Debug, Drop)]
pub enum EditReply<E> {
    /// The edit is done.
    Done,
    /// The edit failed with this error. The editor's files are unchanged.
    Refused(Error),
    /// The result of a write. The store has kept all emitted trees.
    Written(Written),
    /// The write failed with this error. The editor is unchanged.
    WriteRefused(WriteError<E>),
    /// The result of a write, the number of emitted trees that the store has kept, in order, and the error
    /// that [`Keep::keep`](gixobj_store_keep::Keep::keep) returned for the next one.
    NotKept(Written, usize, KeepError),
}

/// The reply to a [`Command`](crate::Command).
#[derive(Debug, Drop)]
pub enum Reply<E> {
    /// The reply to an edit at a path from the root, or to a write of the root.
    Edit(EditReply<E>),
    /// The replies to the edits in a directory, one each.
    At(Vec<EditReply<E>>),
    /// The directory isn't opened, or allocation of the replies failed: no edit in it was done.
    AtRefused(Error),
    /// The editor has the new root.
    RootSet,
    /// The new root isn't well-formed. The editor is unchanged.
    RootRefused,
}
