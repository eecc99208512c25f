//! Why there are no new trees.
ghost use Rattle.std.specs.Prelude.{◌≡◌};
ghost use Rattle.gixobj_c_edit.specs.Failures.{failure_status, given_failure, keep_failure, lookup_failure};
ghost use Rattle.gixobj_c_edit.specs.Failures.{edit_failure, encode_failure};
ghost use Rattle.gixobj_store_keep.specs.Memory.{memory_objects};

use gixobj_c_codes::codes::{
    BAD_LINE, INVALID_NAME, IS_DIRECTORY, MALFORMED, MALFORMED_TREE, NOT_ENCODABLE, NOT_FOUND,
    OUT_OF_MEMORY,
};
use gixobj_editor::editor::Error;
use gixobj_encode::encode;
use gixobj_hash::decode;
use gixobj_hash::hash::ObjectId;
use gixobj_store::{Exists, find};
use gixobj_store_keep::find::existing_object;
use gixobj_store_keep::{KeepError, Memory};

/// Why there are no new trees.
#[derive(Clone, Copy)]
pub enum Failure {
    /// The stored trees are no frames, or the root is no id.
    Malformed,
    /// An allocation failed.
    OutOfMemory,
    /// A line of the script is neither empty nor a command.
    BadLine,
    /// A name of a path is empty or contains a `/`.
    InvalidName,
    /// The path of a leaf is that of a directory.
    IsDirectory,
    /// No stored tree has this id.
    NotFound(ObjectId),
    /// A tree does not decode, or is not well-formed.
    MalformedTree,
    /// A name has a zero byte.
    NotEncodable,
    /// The encoding of the tree with this id doesn't decode to it.
    LossyTree(ObjectId),
}

/// The status of a tree whose encoding doesn't decode to it.
const LOSSY_TREE: u32 = 17;

/// Returns the status of a failure.
pub fn failure_status(failure: Failure) -> u32
    ensures { result ≡ failure_status failure }
{
    match failure {
        Failure::Malformed => MALFORMED,
        Failure::OutOfMemory => OUT_OF_MEMORY,
        Failure::BadLine => BAD_LINE,
        Failure::InvalidName => INVALID_NAME,
        Failure::IsDirectory => IS_DIRECTORY,
        Failure::NotFound(_) => NOT_FOUND,
        Failure::MalformedTree => MALFORMED_TREE,
        Failure::NotEncodable => NOT_ENCODABLE,
        Failure::LossyTree(_) => LOSSY_TREE,
    }
}

/// Returns the failure, and that of a lossy tree if it is missing because it is lossy.
pub fn given_failure(lossy: &Memory, failure: Failure) -> Failure
    ensures { result ≡ given_failure (memory_objects lossy.now) failure }
{
    match failure {
        Failure::NotFound(id) if lossy.exists(id.as_oid()) => Failure::LossyTree(id),
        other => other,
    }
}

/// Returns the failure of a lookup of a tree.
pub fn lookup_failure(error: &existing_object::Error) -> Failure
    ensures { result ≡ lookup_failure error.now }
{
    match error {
        existing_object::Error::Find(find::Error::OutOfMemory) => Failure::OutOfMemory,
        existing_object::Error::Decode {
            source: decode::Error::OutOfMemory,
            ..
        } => Failure::OutOfMemory,
        existing_object::Error::NotFound { oid } => Failure::NotFound(*oid),
        _ => Failure::MalformedTree,
    }
}

/// Returns the failure of an edit.
pub fn edit_failure(error: &Error) -> Failure
    ensures { result ≡ edit_failure error.now }
{
    match error {
        Error::EmptyPathComponent | Error::SlashInPathComponent => Failure::InvalidName,
        Error::FindExistingObject(cause) => lookup_failure(cause),
        Error::CannotRemoveNonLeaf { .. } => Failure::IsDirectory,
        Error::MalformedTree => Failure::MalformedTree,
        Error::OutOfMemory => Failure::OutOfMemory,
    }
}

/// Returns the failure of an encoder's error.
pub fn encode_failure(error: &encode::Error) -> Failure
    ensures { result ≡ encode_failure error.now }
{
    match error {
        encode::Error::Writer(_) | encode::Error::OutOfMemory => Failure::OutOfMemory,
        _ => Failure::NotEncodable,
    }
}

/// Returns the failure of a store that didn't keep a tree.
pub fn keep_failure(error: &KeepError) -> Failure
    ensures { result ≡ keep_failure error.now }
{
    match error {
        KeepError::Store(_) => Failure::NotEncodable,
        KeepError::OutOfMemory => Failure::OutOfMemory,
    }
}
