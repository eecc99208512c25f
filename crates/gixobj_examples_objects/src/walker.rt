//! A walker of commits, which needs parts of a commit without decoding all of it.
ghost use Rattle.std.specs.Prelude.{◌≡◌, IfErr, IfOk, IsTrue};
ghost use Rattle.std.specs.List.{AllZip};
ghost use Rattle.bstr.specs.BStr.{bstr_bytes};
ghost use Rattle.gix_object.specs.Commit.{CommitLines, DecodesToCommit, IsMalformedCommit};
ghost use Rattle.gix_object.specs.Hash.{DecodesToId};
ghost use Rattle.gix_object.specs.hash.decode.Error.TheVariants as decode;

use bstr::BStr;
use gix_object::decode::Error;
use gix_object::hash::{Kind, ObjectId};
use gix_object::laws::readers::{id_search_complete, message_search_complete};
use gix_object::{CommitRefIter, OutOfMemory};
use std::alloc::Global;

/// Returns the id of a commit's tree without decoding the rest. Allocates nothing.
///
/// # Errors
///
/// [`Error`] only if the bytes aren't the encoding of a commit. Such bytes may also have a result.
pub fn tree_of(alloc: Global, bytes: &[u8], kind: Kind) -> Result<ObjectId, Error>
    ensures tree { IfOk result (λ id. (commit : CommitLines) → DecodesToCommit kind bytes.now commit
        → DecodesToId commit.tree id) }
    ensures error { IfErr result (λ _. IsMalformedCommit kind bytes.now) }
{
    id_search_complete();
    CommitRefIter::from_bytes(alloc, bytes, kind).tree_id()
}

/// Returns the ids of a commit's parents, in order. Allocates the list.
///
/// For bytes that aren't the encoding of a commit, the result is unspecified.
///
/// # Errors
///
/// [`OutOfMemory`] if allocation fails.
pub fn parents_of(alloc: Global, bytes: &[u8], kind: Kind) -> Result<Vec<ObjectId>, OutOfMemory>
    ensures { IfOk result (λ ids. (commit : CommitLines) → DecodesToCommit kind bytes.now commit
        → AllZip DecodesToId commit.parents ids.items) }
{
    id_search_complete();
    let ids = CommitRefIter::from_bytes(alloc, bytes, kind)
        .parent_ids()
        .collect(alloc)?;
    Ok(ids)
}

/// Returns the message of a commit. Headers of several lines allocate their values.
///
/// # Errors
///
/// - [`Error::OutOfMemory`] if allocation fails.
/// - [`Error::Malformed`] only if the bytes aren't the encoding of a commit.
pub fn message_of<'a>(alloc: Global, bytes: &'a [u8], kind: Kind) -> Result<BStr<'a>, Error>
    ensures message { IfOk result (λ message. (commit : CommitLines)
        → DecodesToCommit kind bytes.now commit → bstr_bytes message ≡ commit.message) }
    ensures error { IfErr result (λ error. (commit : CommitLines)
        → DecodesToCommit kind bytes.now commit → error ≡ decode.OutOfMemory) }
{
    message_search_complete();
    CommitRefIter::from_bytes(alloc, bytes, kind).message()
}

/// Tests that a token reader yields nothing after an error: the result is always true.
pub fn ends_after_errors(alloc: Global, bytes: &[u8], kind: Kind) -> bool
    ensures { IsTrue result }
{
    let mut reader = CommitRefIter::from_bytes(alloc, bytes, kind);
    match reader.next() {
        Some(Err(_)) => reader.next().is_none(),
        _ => true,
    }
}
