//! A reader of history, who walks from a commit to its ancestors and looks up files in their trees.
ghost use Rattle.std.specs.Prelude.{◌≡◌, IfErr, IfOk, Some, map};
ghost use Rattle.bstr.specs.Owned.{bstring_bytes};
ghost use Rattle.gix_object.specs.Lookups.{IsAtPath};
ghost use Rattle.gix_object.specs.Stores.{StoredObject};
ghost use Rattle.gixobj_examples_edits.specs.Ancestors.{HasTree, IsAncestor, IsFirstParent, IsEntryOfCommitError};
ghost use Rattle.gixobj_examples_edits.specs.Ancestors.{IsParentError, IsWalkError};
ghost use Rattle.gixobj_examples_edits.specs.HistoryLengths.{IsHistoryLen, IsLenOfLog, len_to_root};

use bstr::BString;
use gix_object::find::{existing_iter, existing_object};
use gix_object::hash::ObjectId;
use gix_object::tree::Entry;
use gix_object::{Find, FindExt, OutOfMemory, find};
use gixobj_listings::history::{CommitLog, LogEnd, LoggedCommit, log};
use gixobj_listings::laws::log_is_unique;
use std::alloc::Global;

/// The error of [`ancestor`] and of [`entry_of`].
#[derive(Debug, Drop, thiserror::Error)]
pub enum Error {
    /// A commit isn't found, for this cause.
    #[error("{0}")]
    Commit(existing_object::Error),
    /// The tree of a commit isn't found, for this cause.
    #[error("{0}")]
    Tree(existing_iter::Error),
    /// A lookup on the path failed.
    #[error("{0}")]
    Path(find::Error),
    /// The commit with this id has no parent.
    #[error("{0} has no parent")]
    NoParent(ObjectId),
}

impl From<existing_object::Error> for Error {
    ghost use Rattle.std.specs.Prelude.{◌≡◌};
    ghost use Rattle.gixobj_examples_edits.specs.declared.history.Error.TheVariants as history;

    ghost from_gives = { λ cause error. error ≡ history.Commit cause };

    fn from(error: existing_object::Error) -> Error {
        Error::Commit(error)
    }
}

impl From<existing_iter::Error> for Error {
    ghost use Rattle.std.specs.Prelude.{◌≡◌};
    ghost use Rattle.gixobj_examples_edits.specs.declared.history.Error.TheVariants as history;

    ghost from_gives = { λ cause error. error ≡ history.Tree cause };

    fn from(error: existing_iter::Error) -> Error {
        Error::Tree(error)
    }
}

impl From<find::Error> for Error {
    ghost use Rattle.std.specs.Prelude.{◌≡◌};
    ghost use Rattle.gixobj_examples_edits.specs.declared.history.Error.TheVariants as history;

    ghost from_gives = { λ cause error. error ≡ history.Path cause };

    fn from(error: find::Error) -> Error {
        Error::Path(error)
    }
}

/// Returns the id of an ancestor: `generations` steps from the start, each to a first parent (git-rev-parse,
/// `<rev>~<n>`).
///
/// The start itself is looked up only if there is a step. Allocates a buffer, and what each commit allocates.
///
/// # Errors
///
/// - [`Error::Commit`] with the lookup's error, if a commit on the way isn't found or doesn't decode;
/// - [`Error::NoParent`] with the id of a commit on the way that has no parent.
#[tactic(auto, using(crate::proofs::Commits::is_ancestor_succ))]
pub fn ancestor<S: Find>(
    alloc: Global,
    store: &S,
    start: ObjectId,
    generations: u32,
) -> Result<ObjectId, Error>
    ensures found { IfOk result (IsAncestor (S.objects store.now) generations start) }
    ensures error { IfErr result (IsWalkError (S.objects store.now) (S.may_fail store.now)
        generations start) }
{
    let mut buffer = Vec::new(alloc);
    let mut id = start;
    for _ in 0..generations {
        id = first_parent(alloc, store, &mut buffer, id)?;
    }
    Ok(id)
}

/// Returns the id of the first parent of a commit.
fn first_parent<S: Find>(
    alloc: Global,
    store: &S,
    buffer: &mut Vec<u8>,
    id: ObjectId,
) -> Result<ObjectId, Error>
    ensures found { IfOk result (IsFirstParent (S.objects store.now) id) }
    ensures error { IfErr result (IsParentError (S.objects store.now) (S.may_fail store.now) id) }
{
    let commit = store.find_commit(alloc, id.as_oid(), buffer)?;
    match commit.parents().next() {
        Some(parent) => Ok(parent),
        None => Err(Error::NoParent(id)),
    }
}

/// Returns the number of commits from a tip to a root commit by first parents (git-rev-list, `--count`), or `None` if
/// the log ends before one: at a commit that isn't read, or with `max_commits` commits.
///
/// If no lookup fails, each log of the tip with at most `max_commits` commits has this number. Allocates what [`log`]
/// allocates.
///
/// # Errors
///
/// [`OutOfMemory`] if an allocation fails.
pub fn history_len<S: Find>(
    alloc: Global,
    store: &S,
    tip: ObjectId,
    max_commits: u32,
) -> Result<Option<usize>, OutOfMemory>
    ensures found { IfOk result (IsLenOfLog (S.objects store.now) (S.may_fail store.now)
        max_commits tip) }
    ensures unique { IfOk result (IsHistoryLen (S.objects store.now) (S.may_fail store.now)
        max_commits tip) }
{
    log_is_unique();
    let CommitLog { commits, end } = log(alloc, store, tip, max_commits)?;
    Ok(log_len(&commits, end))
}

/// Returns the number of commits of a log that ends at a root commit, or `None` for another log.
fn log_len(commits: &[LoggedCommit], end: LogEnd) -> Option<usize>
    ensures { result ≡ len_to_root commits.now end }
{
    match end {
        LogEnd::Root => Some(commits.len()),
        LogEnd::Unread { .. } => None,
        LogEnd::TooLong { .. } => None,
    }
}

/// Returns the entry at a path in the tree of a commit, or `None` if there is none (git-rev-parse,
/// `<rev>:<path>`).
///
/// Allocates two buffers, the commit and a copy of the entry's name.
///
/// # Errors
///
/// - [`Error::Commit`] with the lookup's error, if the commit isn't found or doesn't decode;
/// - [`Error::Tree`] with the lookup's error, if its tree isn't found;
/// - [`Error::Path`] with the lookup's error, if a lookup on the path fails.
pub fn entry_of<S: Find>(
    alloc: Global,
    store: &S,
    commit: ObjectId,
    path: &[BString],
) -> Result<Option<Entry>, Error>
    ensures found { IfOk result (λ found. (tree : StoredObject)
        × HasTree (S.objects store.now) commit tree
        × IsAtPath (S.objects store.now) (Some tree) (map bstring_bytes path.now) found) }
    ensures error { IfErr result (IsEntryOfCommitError (S.objects store.now)
        (S.may_fail store.now) commit (map bstring_bytes path.now)) }
{
    let mut buffer = Vec::new(alloc);
    let tree = store
        .find_commit(alloc, commit.as_oid(), &mut buffer)?
        .tree();
    let mut bytes = Vec::new(alloc);
    let reader = store.find_tree_iter(tree.as_oid(), &mut bytes)?;
    Ok(reader.lookup_entry(alloc, store, &mut buffer, path)?)
}
