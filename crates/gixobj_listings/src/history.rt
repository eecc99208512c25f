//! The log of a commit: its ancestors by first parents (git-log, `--first-parent`).
ghost use Rattle.std.specs.Prelude.{◌≡◌, ◌≤◌, IfErr, IfOk, OnErr, length};
ghost use Rattle.gix_object.specs.Actor.{NamesActor};
ghost use Rattle.gix_object.specs.CommitViews.{commit_lines};
ghost use Rattle.gix_object.specs.Titles.{summary_of};
ghost use Rattle.gixobj_listings.specs.Histories.{IsAllocationFailure, IsLog, NamesAuthor};
ghost use Rattle.gixobj_listings.specs.declared.history.LogEnd.TheVariants as end;

use bstr::BString;
use gix_object::find::existing_object;
use gix_object::hash::ObjectId;
use gix_object::{CommitRef, Find, FindExt, OutOfMemory, decode, find};
use std::alloc::Global;
use std::marker::Model;

/// A commit of a [`CommitLog`].
#[derive(Debug, Drop)]
pub struct LoggedCommit {
    /// The id of the commit.
    pub id: ObjectId,
    /// The first lines of its message on one line (git-log, "PRETTY FORMATS", `%s`).
    pub title: BString,
    /// The name of its author, without white space at the ends.
    pub author: BString,
    /// The email of its author, without white space at the ends.
    pub email: BString,
}

impl Model for LoggedCommit {
    ghost use Rattle.bstr.specs.Owned.{bstring_bytes};
    ghost use Rattle.gixobj_listings.specs.Histories.{LoggedView};

    ghost Value = { LoggedView };

    ghost view = { λ commit. record {
      id = commit.id;
      title = bstring_bytes commit.title;
      author = bstring_bytes commit.author;
      email = bstring_bytes commit.email;
    } };
}

/// A commit and its ancestors by first parents. [`log`] lists them.
#[derive(Debug, Drop)]
pub struct CommitLog {
    /// The commits, each the first parent of the one before it.
    pub commits: Vec<LoggedCommit>,
    /// Why no other commit follows.
    pub end: LogEnd,
}

/// Why a [`CommitLog`] ends.
#[derive(Debug, Drop)]
pub enum LogEnd {
    /// The last commit has no parent.
    Root,
    /// The next commit isn't read.
    Unread {
        /// The id of the commit.
        id: ObjectId,
        /// Why it isn't read; never because an allocation failed.
        cause: existing_object::Error,
    },
    /// The log has as many commits as it may have. The next one isn't looked up.
    TooLong {
        /// The id of the next commit.
        id: ObjectId,
    },
}

/// Lists a commit and its ancestors by first parents (git-log, `--first-parent`).
///
/// The log ends at a root commit, or before the first commit that isn't found or doesn't decode. It has at most
/// `max_commits` commits: the call ends on every store, also if a commit is an ancestor of itself.
///
/// Allocates a buffer, what each commit allocates, and copies of its title and its author.
///
/// # Errors
///
/// [`OutOfMemory`] if an allocation fails.
pub fn log<S: Find>(
    alloc: Global,
    store: &S,
    tip: ObjectId,
    max_commits: u32,
) -> Result<CommitLog, OutOfMemory>
    ensures listed { IfOk result (λ log. IsLog (S.objects store.now) (S.may_fail store.now)
        max_commits tip log.commits.items log.end) }
    ensures bounded { IfOk result (λ log. length log.commits.items ≤ max_commits) }
{
    let mut buffer = Vec::new(alloc);
    let mut commits = Vec::new(alloc);
    let mut id = tip;
    for _ in 0..max_commits {
        let commit = match store.find_commit(alloc, id.as_oid(), &mut buffer) {
            Ok(commit) => commit,
            Err(cause) => return log_before(commits, id, cause),
        };
        commits.push(logged(alloc, id, &commit)?)?;
        match commit.parents().next() {
            Some(parent) => id = parent,
            None => {
                let end = LogEnd::Root;
                return Ok(CommitLog { commits, end });
            }
        }
    }
    let end = LogEnd::TooLong { id };
    Ok(CommitLog { commits, end })
}

/// Returns the log that ends before a commit that isn't read, unless an allocation failed.
fn log_before(
    commits: Vec<LoggedCommit>,
    id: ObjectId,
    cause: existing_object::Error,
) -> Result<CommitLog, OutOfMemory>
    ensures ended { IfOk result (λ log. (log.commits.items ≡ commits.items)
        × (log.end ≡ end.Unread id cause) × (¬ IsAllocationFailure cause)) }
    ensures error { OnErr result (IsAllocationFailure cause) }
{
    match &cause {
        existing_object::Error::Find(find::Error::OutOfMemory) => Err(OutOfMemory),
        existing_object::Error::Decode {
            source: decode::Error::OutOfMemory,
            ..
        } => Err(OutOfMemory),
        _ => {
            let end = LogEnd::Unread { id, cause };
            Ok(CommitLog { commits, end })
        }
    }
}

/// Copies the parts of a commit that a log has. The `author` line must be an actor.
fn logged(alloc: Global, id: ObjectId, commit: &CommitRef<'_>) -> Result<LoggedCommit, OutOfMemory>
    requires { NamesActor (commit_lines commit.now).author }
    ensures id { IfOk result (λ logged. logged.id ≡ id) }
    ensures title { IfOk result (λ logged. logged.title
        ≡ summary_of (commit_lines commit.now).message) }
    ensures author { IfOk result (λ logged.
        NamesAuthor (commit_lines commit.now).author logged.author logged.email) }
{
    let author = match commit.author() {
        Ok(author) => author,
        Err(_) => unreachable!(),
    };
    let title = commit.message_summary(alloc)?;
    Ok(LoggedCommit {
        id,
        title: BString::from_slice(alloc, title.as_slice())?,
        author: BString::from_slice(alloc, author.name.as_bytes())?,
        email: BString::from_slice(alloc, author.email.as_bytes())?,
    })
}
