//! The messages about commits.
ghost use Rattle.std.specs.Prelude.{◌↔◌, Contains, Err, IsTrue, MatchBool, MatchResult, Ok};
ghost use Rattle.gixobj_fsck.specs.Commits.{CommitPart, HasCommitMessage, IsAcceptedCommit, IsCleanCommit};
ghost use Rattle.gixobj_fsck.specs.Commits.{IsCommitMessage, MoreAuthors, NoMoreAuthors, ParentLines, PeoplePart};
ghost use Rattle.gixobj_hash.specs.ByteStrings.{IsByteFree};
ghost use Rattle.gixobj_fsck_messages.specs.Sets.{HasMessage};
ghost use Rattle.gixobj_fsck_messages.specs.declared.message.Message.{Message};

use crate::actors::{after_actor, after_line};
use crate::headers::check_header;
use crate::lines::{after_actor_line, after_id_line};
use gixobj_fsck_messages::{Message, Messages};
use gixobj_hash::hash::Kind;
use gixobj_parse::parse::{after_name, header_id};
use memchr::memchr;

/// Returns git's messages about a commit, of which there is at most one.
///
/// Ids are hex of the hash function `kind`. The messages are the same in a strict check. Allocates nothing.
pub fn commit_messages(kind: Kind, commit: &[u8]) -> Messages
    ensures { (it : Message) → HasMessage result it ↔ IsCommitMessage kind commit.now it }
{
    let mut messages = Messages::new();
    match after_committer(kind, commit) {
        Err(fault) => messages.insert(fault),
        Ok(_) => {
            if has_zero(commit) {
                messages.insert(Message::NulInCommit);
            }
        }
    }
    messages
}

/// Returns whether a commit is clean: git has no message about it, strict or not.
///
/// Ids are hex of the hash function `kind`. Allocates nothing.
pub fn is_clean_commit(kind: Kind, commit: &[u8]) -> bool
    ensures { MatchBool result (IsCleanCommit kind commit.now)
        (HasCommitMessage kind commit.now) }
{
    match after_committer(kind, commit) {
        Ok(_) => !has_zero(commit),
        Err(_) => false,
    }
}

/// Returns whether a byte is zero.
fn has_zero(content: &[u8]) -> bool
    ensures { MatchBool result (Contains content.now 0) (IsByteFree 0 content.now) }
{
    memchr(0, content).is_some()
}

/// Returns whether git accepts a commit: none of its messages counts as an error.
///
/// A strict check makes an error of a warning. Allocates nothing.
pub fn is_commit_accepted(kind: Kind, commit: &[u8], strict: bool) -> bool
    ensures { IsTrue result ↔ IsAcceptedCommit strict kind commit.now }
{
    !commit_messages(kind, commit).has_error(strict)
}

/// Returns the input after the committer's line, or the first fault.
fn after_committer(kind: Kind, commit: &[u8]) -> Result<&[u8], Message>
    ensures { MatchResult result (λ rest. CommitPart kind commit.now (Ok rest.now))
        (λ fault. CommitPart kind commit.now (Err fault)) }
{
    let tree = match check_header(commit) {
        Ok(tree) => tree,
        Err(fault) => return Err(fault),
    };
    let parents = match after_id_line(
        tree,
        b"tree",
        kind,
        Message::MissingTree,
        Message::BadTreeSha1,
    ) {
        Ok(parents) => parents,
        Err(fault) => return Err(fault),
    };
    after_people(kind, parents)
}

/// Returns the input after the lines of parents, the author and the committer, or the first fault.
fn after_people(kind: Kind, input: &[u8]) -> Result<&[u8], Message>
    ensures { MatchResult result (λ rest. PeoplePart kind input.now (Ok rest.now))
        (λ fault. PeoplePart kind input.now (Err fault)) }
{
    let authors = match after_parents(kind, input) {
        Ok(authors) => authors,
        Err(fault) => return Err(fault),
    };
    let more = match after_actor_line(authors, b"author", Message::MissingAuthor) {
        Ok(more) => more,
        Err(fault) => return Err(fault),
    };
    let committer = match after_last_author(more) {
        Ok(committer) => committer,
        Err(fault) => return Err(fault),
    };
    after_actor_line(committer, b"committer", Message::MissingCommitter)
}

/// Returns the input after the lines of parents.
fn after_parents(kind: Kind, input: &[u8]) -> Result<&[u8], Message>
    ensures { MatchResult result (λ rest. ParentLines kind input.now (Ok rest.now))
        (λ fault. ParentLines kind input.now (Err fault)) }
{
    let mut rest = input;
    while let Some((_, after)) = header_id(rest, b"parent", kind) {
        rest = after;
    }
    match after_name(rest, b"parent") {
        Some(_) => Err(Message::BadParentSha1),
        None => Ok(rest),
    }
}

/// Returns the input if no further author comes.
fn after_last_author(input: &[u8]) -> Result<&[u8], Message>
    ensures { MatchResult result (λ rest. NoMoreAuthors input.now (Ok rest.now))
        (λ fault. NoMoreAuthors input.now (Err fault)) }
{
    match after_name(input, b"author") {
        Some(_) => Err(fault_of_more_authors(input)),
        None => Ok(input),
    }
}

/// Returns the first fault of further authors, or else that there are several.
fn fault_of_more_authors(input: &[u8]) -> Message
    ensures { MoreAuthors input.now result }
{
    let mut rest = input;
    while let Some(actor) = after_name(rest, b"author") {
        if let Err(fault) = after_actor(actor) {
            return fault;
        }
        rest = after_line(actor);
    }
    Message::MultipleAuthors
}
