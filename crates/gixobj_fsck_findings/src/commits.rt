//! The findings about commits.
ghost use Rattle.std.specs.Prelude.{◌≡◌, IfOk, None, OnErr, codes};
ghost use Rattle.gixobj_fsck.specs.Commits.{HasCommitMessage};
ghost use Rattle.gixobj_fsck_findings.specs.Checks.{AndThen, rest_of};
ghost use Rattle.gixobj_fsck_findings.specs.CommitChecks.{AreCommitFindings, AuthorLines, AuthorsCheck, CommitCheck};
ghost use Rattle.gixobj_fsck_findings.specs.CommitChecks.{CommitterCheck, FollowsParents, MoreAuthorsCheck};
ghost use Rattle.gixobj_fsck_findings.specs.CommitChecks.{ParentsCheck, PeopleCheck, ZeroCheck};
ghost use Rattle.gixobj_fsck_messages.specs.Options.{severity_by};
ghost use Rattle.gixobj_parse.specs.HeaderReading.{BeginsWithNoIdField};

use crate::lines::{IdLineRule, check_actor, check_header, check_id_line};
use crate::list::{list, offset_of, rest_after};
use gixobj_fsck::is_clean_commit;
use gixobj_fsck_messages::{Finding, Message, Options};
use gixobj_hash::hash::Kind;
use gixobj_hash::split::split_at_byte;
use gixobj_parse::parse::{after_name, header_id};
use std::alloc::{AllocError, Global};

/// Returns git's messages about a commit in the order of git's reports, each at its offset.
///
/// Ids are hex of the hash function `kind`. A message that counts as an error by the options ends the check, and so do
/// `missingTree` and `missingCommitter` always. Messages that the options ignore aren't listed. The offset is that of
/// the message's line, or of where a missing line was expected. That of `nulInHeader` and `nulInCommit` is the first
/// zero byte, that of `unterminatedHeader` the end. The list allocates, and nothing else.
///
/// # Errors
///
/// [`AllocError`] if an allocation failed, only for a commit about which git has a message.
pub fn fsck_commit(
    alloc: Global,
    kind: Kind,
    commit: &[u8],
    options: &Options,
) -> Result<Vec<Finding>, AllocError>
    ensures found { IfOk result (λ findings.
        AreCommitFindings (severity_by options.now) kind commit.now findings.items) }
    ensures error { OnErr result (HasCommitMessage kind commit.now) }
{
    let mut findings = Vec::new(alloc);
    if is_clean_commit(kind, commit) {
        return Ok(findings);
    }
    check_commit(&mut findings, options, kind, commit)?;
    Ok(findings)
}

/// Checks a commit.
fn check_commit(
    findings: &mut Vec<Finding>,
    options: &Options,
    kind: Kind,
    commit: &[u8],
) -> Result<(), AllocError>
    ensures { IfOk result (λ _. CommitCheck (severity_by options.now) kind commit.now commit.now
        findings.old.items findings.new.items None) }
{
    let Some(start) = check_header(findings, options, commit)? else {
        return Ok(());
    };
    let tree = IdLineRule {
        kind,
        missing: Message::MissingTree,
        bad: Message::BadTreeSha1,
    };
    let Some(parents) = check_id_line(findings, options, commit, start, b"tree", tree)? else {
        return Ok(());
    };
    let Some(authors) = check_parents(findings, options, commit, kind, parents)? else {
        return Ok(());
    };
    check_people(findings, options, commit, authors)
}

/// Checks the authors, the committer, and that there is no zero byte.
fn check_people(
    findings: &mut Vec<Finding>,
    options: &Options,
    commit: &[u8],
    input: &[u8],
) -> Result<(), AllocError>
    ensures { IfOk result (λ _. PeopleCheck (severity_by options.now) commit.now input.now
        findings.old.items findings.new.items None) }
{
    let Some(committer) = check_authors(findings, options, commit, input)? else {
        return Ok(());
    };
    let Some(_) = check_committer(findings, options, commit, committer)? else {
        return Ok(());
    };
    check_zero(findings, options, commit)
}

/// Checks the lines of parents. Returns the input after them if the check goes on.
fn check_parents<'a>(
    findings: &mut Vec<Finding>,
    options: &Options,
    commit: &[u8],
    kind: Kind,
    input: &'a [u8],
) -> Result<Option<&'a [u8]>, AllocError>
    ensures { IfOk result (λ rest. ParentsCheck (severity_by options.now) kind commit.now input.now
        findings.old.items findings.new.items (rest_of rest)) }
{
    let line = after_parents(kind, input);
    if after_name(line, b"parent").is_none() {
        return Ok(Some(line));
    }
    list(
        findings,
        options,
        Message::BadParentSha1,
        offset_of(commit, line),
    )?;
    Ok(None)
}

/// Returns the input after the lines of parents that have an id.
fn after_parents(kind: Kind, input: &[u8]) -> &[u8]
    ensures lines { FollowsParents kind input.now result.now }
    ensures last { BeginsWithNoIdField (codes "parent") kind result.now }
{
    let mut rest = input;
    while let Some((_, after)) = header_id(rest, b"parent", kind) {
        rest = after;
    }
    rest
}

/// Checks that an author comes, and no more than one. Returns the input after the authors if the check goes on.
fn check_authors<'a>(
    findings: &mut Vec<Finding>,
    options: &Options,
    commit: &[u8],
    input: &'a [u8],
) -> Result<Option<&'a [u8]>, AllocError>
    ensures { IfOk result (λ rest. AuthorsCheck (severity_by options.now) commit.now input.now
        findings.old.items findings.new.items (rest_of rest)) }
{
    let Some(author) = after_name(input, b"author") else {
        list(
            findings,
            options,
            Message::MissingAuthor,
            offset_of(commit, input),
        )?;
        return Ok(rest_after(options, Message::MissingAuthor, input));
    };
    let Some(more) = check_actor(findings, options, commit, input, author)? else {
        return Ok(None);
    };
    check_more_authors(findings, options, commit, more)
}

/// Checks that no further author comes. Returns the input after the authors if the check goes on.
fn check_more_authors<'a>(
    findings: &mut Vec<Finding>,
    options: &Options,
    commit: &[u8],
    input: &'a [u8],
) -> Result<Option<&'a [u8]>, AllocError>
    ensures { IfOk result (λ rest. MoreAuthorsCheck (severity_by options.now) commit.now input.now
        findings.old.items findings.new.items (rest_of rest)) }
{
    if after_name(input, b"author").is_none() {
        return Ok(Some(input));
    }
    let Some(rest) = check_author_lines(findings, options, commit, input)? else {
        return Ok(None);
    };
    list(
        findings,
        options,
        Message::MultipleAuthors,
        offset_of(commit, input),
    )?;
    Ok(rest_after(options, Message::MultipleAuthors, rest))
}

/// Checks the lines of authors. Returns the input after them if the check goes on.
fn check_author_lines<'a>(
    findings: &mut Vec<Finding>,
    options: &Options,
    commit: &[u8],
    input: &'a [u8],
) -> Result<Option<&'a [u8]>, AllocError>
    ensures { IfOk result (λ rest. AuthorLines (severity_by options.now) commit.now input.now
        findings.old.items findings.new.items (rest_of rest)) }
{
    let mut rest = input;
    while let Some(actor) = after_name(rest, b"author") {
        let Some(after) = check_actor(findings, options, commit, rest, actor)? else {
            return Ok(None);
        };
        rest = after;
    }
    Ok(Some(rest))
}

/// Checks the committer's line. Returns the input after it if the check goes on.
fn check_committer<'a>(
    findings: &mut Vec<Finding>,
    options: &Options,
    commit: &[u8],
    input: &'a [u8],
) -> Result<Option<&'a [u8]>, AllocError>
    ensures { IfOk result (λ rest. CommitterCheck (severity_by options.now) commit.now input.now
        findings.old.items findings.new.items (rest_of rest)) }
{
    match after_name(input, b"committer") {
        Some(committer) => check_actor(findings, options, commit, input, committer),
        None => {
            list(
                findings,
                options,
                Message::MissingCommitter,
                offset_of(commit, input),
            )?;
            Ok(None)
        }
    }
}

/// Lists the first zero byte, if any.
fn check_zero(
    findings: &mut Vec<Finding>,
    options: &Options,
    commit: &[u8],
) -> Result<(), AllocError>
    ensures { IfOk result (λ _. ZeroCheck (severity_by options.now) commit.now commit.now
        findings.old.items findings.new.items None) }
{
    match split_at_byte(commit, 0) {
        Some((before, _)) => list(findings, options, Message::NulInCommit, before.len()),
        None => Ok(()),
    }
}
