//! Findings about links.
ghost use Rattle.std.specs.Prelude.{◌≡◌, ◌↔◌, ◌<◌, ◌++◌, IsTrue, OnErr, OnOk, length, replicate};
ghost use Rattle.gixobj_fsck_trees.specs.FirstOffsets.{FindsOffset};
ghost use Rattle.gixobj_fsck_trees.specs.RawViews.{raw_entry_view, raw_entry_views};
ghost use Rattle.gixobj_fsck_tree_findings.specs.Findings.{AppendsFindings, ListsInOrder, finding_at, reported};
ghost use Rattle.gixobj_fsck_tree_findings.specs.TreeFindings.{AreEntryFindings, AreFindingsOfLinks, AreLinkFindings};
ghost use Rattle.gixobj_fsck_tree_findings.specs.TreeFindings.{HasFileName, IsLinkOffset};

use crate::report::{report, report_found};
use gixobj_fsck_messages::{Finding, Message, Options};
use gixobj_fsck_names::{
    count_git_modules_after_backslashes, is_git_attributes, is_git_ignore, is_git_modules_file,
    is_mailmap,
};
use gixobj_fsck_trees::entry_messages::is_link;
use gixobj_fsck_trees::raw_entry::RawEntry;
use std::alloc::AllocError;

/// Appends the findings about links.
pub(crate) fn report_links(
    findings: &mut Vec<Finding>,
    options: &Options,
    entries: &[RawEntry],
) -> Result<(), AllocError>
    ensures found { OnOk result (AppendsFindings options.now
        (AreFindingsOfLinks (raw_entry_views entries.now)) findings.old.items findings.new.items) }
    ensures error { OnErr result (0 < length entries.now) }
{
    for entry in entries {
        report_entry(findings, options, entry)?;
    }
    Ok(())
}

/// Appends the findings about an entry if it is a link.
fn report_entry(
    findings: &mut Vec<Finding>,
    options: &Options,
    entry: &RawEntry,
) -> Result<(), AllocError>
    ensures { OnOk result (AppendsFindings options.now
        (AreEntryFindings (raw_entry_view entry.now)) findings.old.items findings.new.items) }
{
    if is_link(entry) {
        report_link(findings, options, entry)?;
    }
    Ok(())
}

/// Appends the findings about a link.
fn report_link(
    findings: &mut Vec<Finding>,
    options: &Options,
    entry: &RawEntry,
) -> Result<(), AllocError>
    ensures { OnOk result (AppendsFindings options.now
        (AreLinkFindings (raw_entry_view entry.now)) findings.old.items findings.new.items) }
{
    let order = [
        Message::GitmodulesSymlink,
        Message::GitattributesSymlink,
        Message::GitignoreSymlink,
        Message::MailmapSymlink,
    ];
    report_names(findings, options, entry, &order)?;
    let count = count_git_modules_after_backslashes(entry.name);
    report_backslashes(findings, options, count, entry.offset)
}

/// Appends the findings about the name of a link with these messages.
fn report_names(
    findings: &mut Vec<Finding>,
    options: &Options,
    entry: &RawEntry,
    order: &[Message],
) -> Result<(), AllocError>
    ensures { OnOk result (AppendsFindings options.now
        (ListsInOrder (IsLinkOffset (raw_entry_view entry.now)) order.now)
        findings.old.items findings.new.items) }
{
    for message in order {
        report_found(findings, options, *message, link_offset(*message, entry))?;
    }
    Ok(())
}

/// Appends the finding about backslashes this number of times.
fn report_backslashes(
    findings: &mut Vec<Finding>,
    options: &Options,
    count: usize,
    offset: usize,
) -> Result<(), AllocError>
    ensures { OnOk result (findings.new.items ≡ findings.old.items
        ++ reported options.now (replicate count (finding_at Message.GitmodulesSymlink offset))) }
{
    for _index in 0..count {
        report(findings, options, Message::GitmodulesSymlink, offset)?;
    }
    Ok(())
}

/// Returns the offset of a link if its name is that of the message's file.
fn link_offset(message: Message, entry: &RawEntry) -> Option<usize>
    ensures { FindsOffset (IsLinkOffset (raw_entry_view entry.now) message) result }
{
    if has_file_name(message, entry.name) {
        return Some(entry.offset);
    }
    None
}

/// Returns whether the name is that of the message's file, backslashes aside.
fn has_file_name(message: Message, name: &[u8]) -> bool
    ensures { IsTrue result ↔ HasFileName name.now message }
{
    match message {
        Message::GitmodulesSymlink => is_git_modules_file(name),
        Message::GitattributesSymlink => is_git_attributes(name),
        Message::GitignoreSymlink => is_git_ignore(name),
        Message::MailmapSymlink => is_mailmap(name),
        _ => false,
    }
}
