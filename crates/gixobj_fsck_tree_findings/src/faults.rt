//! Findings about the entries of a tree, each message at most once.
ghost use Rattle.std.specs.Prelude.{◌≡◌, ◌⊎◌, ◌<◌, ◌↔◌, IfOk, IsTrue, OnErr, OnOk, length};
ghost use Rattle.gixobj_fsck_messages.specs.Options.{is_strict_by};
ghost use Rattle.gixobj_fsck_trees.specs.FirstOffsets.{FindsOffset};
ghost use Rattle.gixobj_fsck_trees.specs.RawEntries.{end_of, ending_of};
ghost use Rattle.gixobj_fsck_trees.specs.RawViews.{raw_entry_views};
ghost use Rattle.gixobj_fsck_tree_findings.specs.Findings.{AppendsFindings, ListsInOrder};
ghost use Rattle.gixobj_fsck_tree_findings.specs.TreeFindings.{IsFaultOffset, IsReportedFault};

use crate::report::report_found;
use gixobj_fsck_messages::{Finding, Message, Options};
use gixobj_fsck_trees::entries::{compared_entries, first_bad_mode, first_fault, first_step_down};
use gixobj_fsck_trees::name_twice::first_repeat;
use gixobj_fsck_trees::read_tree::ReadTree;
use std::alloc::{AllocError, Global};

/// Appends the findings with these messages.
pub(crate) fn report_faults(
    alloc: Global,
    findings: &mut Vec<Finding>,
    options: &Options,
    tree: &ReadTree,
    order: &[Message],
) -> Result<(), AllocError>
    requires { tree.now.end ≡ end_of (raw_entry_views tree.now.entries.items) }
    ensures found { OnOk result (AppendsFindings options.now
        (ListsInOrder (IsFaultOffset (is_strict_by options.now)
        (raw_entry_views tree.now.entries.items) (ending_of tree.now.is_broken)) order.now)
        findings.old.items findings.new.items) }
    ensures error { OnErr result (0 < length tree.now.entries.items
        ⊎ IsReportedFault options.now (raw_entry_views tree.now.entries.items)
        (ending_of tree.now.is_broken)) }
{
    for message in order {
        let found = fault_offset(alloc, tree, options.is_strict(), *message)?;
        report_found(findings, options, *message, found)?;
    }
    Ok(())
}

/// Returns the offset of what the message is about, or `None` if it isn't about this tree.
fn fault_offset(
    alloc: Global,
    tree: &ReadTree,
    strict: bool,
    message: Message,
) -> Result<Option<usize>, AllocError>
    requires { tree.now.end ≡ end_of (raw_entry_views tree.now.entries.items) }
    ensures found { IfOk result (FindsOffset (IsFaultOffset strict
        (raw_entry_views tree.now.entries.items) (ending_of tree.now.is_broken) message)) }
    ensures error { OnErr result (0 < length tree.now.entries.items) }
{
    let compared = compared_entries(&tree.entries, tree.is_broken);
    match message {
        Message::BadTree => Ok(tree.is_broken.then_some(tree.end)),
        Message::BadFilemode => Ok(first_bad_mode(strict, compared)),
        Message::DuplicateEntries => first_repeat(alloc, compared),
        Message::TreeNotSorted => Ok(first_step_down(compared)),
        _ => Ok(first_fault(message, &tree.entries)),
    }
}
