//! The findings about a tree.
ghost use Rattle.std.specs.Prelude.{IfOk, OnErr};
ghost use Rattle.gixobj_fsck_tree_findings.specs.TreeFindings.{AllocatesFindings, AreTreeFindings};

use crate::faults::report_faults;
use crate::links::report_links;
use gixobj_fsck_messages::{Finding, Message, Options};
use gixobj_fsck_trees::read_tree::read_tree;
use gixobj_hash::hash::Kind;
use std::alloc::{AllocError, Global};

/// Returns the findings of `git fsck` about the bytes of a tree whose entries have ids of this kind, in git's order.
///
/// A message about a link comes once for each such link, and `gitmodulesSymlink` once more for each backslash in its
/// name before what NTFS takes for `.gitmodules`. Each other message comes at most once. Messages that the options
/// ignore are left out.
///
/// The offset of a message about a link is that of its entry. For the others it is, in bytes:
///
/// - `badTree`: where reading ends, 0 if no entry is read.
/// - `duplicateEntries`: of the first entry that has the name of an entry before it.
/// - `treeNotSorted`: of the second of the first two neighbours that aren't in order.
/// - each other: of the first entry that has the fault.
///
/// The entries, the set of their names and the findings allocate.
///
/// # Errors
///
/// [`AllocError`] if an allocation failed, only for bytes that begin with an entry, or of which `badTree` is reported.
pub fn fsck_tree(
    alloc: Global,
    bytes: &[u8],
    hash_kind: Kind,
    options: &Options,
) -> Result<Vec<Finding>, AllocError>
    ensures found { IfOk result (λ it. AreTreeFindings hash_kind options.now bytes.now it.items) }
    ensures error { OnErr result (AllocatesFindings hash_kind options.now bytes.now) }
{
    let order = [
        Message::BadTree,
        Message::NullSha1,
        Message::FullPathname,
        Message::HasDot,
        Message::HasDotdot,
        Message::HasDotgit,
        Message::ZeroPaddedFilemode,
        Message::BadFilemode,
        Message::DuplicateEntries,
        Message::TreeNotSorted,
    ];
    let tree = read_tree(alloc, bytes, hash_kind)?;
    let mut findings = Vec::new(alloc);
    report_links(&mut findings, options, &tree.entries)?;
    report_faults(alloc, &mut findings, options, &tree, &order)?;
    Ok(findings)
}
