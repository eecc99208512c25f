//! Laws of the findings about trees.
ghost use Rattle.gixobj_fsck_tree_findings.specs.Laws.{HaveDefaultMessages, HaveSetOfMessages, HaveTreeMessages};
ghost use Rattle.gixobj_fsck_tree_findings.specs.Laws.{HaveUniqueFindings};

use gixobj_fsck_messages::Options;
use gixobj_hash::hash::Kind;

/// The findings about the bytes of a tree are unique.
pub fn tree_findings_are_unique(bytes: &[u8], hash_kind: Kind, options: &Options)
    ensures { HaveUniqueFindings hash_kind options.now bytes.now }
{}

/// The findings have the messages that [`tree_messages`](gixobj_fsck_trees::tree_messages) has and the options report.
pub fn tree_findings_have_messages(bytes: &[u8], hash_kind: Kind, options: &Options)
    ensures { HaveSetOfMessages hash_kind options.now bytes.now }
{}

/// Without overrides the findings have the messages that [`tree_messages`](gixobj_fsck_trees::tree_messages) has.
pub fn tree_findings_have_default_messages(bytes: &[u8], hash_kind: Kind, options: &Options)
    ensures { HaveDefaultMessages hash_kind options.now bytes.now }
{}

/// The findings have messages about trees alone, and never `emptyName`.
pub fn tree_findings_are_about_trees(bytes: &[u8], hash_kind: Kind, options: &Options)
    ensures { HaveTreeMessages hash_kind options.now bytes.now }
{}
