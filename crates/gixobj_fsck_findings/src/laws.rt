//! Laws of the findings about commits and tags.
ghost use Rattle.gixobj_fsck_findings.specs.CommitChecks.{HaveCommitMessages, HaveUniqueCommitFindings};
ghost use Rattle.gixobj_fsck_findings.specs.TagChecks.{HaveTagMessages, HaveUniqueTagFindings};
ghost use Rattle.gixobj_fsck_messages.specs.Options.{severity_by};

use gixobj_fsck_messages::Options;
use gixobj_hash::hash::Kind;

/// The findings about a commit are unique.
pub fn commit_findings_are_unique(kind: Kind, commit: &[u8], options: &Options)
    ensures { HaveUniqueCommitFindings (severity_by options.now) kind commit.now }
{}

/// In a check without overrides the findings about a commit have the messages of
/// [`commit_messages`](gixobj_fsck::commit_messages), as a set.
pub fn commit_findings_have_its_messages(kind: Kind, commit: &[u8], options: &Options, strict: bool)
    ensures { HaveCommitMessages strict (severity_by options.now) kind commit.now }
{}

/// The findings about a tag are unique.
pub fn tag_findings_are_unique(kind: Kind, tag: &[u8], options: &Options)
    ensures { HaveUniqueTagFindings (severity_by options.now) kind tag.now }
{}

/// In a check without overrides the findings about a tag have the messages of
/// [`tag_messages`](gixobj_fsck_tags::tag_messages), as a set.
pub fn tag_findings_have_its_messages(kind: Kind, tag: &[u8], options: &Options, strict: bool)
    ensures { HaveTagMessages strict (severity_by options.now) kind tag.now }
{}
