//! Laws of git's messages about commits and tags. The contract of each function is the law.
ghost use Rattle.std.specs.Prelude.{List, ℕ};
ghost use Rattle.gixobj_fsck_messages.specs.Options.{severity_by};
ghost use Rattle.gixobj_fsck_object_laws.specs.CleanCommits.{DecodesIfPlain, HasPeopleIfClean, IsCleanIfNotFound};
ghost use Rattle.gixobj_fsck_object_laws.specs.CleanTags.{DecodesIfClean, DecodesIfNotFound};
ghost use Rattle.gixobj_fsck_object_laws.specs.DecodedTags.{HasLimitedMessages};
ghost use Rattle.gixobj_fsck_object_laws.specs.Reported.{HaveMessagesOfCommits, HaveMessagesOfTags};
ghost use Rattle.gixobj_fsck_object_laws.specs.Unreported.{HaveNoUnreported};
ghost use Rattle.gixobj_hash.specs.declared.hash.kind.Kind.{Kind as KindType};

use gixobj_fsck::is_clean_commit;
use gixobj_fsck_messages::Options;
use gixobj_fsck_tags::is_clean_tag;
use gixobj_fsck_tree_findings::laws::tree_findings_are_about_trees;
use gixobj_hash::Kind as ObjectKind;
use gixobj_hash::hash::Kind;

/// A tag decodes if git has no message about it, not even `extraHeaderEntry`.
pub fn clean_tag_decodes()
    ensures { (kind : KindType) (tag : List ℕ) → DecodesIfClean kind tag }
{}

/// In a check without overrides a tag without findings decodes, if it has no extra header.
///
/// Git doesn't report an extra header, and with one the tag doesn't decode.
pub fn tag_without_findings_decodes(kind: Kind, tag: &[u8], options: &Options, strict: bool)
    ensures { DecodesIfNotFound strict (severity_by options.now) kind tag.now }
{
    let _ = is_clean_tag(kind, tag);
}

/// A commit about which git has no message has the lines of a tree, of parents, of an author and of a committer.
pub fn clean_commit_has_people()
    ensures { (kind : KindType) (commit : List ℕ) → HasPeopleIfClean kind commit }
{}

/// A commit about which git has no message decodes if and only if its times are plain, and headers, an empty line and
/// a message follow the committer.
///
/// A time is plain without a vertical tab, a form feed and a carriage return.
pub fn clean_commit_decodes_if_plain()
    ensures { (kind : KindType) (commit : List ℕ) → DecodesIfPlain kind commit }
{}

/// In a check without overrides git has no message about a commit without findings.
pub fn commit_without_findings_is_clean(kind: Kind, commit: &[u8], options: &Options, strict: bool)
    ensures { IsCleanIfNotFound strict (severity_by options.now) kind commit.now }
{
    let _ = is_clean_commit(kind, commit);
}

/// The findings about a commit have messages about commits alone, whatever the options.
pub fn commit_findings_are_about_commits(kind: Kind, commit: &[u8], options: &Options)
    ensures { HaveMessagesOfCommits (severity_by options.now) kind commit.now }
{}

/// The findings about a tag have messages about tags alone, whatever the options: never `missingType`, `missingTag`
/// or `unknownType`.
pub fn tag_findings_are_about_tags(kind: Kind, tag: &[u8], options: &Options)
    ensures { HaveMessagesOfTags (severity_by options.now) kind tag.now }
{}

/// No finding about an object is `emptyName`, `missingType`, `missingTag` or `unknownType`, whatever the options.
pub fn findings_have_no_unreported(
    kind: ObjectKind,
    hash_kind: Kind,
    content: &[u8],
    options: &Options,
)
    ensures { HaveNoUnreported options.now kind hash_kind content.now }
{
    tree_findings_are_about_trees(content, hash_kind, options);
}

/// Git's messages about a tag that decodes are `nulInHeader`, `badTagName`, `missingTaggerEntry` and those about the
/// tagger, except `missingEmail`. The tag has no extra header.
pub fn decoded_tag_has_limited_messages()
    ensures { (kind : KindType) (tag : List ℕ) → HasLimitedMessages kind tag }
{}
