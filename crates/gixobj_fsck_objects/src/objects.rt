//! The verdict about an object.
ghost use Rattle.std.specs.Prelude.{◌↔◌, IfOk, IsTrue, OnErr, true};
ghost use Rattle.gixobj_fsck_objects.specs.Objects.{AreFindings, IsAcceptedObject, IsAcceptedTree, IsReceivedObject};
ghost use Rattle.gixobj_fsck_objects.specs.Objects.{MayAllocate, MayAllocateFindings};
ghost use Rattle.gixobj_fsck.specs.Commits.{IsAcceptedCommit};
ghost use Rattle.gixobj_fsck_findings.specs.Parser.{IsParsedCommit, IsParsedTag};
ghost use Rattle.gixobj_fsck_tags.specs.Tags.{IsAcceptedTag};
ghost use Rattle.gixobj_fsck_trees.specs.RawEntries.{BeginsWithSomeRawEntry};

use gixobj_fsck::is_commit_accepted;
use gixobj_fsck_findings::{fsck_commit, fsck_tag, is_parsed_commit, is_parsed_tag};
use gixobj_fsck_messages::{Finding, Options};
use gixobj_fsck_tags::is_tag_accepted;
use gixobj_fsck_tree_findings::fsck_tree;
use gixobj_fsck_trees::tree_messages;
use gixobj_hash::Kind as ObjectKind;
use gixobj_hash::hash::Kind;
use std::alloc::{AllocError, Global};

/// Returns git's findings about an object, in git's order. There are none about a blob.
///
/// The findings are those of `git fsck`, or with strict options of `git fsck --strict`. The list allocates; of a tree
/// also its entries, and the set of their names.
///
/// # Errors
///
/// [`AllocError`] if an allocation failed, only for:
///
/// - a tree that begins with an entry, or of which `badTree` is reported,
/// - a commit about which git has a message,
/// - a tag about which git has a message, or with an extra header.
pub fn fsck(
    alloc: Global,
    kind: ObjectKind,
    hash_kind: Kind,
    content: &[u8],
    options: &Options,
) -> Result<Vec<Finding>, AllocError>
    ensures found { IfOk result (λ it. AreFindings options.now kind hash_kind content.now it.items) }
    ensures error { OnErr result (MayAllocateFindings options.now kind hash_kind content.now) }
{
    match kind {
        ObjectKind::Tree => fsck_tree(alloc, content, hash_kind, options),
        ObjectKind::Blob => Ok(Vec::new(alloc)),
        ObjectKind::Commit => fsck_commit(alloc, hash_kind, content, options),
        ObjectKind::Tag => fsck_tag(alloc, hash_kind, content, options),
    }
}

/// Returns whether git accepts an object: none of its messages counts as an error.
///
/// Git has no message about a blob. A strict check makes an error of a warning. Only a tree allocates: the list of
/// its entries, and the set of their names.
///
/// # Errors
///
/// [`AllocError`] if an allocation failed, only for a tree that begins with an entry.
pub fn is_object_accepted(
    alloc: Global,
    kind: ObjectKind,
    hash_kind: Kind,
    content: &[u8],
    strict: bool,
) -> Result<bool, AllocError>
    ensures found { IfOk result (λ accepted. IsTrue accepted
        ↔ IsAcceptedObject strict kind hash_kind content.now) }
    ensures error { OnErr result (MayAllocate kind hash_kind content.now) }
{
    match kind {
        ObjectKind::Tree => is_tree_accepted(alloc, hash_kind, content, strict),
        ObjectKind::Blob => Ok(true),
        ObjectKind::Commit => Ok(is_commit_accepted(hash_kind, content, strict)),
        ObjectKind::Tag => Ok(is_tag_accepted(hash_kind, content, strict)),
    }
}

/// Returns whether `git receive-pack` takes an object if `receive.fsckObjects` is set.
///
/// Git's parser has to take it, and the check is strict. Contents of `.gitmodules` and `.gitattributes` aren't
/// checked. Allocates what [`is_object_accepted`] allocates.
///
/// # Errors
///
/// [`AllocError`] if an allocation failed, only for a tree that begins with an entry.
pub fn is_object_received(
    alloc: Global,
    kind: ObjectKind,
    hash_kind: Kind,
    content: &[u8],
) -> Result<bool, AllocError>
    ensures found { IfOk result (λ received. IsTrue received
        ↔ IsReceivedObject kind hash_kind content.now) }
    ensures error { OnErr result (MayAllocate kind hash_kind content.now) }
{
    match kind {
        ObjectKind::Tree => is_tree_accepted(alloc, hash_kind, content, true),
        ObjectKind::Blob => Ok(true),
        ObjectKind::Commit => Ok(is_commit_received(hash_kind, content)),
        ObjectKind::Tag => Ok(is_tag_received(hash_kind, content)),
    }
}

/// Returns whether git accepts a tree.
fn is_tree_accepted(
    alloc: Global,
    hash_kind: Kind,
    content: &[u8],
    strict: bool,
) -> Result<bool, AllocError>
    ensures found { IfOk result (λ accepted. IsTrue accepted
        ↔ IsAcceptedTree strict hash_kind content.now) }
    ensures error { OnErr result (BeginsWithSomeRawEntry hash_kind content.now) }
{
    let messages = tree_messages(alloc, content, hash_kind, strict)?;
    Ok(!messages.has_error(strict))
}

/// Returns whether git takes a commit.
fn is_commit_received(hash_kind: Kind, content: &[u8]) -> bool
    ensures { IsTrue result ↔ (IsParsedCommit hash_kind content.now
        × IsAcceptedCommit true hash_kind content.now) }
{
    is_parsed_commit(hash_kind, content) && is_commit_accepted(hash_kind, content, true)
}

/// Returns whether git takes a tag.
fn is_tag_received(hash_kind: Kind, content: &[u8]) -> bool
    ensures { IsTrue result ↔ (IsParsedTag hash_kind content.now
        × IsAcceptedTag true hash_kind content.now) }
{
    is_parsed_tag(hash_kind, content) && is_tag_accepted(hash_kind, content, true)
}
