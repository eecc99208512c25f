//! The set of messages about a tree.
ghost use Rattle.std.specs.Prelude.{◌≡◌, ◌⊎◌, ◌↔◌, IfOk, IsTrue, OnErr};
ghost use Rattle.gixobj_fsck_messages.specs.Sets.{HasMessage};
ghost use Rattle.gixobj_fsck_messages.specs.declared.message.Message.{Message as MessageType};
ghost use Rattle.gixobj_fsck_trees.specs.RawEntries.{BeginsWithSomeRawEntry, ending_of};
ghost use Rattle.gixobj_fsck_trees.specs.RawViews.{raw_entry_views};
ghost use Rattle.gixobj_fsck_trees.specs.TreeMessages.{AreTreeMessages, HasNameTwice, ReportsOfTree, compared};

use crate::entries::{compared_entries, has_step_down, have_bad_mode, with_entries};
use crate::name_twice::has_name_twice;
use crate::raw_entry::RawEntry;
use crate::read_tree::read_tree;
use crate::sets::with;
use gixobj_fsck_messages::{Message, Messages};
use gixobj_hash::hash::Kind;
use std::alloc::{AllocError, Global};

/// Returns the set of messages of `git fsck` about the bytes of a tree whose entries have ids of this kind.
///
/// A strict check reports mode 100664 too. The entries and the set of their names allocate.
///
/// # Errors
///
/// [`AllocError`] if an allocation failed, only for bytes that begin with an entry.
pub fn tree_messages(
    alloc: Global,
    bytes: &[u8],
    hash_kind: Kind,
    strict: bool,
) -> Result<Messages, AllocError>
    ensures found { IfOk result (AreTreeMessages hash_kind strict bytes.now) }
    ensures error { OnErr result (BeginsWithSomeRawEntry hash_kind bytes.now) }
{
    let tree = read_tree(alloc, bytes, hash_kind)?;
    let twice = has_name_twice(alloc, compared_entries(&tree.entries, tree.is_broken))?;
    Ok(messages_of(&tree.entries, tree.is_broken, strict, twice))
}

/// Returns the messages about entries of which two have one name or not.
fn messages_of(entries: &[RawEntry], is_broken: bool, strict: bool, twice: bool) -> Messages
    requires { IsTrue twice
        ↔ HasNameTwice (compared (raw_entry_views entries.now) (ending_of is_broken)) }
    ensures { (it : MessageType) → HasMessage result it
        ↔ ReportsOfTree strict (raw_entry_views entries.now) (ending_of is_broken) it }
{
    let compared = compared_entries(entries, is_broken);
    let each = with_entries(Messages::new(), entries);
    let broken = with(each, Message::BadTree, is_broken);
    let modes = with(
        broken,
        Message::BadFilemode,
        have_bad_mode(strict, compared),
    );
    let names = with(modes, Message::DuplicateEntries, twice);
    with(names, Message::TreeNotSorted, has_step_down(compared))
}
