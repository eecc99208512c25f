//! The entries of a tree, compared with each other.
ghost use Rattle.std.specs.Prelude.{◌≡◌, ◌⊎◌, ◌↔◌, ◌≤◌, IsTrue, length};
ghost use Rattle.gixobj_fsck_messages.specs.Sets.{HasMessage};
ghost use Rattle.gixobj_fsck_messages.specs.declared.message.Message.{Message as MessageType};
ghost use Rattle.gixobj_fsck_trees.specs.EntryMessages.{HasBadMode, HasEntryMessage, HasFault};
ghost use Rattle.gixobj_fsck_trees.specs.FirstOffsets.{FindsOffset, IsFirstOffset, IsStepOffset};
ghost use Rattle.gixobj_fsck_trees.specs.RawEntries.{ending_of};
ghost use Rattle.gixobj_fsck_trees.specs.RawViews.{raw_entry_view, raw_entry_views};
ghost use Rattle.gixobj_fsck_trees.specs.TreeMessages.{HasEntry, HasStepDown, StepsDown, compared};

use crate::entry_messages::{has_bad_mode, has_fault, is_directory, with_entry};
use crate::raw_entry::RawEntry;
use gixobj_fsck_messages::{Message, Messages};
use gixobj_tree_entries::name_order;

/// Returns the entries whose modes, order and names git compares. Allocates nothing.
pub fn compared_entries<'a, 'b>(entries: &'b [RawEntry<'a>], is_broken: bool) -> &'b [RawEntry<'a>]
    ensures value { raw_entry_views result.now
        ≡ compared (raw_entry_views entries.now) (ending_of is_broken) }
    ensures within { length result.now ≤ length entries.now }
{
    if is_broken {
        return &entries[..entries.len().saturating_sub(1)];
    }
    entries
}

/// Returns the messages, with those about single entries.
pub(crate) fn with_entries(messages: Messages, entries: &[RawEntry]) -> Messages
    ensures { (it : MessageType) → HasMessage result it ↔ (HasMessage messages it
        ⊎ HasEntry (λ e. HasEntryMessage e it) (raw_entry_views entries.now)) }
{
    let mut found = messages;
    for entry in entries {
        found = with_entry(found, entry);
    }
    found
}

/// Returns whether an entry has a mode that git doesn't write.
pub(crate) fn have_bad_mode(strict: bool, entries: &[RawEntry]) -> bool
    ensures { IsTrue result ↔ HasEntry (HasBadMode strict) (raw_entry_views entries.now) }
{
    first_bad_mode(strict, entries).is_some()
}

/// Returns the offset of the first entry with a mode that git doesn't write. Allocates nothing.
pub fn first_bad_mode(strict: bool, entries: &[RawEntry]) -> Option<usize>
    ensures { FindsOffset (IsFirstOffset (HasBadMode strict) (raw_entry_views entries.now)) result }
{
    for entry in entries {
        if has_bad_mode(strict, entry) {
            return Some(entry.offset);
        }
    }
    None
}

/// Returns the offset of the first entry that the message is about, but not as a link. Allocates nothing.
pub fn first_fault(message: Message, entries: &[RawEntry]) -> Option<usize>
    ensures { FindsOffset (IsFirstOffset (λ e. HasFault e message) (raw_entry_views entries.now))
        result }
{
    for entry in entries {
        if has_fault(message, entry) {
            return Some(entry.offset);
        }
    }
    None
}

/// Returns whether two neighbours aren't in the order of names.
pub(crate) fn has_step_down(entries: &[RawEntry]) -> bool
    ensures { IsTrue result ↔ HasStepDown (raw_entry_views entries.now) }
{
    first_step_down(entries).is_some()
}

/// Returns the offset of the second of the first two neighbours that aren't in the order of names. Allocates nothing.
pub fn first_step_down(entries: &[RawEntry]) -> Option<usize>
    ensures { FindsOffset (IsStepOffset (raw_entry_views entries.now)) result }
{
    let (first, others) = entries.split_first()?;
    let mut previous = first;
    let mut rest = others;
    while let Some((entry, after)) = rest.split_first() {
        if steps_down(previous, entry) {
            return Some(entry.offset);
        }
        previous = entry;
        rest = after;
    }
    None
}

/// Returns whether the entries have different names, and the first isn't less. Allocates nothing.
pub fn steps_down(entry: &RawEntry, next: &RawEntry) -> bool
    ensures { IsTrue result ↔ StepsDown (raw_entry_view entry.now) (raw_entry_view next.now) }
{
    !name_order(
        entry.name,
        is_directory(entry),
        next.name,
        is_directory(next),
    )
    .is_lt()
        && entry.name != next.name
}
