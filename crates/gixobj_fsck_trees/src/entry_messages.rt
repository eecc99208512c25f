//! The messages about single entries of a tree.
ghost use Rattle.std.specs.Prelude.{◌≡◌, ◌⊎◌, ◌↔◌, ◌==◌, All, Contains, IsTrue};
ghost use Rattle.gixobj_fsck_messages.specs.Sets.{HasMessage};
ghost use Rattle.gixobj_fsck_messages.specs.declared.message.Message.{Message as MessageType};
ghost use Rattle.gixobj_hash.specs.Bytes.{slash};
ghost use Rattle.gixobj_fsck_trees.specs.EntryMessages.{HasBadMode, HasEntryMessage, HasFault, HasLinkMessage};
ghost use Rattle.gixobj_fsck_trees.specs.EntryMessages.{HasNameMessage, IsLink, IsPlainName, MayBeginFault};
ghost use Rattle.gixobj_fsck_trees.specs.RawViews.{raw_entry_view};
ghost use Rattle.gixobj_fsck_trees.specs.TreeMessages.{is_directory as is_directory_of};

use crate::near::is_free_of_separators;
use crate::raw_entry::RawEntry;
use crate::sets::with;
use gixobj_fsck_messages::{Message, Messages};
use gixobj_fsck_names::{is_dot_git, is_git_attributes, is_git_ignore, is_git_modules, is_mailmap};

/// Returns the messages, with those about this entry.
pub(crate) fn with_entry(messages: Messages, entry: &RawEntry) -> Messages
    ensures { (it : MessageType) → HasMessage result it
        ↔ (HasMessage messages it ⊎ HasEntryMessage (raw_entry_view entry.now) it) }
{
    let linked = with_any_link(messages, entry);
    let named = with_name(linked, entry);
    let null = with(named, Message::NullSha1, is_null(entry.id));
    with(null, Message::ZeroPaddedFilemode, entry.first_digit == b'0')
}

/// Returns the messages, with those about the name of the entry if it is a link.
fn with_any_link(messages: Messages, entry: &RawEntry) -> Messages
    ensures { (it : MessageType) → HasMessage result it
        ↔ (HasMessage messages it
        ⊎ (IsLink (raw_entry_view entry.now) × HasLinkMessage (raw_entry_view entry.now) it)) }
{
    if is_link(entry) {
        return with_link(messages, entry);
    }
    messages
}

/// Returns the messages, with those about the name of a link.
fn with_link(messages: Messages, entry: &RawEntry) -> Messages
    ensures { (it : MessageType) → HasMessage result it
        ↔ (HasMessage messages it ⊎ HasLinkMessage (raw_entry_view entry.now) it) }
{
    let modules = with(
        messages,
        Message::GitmodulesSymlink,
        is_git_modules(entry.name),
    );
    let attributes = with(
        modules,
        Message::GitattributesSymlink,
        is_git_attributes(entry.name),
    );
    let ignore = with(
        attributes,
        Message::GitignoreSymlink,
        is_git_ignore(entry.name),
    );
    with(ignore, Message::MailmapSymlink, is_mailmap(entry.name))
}

/// Returns the messages, with those about the name of any entry.
fn with_name(messages: Messages, entry: &RawEntry) -> Messages
    ensures { (it : MessageType) → HasMessage result it
        ↔ (HasMessage messages it ⊎ HasNameMessage (raw_entry_view entry.now) it) }
{
    if is_plain(entry.name) {
        return messages;
    }
    with_any_name(messages, entry)
}

/// Returns the messages, with those about the name of any entry.
fn with_any_name(messages: Messages, entry: &RawEntry) -> Messages
    ensures { (it : MessageType) → HasMessage result it
        ↔ (HasMessage messages it ⊎ HasNameMessage (raw_entry_view entry.now) it) }
{
    let full = with(messages, Message::FullPathname, has_slash(entry.name));
    let dot = with(full, Message::HasDot, is_name(entry.name, b"."));
    let dotdot = with(dot, Message::HasDotdot, is_name(entry.name, b".."));
    with(dotdot, Message::HasDotgit, is_dot_git(entry.name))
}

/// Returns whether the name can have no message, by its first byte and by its slashes and backslashes.
#[inline(always)]
fn is_plain(name: &[u8]) -> bool
    ensures { IsTrue result → IsPlainName name.now }
{
    match name {
        [] => false,
        [first, ..] => !may_begin_fault(*first) && is_free_of_separators(name),
    }
}

/// Returns whether a name with a message may begin with this byte, if it has no slash and no backslash.
#[inline(always)]
fn may_begin_fault(first: u8) -> bool
    ensures { IsTrue result ↔ MayBeginFault first }
{
    matches!(first, b'.' | b'G' | b'g' | 0xe2 | 0xef)
}

/// Returns whether the message is about this entry, but not as a link. Allocates nothing.
pub fn has_fault(message: Message, entry: &RawEntry) -> bool
    ensures { IsTrue result ↔ HasFault (raw_entry_view entry.now) message }
{
    match message {
        Message::NullSha1 => is_null(entry.id),
        Message::FullPathname => has_slash(entry.name),
        Message::HasDot => is_name(entry.name, b"."),
        Message::HasDotdot => is_name(entry.name, b".."),
        Message::HasDotgit => is_dot_git(entry.name),
        Message::ZeroPaddedFilemode => entry.first_digit == b'0',
        _ => false,
    }
}

/// Returns whether the entry is a symbolic link. Allocates nothing.
pub fn is_link(entry: &RawEntry) -> bool
    ensures { IsTrue result ↔ IsLink (raw_entry_view entry.now) }
{
    entry.mode & 0o170000 == 0o120000
}

/// Returns whether the entry is a directory.
pub(crate) fn is_directory(entry: &RawEntry) -> bool
    ensures { result ≡ is_directory_of (raw_entry_view entry.now) }
{
    entry.mode & 0o170000 == 0o040000
}

/// Returns whether git doesn't write the mode of the entry. Allocates nothing.
pub fn has_bad_mode(strict: bool, entry: &RawEntry) -> bool
    ensures { IsTrue result ↔ HasBadMode strict (raw_entry_view entry.now) }
{
    match entry.mode {
        0o100644 | 0o100755 | 0o120000 | 0o040000 | 0o160000 => false,
        0o100664 => strict,
        _ => true,
    }
}

/// Returns whether the name is the other one.
fn is_name(name: &[u8], other: &[u8]) -> bool
    ensures { IsTrue result ↔ (name.now ≡ other.now) }
{
    name == other
}

/// Returns whether the name has a slash.
fn has_slash(name: &[u8]) -> bool
    ensures { IsTrue result ↔ Contains name.now slash }
{
    name.contains(&b'/')
}

/// Returns whether all bytes are zero.
fn is_null(id: &[u8]) -> bool
    ensures { IsTrue result ↔ All (λ byte. byte ≡ 0) id.now }
{
    id.iter().all(|byte| *byte == 0)
}
