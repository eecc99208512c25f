//! Messages that are inserted if a test holds.
ghost use Rattle.std.specs.Prelude.{◌≡◌, ◌⊎◌, ◌↔◌, IsTrue};
ghost use Rattle.gixobj_fsck_messages.specs.Sets.{HasMessage};
ghost use Rattle.gixobj_fsck_messages.specs.declared.message.Message.{Message as MessageType};

use gixobj_fsck_messages::{Message, Messages};

/// Returns the messages, with this one if it holds.
pub(crate) fn with(messages: Messages, message: Message, holds: bool) -> Messages
    ensures { (it : MessageType) → HasMessage result it
        ↔ (HasMessage messages it ⊎ ((it ≡ message) × IsTrue holds)) }
{
    let mut with = messages;
    if holds {
        with.insert(message);
    }
    with
}
