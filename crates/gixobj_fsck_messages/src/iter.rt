//! An iterator over the messages of a set.

use crate::{Message, Messages};

/// An iterator over the messages of a set, in the order of git's reports. [`Messages::iter`] returns one.
#[derive(Clone, Copy, Debug)]
pub struct MessagesIter {
    pub(crate) rest: Messages,
}

/// Yields the next message. Allocates nothing.
impl Iterator for MessagesIter {
    ghost use Rattle.gixobj_fsck_messages.specs.Iterators.{NextMessage, remaining_message_count};

    type Item = Message;

    ghost next_gives = { NextMessage };

    ghost remaining = { remaining_message_count };

    fn next(&mut self) -> Option<Message> {
        let message = self.rest.first()?;
        self.rest.remove(message);
        Some(message)
    }
}
