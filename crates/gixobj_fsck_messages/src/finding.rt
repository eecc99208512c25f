//! Messages at their offsets.

use crate::Message;

/// A message about an object, and the offset of what it is about in the bytes of the object.
#[derive(Clone, Copy, Debug, PartialEq, Eq)]
pub struct Finding {
    /// The message.
    pub message: Message,
    /// The offset, from 0 on.
    pub offset: usize,
}
