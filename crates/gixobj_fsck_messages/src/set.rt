//! Sets of messages, one bit for each.
ghost use Rattle.std.specs.Prelude.{◌≡◌, ◌<◌, ◌^◌, ◌↔◌, IsTrue, MatchOption};
ghost use Rattle.gixobj_fsck_messages.specs.Messages.{message_count};
ghost use Rattle.gixobj_fsck_messages.specs.Severities.{IsWorse};

use crate::{Message, MessagesIter, Severity};

/// A set of messages about one object. [`Messages::iter`] yields them in the order of git's reports.
#[derive(Clone, Copy, Debug, PartialEq, Eq, Hash)]
pub struct Messages {
    bits: u64,
    ghost known: { bits < 2 ^ 45 },
}

impl Messages {
    ghost use Rattle.gixobj_fsck_messages.specs.Sets.{HasMessage, HasNoMessage, HasError, Inserts, IsFirstMessage};
    ghost use Rattle.gixobj_fsck_messages.specs.Sets.{IsWorst, Removes};

    /// Returns the empty set. Allocates nothing.
    pub fn new() -> Messages
        ensures { HasNoMessage result }
    {
        Messages { bits: 0 }
    }

    /// Returns the set as a number, in which bit `n` is that of message number `n`. Allocates nothing.
    pub fn bits(self) -> u64
        ensures value { result ≡ self.bits }
        ensures max { result < 2 ^ message_count }
    {
        self.bits
    }

    /// Inserts a message. Allocates nothing.
    pub fn insert(&mut self, message: Message)
        ensures { Inserts self.old message self.new }
    {
        self.bits |= 1 << message.number();
    }

    /// Returns whether the message is in the set. Allocates nothing.
    pub fn contains(self, message: Message) -> bool
        ensures { IsTrue result ↔ HasMessage self message }
    {
        self.bits >> message.number() & 1 == 1
    }

    /// Returns whether no message is in the set. Allocates nothing.
    pub fn is_empty(self) -> bool
        ensures { IsTrue result ↔ HasNoMessage self }
    {
        self.first().is_none()
    }

    /// Returns the message in the set that git reports first. Allocates nothing.
    pub fn first(self) -> Option<Message>
        ensures { MatchOption result (HasNoMessage self) (IsFirstMessage self) }
    {
        if self.bits == 0 {
            return None;
        }
        Message::from_number(self.bits.trailing_zeros() as u8)
    }

    /// Removes a message. Allocates nothing.
    pub fn remove(&mut self, message: Message)
        ensures removed { Removes self.old message self.new }
        ensures fewer { HasMessage self.old message → self.new.bits < self.old.bits }
    {
        self.bits &= !(1 << message.number());
    }

    /// Returns an iterator over the messages, in the order of git's reports. Allocates nothing.
    pub fn iter(self) -> MessagesIter
        ensures { result.rest ≡ self }
    {
        MessagesIter { rest: self }
    }

    /// Returns the worst severity of the messages, or `None` if there is none.
    ///
    /// A strict check makes an error of a warning. Allocates nothing.
    #[tactic(auto, using(crate::proofs::Worst::worst_of_all))]
    pub fn worst(self, strict: bool) -> Option<Severity>
        ensures { IsWorst strict self result }
    {
        let mut worst: Option<Severity> = None;
        let mut rest = self;
        while let Some(message) = rest.first() {
            rest.remove(message);
            worst = Some(worse(worst, message.severity(strict)));
        }
        worst
    }

    /// Returns whether a message counts as an error.
    ///
    /// A strict check makes an error of a warning. Allocates nothing.
    pub fn has_error(self, strict: bool) -> bool
        ensures { IsTrue result ↔ HasError strict self }
    {
        match self.worst(strict) {
            Some(severity) => severity.is_error(),
            None => false,
        }
    }
}

/// Returns the worse of two severities.
fn worse(worst: Option<Severity>, severity: Severity) -> Severity
    ensures { IsWorse worst severity result }
{
    match worst {
        Some(it) if it.rank() > severity.rank() => it,
        _ => severity,
    }
}
