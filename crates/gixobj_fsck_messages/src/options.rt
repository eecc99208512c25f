//! Options of a check: strict or not, and severities that replace those of git's documentation.
ghost use Rattle.std.specs.Prelude.{◌≡◌, ◌≢◌, ◌↔◌, IfErr, IsOk, IsTrue, OnErr, OnOk};
ghost use Rattle.gixobj_fsck_messages.specs.Options.{CanOverride, IsOverrideError, Overrides, has_message};
ghost use Rattle.gixobj_fsck_messages.specs.Options.{is_strict_by, severity_by};
ghost use Rattle.gixobj_fsck_messages.specs.Severities.{severity_of};
ghost use Rattle.gixobj_fsck_messages.specs.declared.message.Message.{Message as MessageType};

use crate::{Message, Messages, Severity};

/// A severity that replaces that of a message (`git-config`, `fsck.<msg-id>`).
#[derive(Clone, Copy, Debug, PartialEq, Eq, Hash)]
pub enum Override {
    /// An error.
    Error,
    /// A warning, in a strict check too.
    Warn,
    /// Not reported.
    Ignore,
}

/// The error of an override.
#[derive(Clone, Copy, Debug, PartialEq, Eq, thiserror::Error)]
pub enum OverrideError {
    /// The message is fatal.
    #[error("{0} is fatal: set it to error, or leave its severity")]
    Fatal(Message),
    /// Git's check has no defined result after this message, as no id was decoded.
    #[error("the check ends at {0}: set it to error, or leave its severity")]
    Unsupported(Message),
}

/// The options of a check: strict or not, and overrides of severities.
///
/// A message without an override has the severity of [`Message::severity`].
#[derive(Clone, Copy, Debug, PartialEq, Eq)]
pub struct Options {
    strict: bool,
    errors: Messages,
    warnings: Messages,
    ignored: Messages,
}

impl Options {
    /// Returns options without overrides. Allocates nothing.
    pub fn new(strict: bool) -> Options
        ensures strict { is_strict_by result ≡ strict }
        ensures severities { (it : MessageType) → severity_by result it ≡ severity_of strict it }
    {
        Options {
            strict,
            errors: Messages::new(),
            warnings: Messages::new(),
            ignored: Messages::new(),
        }
    }

    /// Returns whether the check is strict. Allocates nothing.
    pub fn is_strict(&self) -> bool
        ensures { result ≡ is_strict_by self.now }
    {
        self.strict
    }

    /// Replaces the severity of a message. Other messages keep theirs. Allocates nothing.
    ///
    /// # Errors
    ///
    /// None at [`Override::Error`]. The options are then unchanged.
    ///
    /// - [`Fatal`](OverrideError::Fatal) if the message is fatal.
    /// - [`Unsupported`](OverrideError::Unsupported) for `badTreeSha1`, `badParentSha1` and `badObjectSha1`.
    pub fn set(&mut self, message: Message, severity: Override) -> Result<(), OverrideError>
        ensures accepts { IsOk result ↔ CanOverride message severity }
        ensures severities { OnOk result (Overrides self.old message severity self.new) }
        ensures error { IfErr result (IsOverrideError message severity) }
        ensures after_error { OnErr result (self.new ≡ self.old) }
    {
        check_override(message, severity)?;
        self.errors = with(self.errors, message, severity == Override::Error);
        self.warnings = with(self.warnings, message, severity == Override::Warn);
        self.ignored = with(self.ignored, message, severity == Override::Ignore);
        Ok(())
    }

    /// Returns the severity of a message. Allocates nothing.
    pub fn severity(&self, message: Message) -> Severity
        ensures { result ≡ severity_by self.now message }
    {
        if self.errors.contains(message) {
            return Severity::Error;
        }
        if self.warnings.contains(message) {
            return Severity::Warn;
        }
        if self.ignored.contains(message) {
            return Severity::Ignore;
        }
        message.severity(self.strict)
    }
}

/// Returns the error of an override, if it has one.
fn check_override(message: Message, severity: Override) -> Result<(), OverrideError>
    ensures accepts { IsOk result ↔ CanOverride message severity }
    ensures error { IfErr result (IsOverrideError message severity) }
{
    if severity == Override::Error {
        return Ok(());
    }
    match message {
        Message::NulInHeader | Message::UnterminatedHeader => Err(OverrideError::Fatal(message)),
        Message::BadTreeSha1 | Message::BadParentSha1 | Message::BadObjectSha1 => {
            Err(OverrideError::Unsupported(message))
        }
        _ => Ok(()),
    }
}

/// Returns the messages, with or without this one.
fn with(messages: Messages, message: Message, is_member: bool) -> Messages
    ensures member { has_message result message ≡ is_member }
    ensures others { (it : MessageType) → it ≢ message
        → has_message result it ≡ has_message messages it }
{
    let mut with = messages;
    if is_member {
        with.insert(message);
    } else {
        with.remove(message);
    }
    with
}
