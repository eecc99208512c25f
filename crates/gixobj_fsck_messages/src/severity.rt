//! Severities of messages.
ghost use Rattle.std.specs.Prelude.{◌≡◌};
ghost use Rattle.gixobj_fsck_messages.specs.Severities.{counts_as_error, is_reported, rank};

/// The severity of a message (`git-fsck`, "FSCK MESSAGES").
#[derive(Clone, Copy, Debug, PartialEq, Eq, Hash)]
pub enum Severity {
    /// An error that no configuration makes less.
    Fatal,
    /// An error.
    Error,
    /// A warning, and an error in a strict check.
    Warn,
    /// A warning in each check.
    Info,
    /// Not reported.
    Ignore,
}

impl Severity {
    /// Returns whether a message of this severity counts as an error. Allocates nothing.
    pub fn is_error(self) -> bool
        ensures { result ≡ counts_as_error self }
    {
        matches!(self, Severity::Fatal | Severity::Error)
    }

    /// Returns whether `git fsck` prints a message of this severity. Allocates nothing.
    pub fn is_reported(self) -> bool
        ensures { result ≡ is_reported self }
    {
        !matches!(self, Severity::Ignore)
    }

    /// Returns the rank of the severity: a worse one has a higher rank. Allocates nothing.
    pub fn rank(self) -> u8
        ensures { result ≡ rank self }
    {
        match self {
            Severity::Ignore => 0,
            Severity::Info => 1,
            Severity::Warn => 2,
            Severity::Error => 3,
            Severity::Fatal => 4,
        }
    }
}
