//! The errors of the program, with their lines and exit statuses.
ghost use Rattle.std.specs.Prelude.{◌≡◌};
ghost use Rattle.gixobj_cli_show.specs.Failure.{line_of, exit_status_of};

use gixobj_hash::decode::{LooseContentError, LooseHeaderDecodeError};
use gixobj_streams::streams::Sink;

/// The error of a command, such as [`show`](crate::show::show). [`report_to`](crate::engine::report_to)
/// reports it.
#[derive(Clone, Copy, Debug, PartialEq, Eq)]
pub enum Failure {
    /// The arguments are invalid.
    Usage,
    /// A read of standard input failed.
    InputFailed,
    /// A write to standard output failed.
    OutputFailed,
    /// An allocation failed.
    OutOfMemory,
    /// The input does not begin with a loose header.
    BadHeader,
    /// The input has fewer bytes of content than its header states.
    ShortData,
    /// The object is not a tree.
    NotATree,
    /// The content is not the encoding of a tree with ids of the requested kind.
    BadTree,
}

impl From<LooseContentError> for Failure {
    ghost use Rattle.gixobj_cli_show.specs.Failure.{content_error};

    ghost from_gives = { λ error cause. cause ≡ content_error error };

    fn from(error: LooseContentError) -> Failure {
        match error {
            LooseContentError::Header(LooseHeaderDecodeError::OutOfMemory) => Failure::OutOfMemory,
            LooseContentError::Header(_) => Failure::BadHeader,
            LooseContentError::Short { .. } => Failure::ShortData,
        }
    }
}

impl Failure {
    /// Returns the line for standard error, with its newline.
    pub fn line(self) -> &'static [u8]
        ensures { result.now ≡ line_of self }
    {
        match self {
            Failure::Usage => b"usage: gixobj show|tree|edit [sha256]\n",
            Failure::InputFailed => b"gixobj: input failed\n",
            Failure::OutputFailed => b"gixobj: output failed\n",
            Failure::OutOfMemory => b"gixobj: out of memory\n",
            Failure::BadHeader => b"gixobj: bad header\n",
            Failure::ShortData => b"gixobj: short data\n",
            Failure::NotATree => b"gixobj: not a tree\n",
            Failure::BadTree => b"gixobj: bad tree\n",
        }
    }

    /// Returns the exit status: 2 for [`Failure::Usage`], and 1 for any other error.
    pub fn status(self) -> u8
        ensures { result ≡ exit_status_of self }
    {
        match self {
            Failure::Usage => 2,
            _ => 1,
        }
    }
}
