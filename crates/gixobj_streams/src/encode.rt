//! The errors of object writers.
ghost use Rattle.std.specs.Prelude.{◌≡◌};

use bstr::BString;
use std::alloc::AllocError;
use std::io;

/// The error of a writer of objects, such as `WriteTo::write_to`.
///
/// At [`Error::Writer`] a proper prefix of the encoding has been written. At any other error exactly the
/// parts before the rejected value have been written.
#[derive(Debug, Drop, thiserror::Error)]
pub enum Error {
    /// The writer failed.
    #[error("the writer failed: {0}")]
    Writer(io::Error),
    /// The value of a single-line header has a newline.
    #[error("a header value with a newline: {value:?}")]
    NewlineInHeaderValue {
        /// The rejected value.
        value: BString,
    },
    /// The value of a header is empty.
    #[error("an empty header value")]
    EmptyValue,
    /// The name of a tag begins with `-`.
    #[error("the name of a tag begins with `-`")]
    StartsWithDash,
    /// The name of a tag is invalid as the name of a reference.
    #[error("the name of a tag: {0}")]
    InvalidRefName(RefNameFault),
    /// The name of a tree's entry has a zero byte, which would end the name.
    #[error("a file name with a zero byte: {name:?}")]
    NullbyteInFilename {
        /// The rejected name.
        name: BString,
    },
    /// The name or the email of an actor has a `<`, a `>` or a newline.
    #[error("a name or an email with `<`, `>` or a newline")]
    IllegalActor,
    /// The allocation of a copy of the rejected value failed.
    #[error("out of memory")]
    OutOfMemory,
}

/// Why a name is invalid as the name of a reference (`git-check-ref-format`).
#[derive(Clone, Copy, Debug, PartialEq, Eq, thiserror::Error)]
pub enum RefNameFault {
    /// The name is empty.
    #[error("it is empty")]
    Empty,
    /// A component, between slashes, begins with `.`.
    #[error("a part begins with `.`")]
    DotStart,
    /// A component ends with `.lock`.
    #[error("a part ends with `.lock`")]
    LockSuffix,
    /// The name has two consecutive dots.
    #[error("it has `..`")]
    DoubleDot,
    /// The name has the sequence `@{`.
    #[error("it has `@` before an opening brace")]
    AtBrace,
    /// The name has a backslash.
    #[error("it has a backslash")]
    Backslash,
    /// The name has a byte below 32, byte 127, a space, or one of `~^:?*[`.
    #[error("it has a control character, a space or one of `~^:?*[`")]
    InvalidByte,
    /// The name begins or ends with `/`, or has consecutive slashes.
    #[error("a `/` is first, last or doubled")]
    BadSlash,
    /// The name ends with `.`.
    #[error("it ends with `.`")]
    DotEnd,
}

impl From<io::Error> for Error {
    ghost use Rattle.gixobj_streams.specs.declared.encode.Error.TheVariants.{Writer};

    ghost from_gives = { λ cause error. error ≡ Writer cause };

    fn from(error: io::Error) -> Error {
        Error::Writer(error)
    }
}

impl From<AllocError> for Error {
    ghost use Rattle.gixobj_streams.specs.declared.encode.Error.TheVariants.{OutOfMemory};

    ghost from_gives = { λ _ error. error ≡ OutOfMemory };

    fn from(_: AllocError) -> Error {
        Error::OutOfMemory
    }
}
