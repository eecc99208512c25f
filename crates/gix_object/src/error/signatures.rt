//! Errors of signing and verifying.
ghost use Rattle.std.specs.Prelude.{◌≡◌};
ghost use Rattle.gix_object.specs.declared.error.Error.TheVariants as tool;

use super::Error;
use gixobj_signature::signature::{RunError, sign, verify};

impl From<sign::Error> for Error {
    ghost from_gives = { λ cause error. error ≡ tool.Sign cause };

    fn from(cause: sign::Error) -> Error {
        Error::Sign(cause)
    }
}

impl From<verify::Error> for Error {
    ghost from_gives = { λ cause error. error ≡ tool.Verify cause };

    fn from(cause: verify::Error) -> Error {
        Error::Verify(cause)
    }
}

impl From<RunError> for Error {
    ghost from_gives = { λ cause error. error ≡ tool.Run cause };

    fn from(cause: RunError) -> Error {
        Error::Run(cause)
    }
}
