//! The names that tags may have (git-check-ref-format, "DESCRIPTION").
ghost use Rattle.std.specs.Prelude.{◌≡◌, ◌↔◌, IfErr, IfOk, IsOk};
ghost use Rattle.bstr.specs.BStr.{bstr_bytes};
ghost use Rattle.gixobj_tag.specs.NameRule.{IsTagName, IsTagNameError};

mod faults;

use bstr::BStr;
use faults::first_fault;
use gixobj_encode::encode::{self, RefNameFault};

/// The error of [`validated_name`].
#[derive(Clone, Copy, Debug, PartialEq, Eq, thiserror::Error)]
pub enum Error {
    /// The name begins with `-`.
    #[error("the name of a tag begins with `-`")]
    StartsWithDash,
    /// The name is invalid as the name of a reference. The payload is its first fault.
    #[error("the name of a tag: {0}")]
    InvalidRefName(RefNameFault),
}

impl From<Error> for encode::Error {
    ghost use Rattle.gixobj_tag.specs.NameRule.{writer_error};

    ghost from_gives = { λ failure error. error ≡ writer_error failure };

    fn from(failure: Error) -> encode::Error {
        match failure {
            Error::StartsWithDash => encode::Error::StartsWithDash,
            Error::InvalidRefName(fault) => encode::Error::InvalidRefName(fault),
        }
    }
}

/// Returns the name if a tag may have it (git-check-ref-format, "DESCRIPTION"; git-tag, "<tagname>").
///
/// The name is the part of the reference's name after `refs/tags/`. Allocates nothing.
///
/// # Errors
///
/// - [`Error::InvalidRefName`], with the first fault of the name in the order of [`RefNameFault`], if it has
///   one.
/// - [`Error::StartsWithDash`] if a name without such a fault begins with `-`. A command would parse it as an
///   option.
pub fn validated_name(name: BStr<'_>) -> Result<BStr<'_>, Error>
    ensures accepts { IsOk result ↔ IsTagName (bstr_bytes name.entry) }
    ensures name { IfOk result (λ it. bstr_bytes it ≡ bstr_bytes name.entry) }
    ensures error { IfErr result (IsTagNameError (bstr_bytes name.entry)) }
{
    let bytes = name.as_bytes();
    if let Some(fault) = first_fault(bytes) {
        return Err(Error::InvalidRefName(fault));
    }
    if bytes.starts_with(b"-") {
        return Err(Error::StartsWithDash);
    }
    Ok(name)
}
