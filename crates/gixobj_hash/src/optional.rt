//! Borrows and copies of optional byte strings.
ghost use Rattle.std.specs.Prelude.{◌≡◌, IfOk};
ghost use Rattle.gixobj_hash.specs.Optional.{bytes_if_some, owned_bytes_if_some};

use bstr::{BStr, BString};
use std::alloc::{AllocError, Global};

/// Borrows an optional byte string. Allocates nothing.
pub fn borrowed(bytes: &Option<BString>) -> Option<BStr<'_>>
    ensures { bytes_if_some result ≡ owned_bytes_if_some bytes.now }
{
    match bytes {
        Some(bytes) => Some(bytes.as_bstr()),
        None => None,
    }
}

/// Copies an optional byte string. Only the copy of a `Some` allocates.
///
/// # Errors
///
/// [`AllocError`] if the copy can't be allocated.
pub fn copied(alloc: Global, bytes: Option<BStr<'_>>) -> Result<Option<BString>, AllocError>
    ensures { IfOk result (λ it. owned_bytes_if_some it ≡ bytes_if_some bytes.entry) }
{
    match bytes {
        Some(bytes) => Ok(Some(BString::from_slice(alloc, bytes.as_bytes())?)),
        None => Ok(None),
    }
}
