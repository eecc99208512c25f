//! The bytes of an object that a signature covers.
ghost use Rattle.std.specs.Prelude.{◌≡◌, ◌++◌, IfOk};
ghost use Rattle.bstr.specs.Owned.{bstring_bytes};
ghost use Rattle.gixobj_signature.specs.SignedBytes.{signed_bytes};

use bstr::BString;
use gixobj_hash::OutOfMemory;
use std::alloc::Global;

/// The bytes that a signature covers, as two slices (gitformat-signature). [`SignedData::new`] makes one.
#[derive(Clone, Copy, Debug, PartialEq, Eq, Hash)]
pub struct SignedData<'a> {
    pub(crate) before: &'a [u8],
    pub(crate) after: &'a [u8],
}

impl<'a> SignedData<'a> {
    /// Makes signed data of the bytes before a signature and the bytes after it. Allocates nothing.
    pub fn new(before: &'a [u8], after: &'a [u8]) -> SignedData<'a>
        ensures { signed_bytes result ≡ before.now ++ after.now }
    {
        SignedData { before, after }
    }

    /// Copies the signed bytes into one string, which the call allocates.
    ///
    /// # Errors
    ///
    /// [`OutOfMemory`] if the allocation fails.
    pub fn to_bstring(&self, alloc: Global) -> Result<BString, OutOfMemory>
        ensures { IfOk result (λ it. bstring_bytes it ≡ signed_bytes self.now) }
    {
        let mut bytes = Vec::from_slice(alloc, self.before)?;
        bytes.extend_from_slice(self.after)?;
        Ok(BString::new(bytes))
    }
}
