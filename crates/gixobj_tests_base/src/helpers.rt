//! Helpers that the tests share: strings, blobs, and messages.

use bstr::BString;
use gixobj_base::{Blob, BlobRef};
use std::alloc::{AllocError, Global};

// What holds of the parts of a value that has this pattern. It is false of any other value.
macro_rules! holds {
    ($value:expr, $pattern:pat => $condition:expr) => {
        match $value {
            $pattern => $condition,
            _ => false,
        }
    };
}

pub(crate) use holds;

/// Returns an owned copy of bytes. Empty if memory runs out.
pub(crate) fn string_of(alloc: Global, bytes: &[u8]) -> BString {
    BString::from_slice(alloc, bytes).unwrap_or(BString::new(Vec::new(alloc)))
}

/// Returns the owned form of a blob. Empty if memory runs out.
pub(crate) fn owned_blob(alloc: Global, blob: BlobRef<'_>) -> Blob {
    let empty = Blob {
        bytes: Vec::new(alloc),
    };
    blob.into_owned(alloc).unwrap_or(empty)
}

/// Returns whether a message is as wanted.
pub(crate) fn is_message(message: Result<String, AllocError>, wanted: &str) -> bool {
    match &message {
        Ok(message) => message.as_str() == wanted,
        Err(_) => false,
    }
}

/// Returns whether a writer succeeded.
pub(crate) fn is_written<E: Drop>(outcome: Result<(), E>) -> bool {
    outcome.is_ok()
}
