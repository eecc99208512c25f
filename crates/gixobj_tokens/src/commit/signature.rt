//! The signature in a commit's encoding, and the data that it signs (gitformat-signature, "Commit
//! signatures").
ghost use Rattle.std.specs.Prelude.{IfErr, IfOk, IfSome};
ghost use Rattle.gixobj_parse.specs.HeaderReading.{BorrowsOneLine};
ghost use Rattle.gixobj_tokens.specs.CommitExtracting.{FindsSignatureOfCommit};
ghost use Rattle.gixobj_grammar.specs.CommitSignatures.{HasNoSignature, HasCommitSignature, IsCommitSignatureError};

use super::CommitRefIter;
use gixobj_grammar::headers::{FoundHeader, find_signature};
use gixobj_hash::decode::Error;
use gixobj_hash::hash::Kind;
use gixobj_signature::signature::SignedData;
use std::alloc::Global;
use std::borrow::CowSlice;

/// Signatures
impl<'a> CommitRefIter<'a> {
    /// Finds the signature in a commit's encoding with ids of `hash_kind`, and the data that it signs.
    ///
    /// The signature is the value of the first header named
    /// [`signature_field_name`](gixobj_grammar::headers::signature_field_name) of `hash_kind`. The data is all
    /// bytes except that header. Lines after it aren't decoded. Returns `None` if all lines are valid, and
    /// none is such a header.
    ///
    /// Allocates the values of headers of several lines, up to the signature. A value of one line is
    /// borrowed.
    ///
    /// # Errors
    ///
    /// - [`Error::Malformed`] if a line up to the signature is malformed or, without a signature, any line.
    /// - [`Error::OutOfMemory`] if such a value can't be allocated.
    pub fn signature(
        alloc: Global,
        bytes: &'a [u8],
        hash_kind: Kind,
    ) -> Result<Option<(CowSlice<'a, u8>, SignedData<'a>)>, Error>
        ensures found { IfOk result (FindsSignatureOfCommit hash_kind bytes.now) }
        ensures error { IfErr result (IsCommitSignatureError hash_kind bytes.now) }
        ensures borrowed { IfOk result (λ found. IfSome found (λ it. BorrowsOneLine it.0)) }
    {
        match find_signature(alloc, bytes, hash_kind) {
            Ok(Some(header)) => {
                let FoundHeader {
                    value,
                    before,
                    after,
                } = header;
                Ok(Some((value, SignedData::new(before, after))))
            }
            Ok(None) => Ok(None),
            Err(error) => Err(error),
        }
    }
}
