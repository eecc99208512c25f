//! Verifies the signature of a commit.

use bstr::{BStr, BString};
use gix_object::hash::Kind as HashKind;
use gix_object::signature::Runner;
use gix_object::signature::verify::{Error, Options, Outcome, TrustLevel};
use gix_object::{CommitRefIter, decode};
use std::alloc::Global;

/// Verifies the signature of a commit with an OpenPGP program. `None` if no signature is found.
pub fn verified<R: Runner>(
    alloc: Global,
    bytes: &[u8],
    program: BString,
    runner: &mut R,
) -> Result<Option<Outcome>, Error> {
    let options = Options::OpenPgp {
        program,
        program_arguments: Vec::new(alloc),
        environment: Vec::new(alloc),
        minimum_trust: TrustLevel::Marginal,
    };
    match CommitRefIter::signature(alloc, bytes, HashKind::Sha1) {
        Ok(Some((signature, signed))) => {
            let signature = BStr::new(signature.as_slice());
            Ok(Some(signed.verify(alloc, signature, options, runner)?))
        }
        Ok(None) | Err(decode::Error::Malformed) => Ok(None),
        Err(decode::Error::OutOfMemory) => Err(Error::OutOfMemory),
    }
}
