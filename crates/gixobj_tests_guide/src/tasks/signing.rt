//! Signs a commit.

use bstr::BString;
use gix_object::Commit;
use gix_object::signature::sign::{Error, Options};
use gix_object::signature::{Format, Runner};
use std::alloc::Global;

/// Signs a commit with this key. The signature is its last header.
pub fn signed<R: Runner>(
    alloc: Global,
    commit: Commit,
    program: BString,
    key: BString,
    runner: &mut R,
) -> Result<Commit, Error> {
    let options = Options {
        format: Format::OpenPgp,
        program,
        program_arguments: Vec::new(alloc),
        signing_key: key,
        environment: Vec::new(alloc),
    };
    commit.sign(alloc, options, runner)
}
