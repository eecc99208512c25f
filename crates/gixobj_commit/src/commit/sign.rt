//! Signing of commits (gitformat-signature, "Commit signatures").
ghost use Rattle.std.specs.Prelude.{◌≡◌, IfErr, IfOk, OnOk};
ghost use Rattle.bstr.specs.Owned.{bstring_bytes};
ghost use Rattle.gixobj_commit.specs.CommitSigning.{GetsCommitSignature, IsSignedCommit, IsSignedCommitCopy};
ghost use Rattle.gixobj_commit.specs.CommitSigning.{IsCommitSigningError, IsCommitCopySigningError};
ghost use Rattle.gixobj_commit.specs.CommitSigning.{IsCommitEncodingError, is_header_named, with_last_header};
ghost use Rattle.gixobj_commit.specs.CommitSigning.{without_headers};
ghost use Rattle.gixobj_commit.specs.CommitViews.{commit_lines, owned_commit_lines};
ghost use Rattle.gixobj_commit.specs.CommitWriting.{HasIds, IsOwnedCommitError, encode_commit};
ghost use Rattle.gixobj_parse.specs.HeaderReading.{owned_header_of};
ghost use Rattle.gixobj_streams.specs.Writing.{RejectsNothing};
ghost use Rattle.gixobj_signature.specs.Plans.{IsCarriedOut};
ghost use Rattle.gixobj_signature.specs.Signing.{sign_options_view, sign_plan, signer_error};

use super::{Commit, CommitRef, signature_field_name};
use bstr::BString;
use gixobj_encode::{WriteTo, encode};
use gixobj_hash::OutOfMemory;
use gixobj_signature::signature::Runner;
use gixobj_signature::signature::sign::{Error, Options, sign_payload};
use std::alloc::Global;

/// Signing
impl Commit {
    /// Signs the commit, and returns it with the new signature as its last header (gitformat-signature).
    ///
    /// The header is `gpgsig`, or `gpgsig-sha256` if the tree's id is of SHA-256. All other headers of that
    /// name are removed. The payload is the encoding of the commit without any header of that name. Allocates
    /// the payload, the call, the signature and its header. An error drops the commit.
    ///
    /// # Errors
    ///
    /// - [`Error::Encode`], with its cause, if the payload can't be written: an actor or the message encoding
    ///   is rejected, or an allocation for the encoding fails (`Writer` of kind `OutOfMemory`). No call is
    ///   made.
    /// - [`Error::MissingSigningKey`] if the key is empty. No call is made.
    /// - [`Error::TemporaryFile`], [`Error::Spawn`] or [`Error::Communicate`], with the runner's message, if
    ///   the runner returns that case.
    /// - [`Error::Failed`], with the program and its standard error, if the program doesn't succeed.
    /// - [`Error::MissingSignatureConfirmation`] if a program of OpenPGP or X.509 confirms no signature.
    /// - [`Error::MissingSshSignature`] if a program of SSH leaves no file with a signature.
    /// - [`Error::OutOfMemory`] if the call, the signature, its header or the runner fails to allocate.
    ///
    /// # Examples
    ///
    /// ```rust
    /// let options = Options {
    ///     format: Format::OpenPgp,
    ///     program,
    ///     program_arguments: Vec::new(alloc),
    ///     signing_key: key,
    ///     environment: Vec::new(alloc),
    /// };
    /// commit.sign(alloc, options, runner)
    /// ```
    pub fn sign<R: Runner>(
        self,
        alloc: Global,
        options: Options,
        runner: &mut R,
    ) -> Result<Commit, Error>
        ensures signed { IfOk result (IsSignedCommit R.runs options self runner.old runner.new) }
        ensures error { IfErr result (IsCommitSigningError R.runs options self runner.old
            runner.new) }
    {
        let field = signature_field_name(self.tree.kind()).as_bytes();
        let unsigned = without_headers_of(self, field);
        match payload_of(alloc, &unsigned) {
            Ok(payload) => sign_written(alloc, unsigned, field, &payload, options, runner),
            Err(error) => Err(Error::Encode(error)),
        }
    }
}

/// Signing
impl CommitRef<'_> {
    /// Copies the commit, and signs the copy by [`Commit::sign`].
    ///
    /// The fields `tree` and `parents` must be hex ids, as [`CommitRef::from_bytes`] ensures. Allocates
    /// the copy and what [`Commit::sign`] allocates.
    ///
    /// # Errors
    ///
    /// - [`Error::Decode`], with the error of [`CommitRef::into_owned`], if the copy fails. No call is made.
    /// - Otherwise an error of [`Commit::sign`].
    pub fn sign<R: Runner>(
        self,
        alloc: Global,
        options: Options,
        runner: &mut R,
    ) -> Result<Commit, Error>
        requires { HasIds (commit_lines self) }
        ensures signed { IfOk result (IsSignedCommitCopy R.runs options (commit_lines self.entry)
            runner.old runner.new) }
        ensures error { IfErr result (IsCommitCopySigningError R.runs options
            (commit_lines self.entry) runner.old runner.new) }
    {
        match self.into_owned(alloc) {
            Ok(commit) => commit.sign(alloc, options, runner),
            Err(error) => Err(Error::Decode(error)),
        }
    }
}

/// Encodes a commit.
fn payload_of(alloc: Global, commit: &Commit) -> Result<Vec<u8>, encode::Error>
    ensures encoded { IfOk result (λ content. content.items
        ≡ encode_commit (owned_commit_lines commit.now)) }
    ensures writable { OnOk result (RejectsNothing (IsOwnedCommitError commit.now)) }
    ensures error { IfErr result (IsCommitEncodingError commit.now
        (encode_commit (owned_commit_lines commit.now))) }
{
    let mut payload = Vec::new(alloc);
    commit.write_to_vec(alloc, &mut payload)?;
    Ok(payload)
}

/// Returns the commit with the signature of `payload` in a last header named `field`.
#[tactic(auto, using(crate::proofs::CommitSigned::begins_plan_of_call))]
fn sign_written<R: Runner>(
    alloc: Global,
    unsigned: Commit,
    field: &[u8],
    payload: &[u8],
    options: Options,
    runner: &mut R,
) -> Result<Commit, Error>
    ensures signed { IfOk result (GetsCommitSignature R.runs options payload.now field.now unsigned
        runner.old runner.new) }
    ensures error { IfErr result (λ error.
        IsCarriedOut R.runs (sign_plan (sign_options_view options) payload.now) runner.old (signer_error error)
        runner.new) }
{
    match sign_payload(alloc, payload, options, runner) {
        Ok(bytes) => match with_header(alloc, unsigned, field, bytes) {
            Ok(signed) => Ok(signed),
            Err(_) => Err(Error::OutOfMemory),
        },
        Err(error) => Err(error),
    }
}

/// Removes the headers of this name.
fn without_headers_of(commit: Commit, name: &[u8]) -> Commit
    ensures lines { owned_commit_lines result
        ≡ without_headers name.now (owned_commit_lines commit) }
    ensures unchanged { result ≡ record commit { extra_headers = result.extra_headers } }
{
    let mut commit = commit;
    commit
        .extra_headers
        .retain(|header| !has_name(header, name));
    commit
}

/// Returns whether the header has this name.
fn has_name(header: &(BString, BString), name: &[u8]) -> bool
    ensures { result ≡ is_header_named name.now (owned_header_of header.now) }
{
    header.0.as_bytes() == name
}

/// Appends a header to the commit.
fn with_header(
    alloc: Global,
    commit: Commit,
    name: &[u8],
    value: BString,
) -> Result<Commit, OutOfMemory>
    ensures { IfOk result (λ it. owned_commit_lines it
        ≡ with_last_header name.now (bstring_bytes value) (owned_commit_lines commit)) }
{
    let mut commit = commit;
    let name = BString::from_slice(alloc, name)?;
    commit.extra_headers.push((name, value))?;
    Ok(commit)
}
