//! A signer of commits, and an auditor of releases, who verifies signatures of commits and tags: both by
//! programs that a runner runs.
ghost use Rattle.std.specs.Prelude.{◌≡◌, ℕ, IfErr, IfOk, IfSome, List, true};
ghost use Rattle.std.specs.Cow.{cow_slice_items};
ghost use Rattle.gix_object.specs.CommitSigning.{IsCommitEncodingError};
ghost use Rattle.gix_object.specs.CommitViews.{owned_commit_lines};
ghost use Rattle.gix_object.specs.CommitWriting.{encode_commit};
ghost use Rattle.gix_object.specs.Outcomes.{outcome_view};
ghost use Rattle.gix_object.specs.SignedBytes.{signed_bytes};
ghost use Rattle.gix_object.specs.Signing as signing;
ghost use Rattle.gix_object.specs.Verifiers.{verify_options_view};
ghost use Rattle.gixobj_examples_objects.specs.AcceptedSignatures.{IsOutcomeOfVerifying, FindsSignature, IsAccepted};
ghost use Rattle.gixobj_examples_objects.specs.AcceptedSignatures.{IsAudit, IsSignedEncoding, IsAuditError};
ghost use Rattle.gixobj_examples_objects.specs.AcceptedSignatures.{IsObjectSignature, IsSignatureError};
ghost use Rattle.gixobj_examples_objects.specs.AcceptedSignatures.{IsSignedEncodingError, SignsObject, Vouches};

use bstr::BStr;
use gix_object::laws::{received_commits_are_signed, received_tags_are_signed};
use gix_object::signature::verify::{self, Options, Outcome};
use gix_object::signature::{Runner, SignedData, sign};
use gix_object::{Commit, CommitRefIter, Kind, TagRefIter, WriteTo, decode, encode, hash};
use std::alloc::Global;
use std::borrow::CowSlice;

/// Signs a commit, and returns its encoding with the new signature (git-commit, `-S`).
///
/// Allocates the signed commit and its encoding.
///
/// # Errors
///
/// [`sign::Error`] if the commit isn't signed; `Encode` also if the signed commit isn't encoded.
pub fn signed_payload<R: Runner>(
    alloc: Global,
    commit: Commit,
    options: sign::Options,
    runner: &mut R,
) -> Result<Vec<u8>, sign::Error>
    ensures signed { IfOk result (λ content.
        IsSignedEncoding R.runs (signing.sign_options_view options) commit runner.old content.items
        runner.new) }
    ensures error { IfErr result (IsSignedEncodingError R.runs options commit
        runner.old runner.new) }
{
    match commit.sign(alloc, options, runner) {
        Ok(signed) => match written(alloc, &signed) {
            Ok(content) => Ok(content),
            Err(error) => Err(sign::Error::Encode(error)),
        },
        Err(error) => Err(error),
    }
}

/// Encodes a commit.
fn written(alloc: Global, commit: &Commit) -> Result<Vec<u8>, encode::Error>
    ensures encoded { IfOk result (λ content. content.items
        ≡ encode_commit (owned_commit_lines commit.now)) }
    ensures error { IfErr result (IsCommitEncodingError commit.now
        (encode_commit (owned_commit_lines commit.now))) }
{
    let mut content = Vec::new(alloc);
    commit.write_to_vec(alloc, &mut content)?;
    Ok(content)
}

/// The error of [`audit`].
#[derive(Debug, Drop, thiserror::Error)]
pub enum AuditError {
    /// The object is neither a commit nor a tag. No call was made.
    #[error("neither a commit nor a tag")]
    NoRelease,
    /// No signature is found: a line before it is malformed, or allocation failed. No call was made.
    #[error("not read: {0}")]
    Read(decode::Error),
    /// The signature isn't verified, for this cause.
    #[error("not verified: {0}")]
    Verify(verify::Error),
}

/// Extracts the signature from the bytes of an object, and has a runner verify it; `None` if the object is
/// unsigned.
///
/// If the outcome is accepted ([`Outcome::is_valid`]), the signature is of exactly the object's other bytes:
/// of a commit all but the signature header, of a tag all before the marker. The tree and the parents of the
/// commit, or the target of the tag, are those of the signed bytes. To the stated calls, and no others,
/// programs answered that the signature is good. That these answers are true doesn't follow.
///
/// # Errors
///
/// - [`AuditError::NoRelease`] if the object is neither a commit nor a tag;
/// - [`AuditError::Read`] if a line before the signature of a commit is malformed, or allocation fails;
/// - [`AuditError::Verify`] with the error of the verification, if the signature isn't verified.
///
/// No program is called for the first two, nor for an unsigned object.
pub fn audit<R: Runner>(
    alloc: Global,
    kind: Kind,
    hash_kind: hash::Kind,
    bytes: &[u8],
    options: Options,
    runner: &mut R,
) -> Result<Option<Outcome>, AuditError>
    ensures audited { IfOk result (IsAudit R.runs (verify_options_view options) kind
        hash_kind bytes.now
        runner.old runner.new) }
    ensures accepted { IfOk result (λ it.
        IfSome it (λ outcome. (outcome_view outcome).valid ≡ true
        → IsAccepted R.runs (verify_options_view options) kind hash_kind bytes.now runner.old
        (outcome_view outcome) runner.new)) }
    ensures error { IfErr result (IsAuditError R.runs (verify_options_view options) kind hash_kind
        bytes.now runner.old runner.new) }
{
    signature_signs_object(kind, hash_kind, bytes);
    match signature_of(alloc, kind, hash_kind, bytes) {
        Ok(Some(found)) => match verified(alloc, found, options, runner) {
            Ok(outcome) => Ok(Some(outcome)),
            Err(error) => Err(AuditError::Verify(error)),
        },
        Ok(None) => Ok(None),
        Err(error) => Err(error),
    }
}

/// The bytes that a signature of these bytes signs say what the object says.
fn signature_signs_object(kind: Kind, hash_kind: hash::Kind, bytes: &[u8])
    ensures { (signature signed : List ℕ)
        → IsObjectSignature kind hash_kind bytes.now signature signed
        → SignsObject kind hash_kind bytes.now signature signed }
{
    received_commits_are_signed();
    received_tags_are_signed();
}

/// Returns the signature of an object, and what it signs.
fn signature_of(
    alloc: Global,
    kind: Kind,
    hash_kind: hash::Kind,
    bytes: &[u8],
) -> Result<Option<(CowSlice<'_, u8>, SignedData<'_>)>, AuditError>
    ensures found { IfOk result (FindsSignature kind hash_kind bytes.now) }
    ensures error { IfErr result (IsSignatureError kind hash_kind bytes.now) }
{
    match kind {
        Kind::Commit => match CommitRefIter::signature(alloc, bytes, hash_kind) {
            Ok(found) => Ok(found),
            Err(error) => Err(AuditError::Read(error)),
        },
        Kind::Tag => match TagRefIter::signature(bytes) {
            Some((signature, signed)) => Ok(Some((
                CowSlice::Borrowed(signature.bytes.as_bytes()),
                signed,
            ))),
            None => Ok(None),
        },
        _ => Err(AuditError::NoRelease),
    }
}

/// Has a runner verify a signature of these bytes.
fn verified<R: Runner>(
    alloc: Global,
    found: (CowSlice<'_, u8>, SignedData<'_>),
    options: Options,
    runner: &mut R,
) -> Result<Outcome, verify::Error>
    ensures outcome { IsOutcomeOfVerifying R.runs (verify_options_view options)
        (cow_slice_items found.entry.0) (signed_bytes found.entry.1) runner.old result runner.new }
    ensures accepted { IfOk result (λ outcome. (outcome_view outcome).valid ≡ true
        → Vouches R.runs (verify_options_view options) (cow_slice_items found.entry.0)
        (signed_bytes found.entry.1) runner.old (outcome_view outcome) runner.new) }
{
    let (signature, signed) = found;
    signed.verify(alloc, BStr::new(signature.as_slice()), options, runner)
}
