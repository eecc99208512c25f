//! Laws on the payloads of signed commits and tags (gitformat-signature). Two functions sign, and their
//! contracts state the result; the others compute nothing, and their contract is the law.
ghost use Rattle.std.specs.Prelude.{◌≡◌, ℕ, IfErr, IfNone, IfOk, IfSome, List, Option, Some};
ghost use Rattle.gixobj_commit.specs.CommitSigning.{IsCommitSigningError, IsSignedCommit, payload_of_commit};
ghost use Rattle.gixobj_commit.specs.CommitSigning.{with_signature};
ghost use Rattle.gixobj_commit.specs.CommitViews.{owned_commit_lines};
ghost use Rattle.gixobj_commit.specs.CommitWriting.{IsOwnedCommitError, encode_commit};
ghost use Rattle.gixobj_streams.specs.Writing.{RejectsNothing};
ghost use Rattle.gixobj_hash.specs.Hash.{id_kind};
ghost use Rattle.gixobj_hash.specs.declared.decode.Error.TheVariants.{Malformed};
ghost use Rattle.gixobj_hash.specs.declared.hash.kind.Kind.{Kind};
ghost use Rattle.gixobj_grammar.specs.Commit.{CommitLines, DecodesToCommit, IsCommit};
ghost use Rattle.gixobj_codec.specs.SameSignatures.{AreSameSignatures};
ghost use Rattle.gixobj_codec.specs.LineFields.{HasHeaderNames, HasLineFields};
ghost use Rattle.gixobj_codec.specs.OneMarker.{HasOneMarker};
ghost use Rattle.gixobj_codec.specs.SignedEncodings.{CommitPayloadIsSigned, FindsSigned, FindsTagSignature};
ghost use Rattle.gixobj_codec.specs.SignedEncodings.{TagPayloadIsSigned, decoded_value};
ghost use Rattle.gixobj_parse.specs.Markers.{HasNoMarker};
ghost use Rattle.gixobj_parse.specs.declared.signature.Format.{Format};
ghost use Rattle.gixobj_parse.specs.declared.signature.SignatureRef.{SignatureRef};
ghost use Rattle.gixobj_tokens.specs.TagExtracting.{FindsSignatureOfTag};
ghost use Rattle.gixobj_grammar.specs.TagSignatures as tags;
ghost use Rattle.gixobj_tag.specs.Signed.{IsSignature};
ghost use Rattle.gixobj_tag.specs.TagSigning as tag_signing;
ghost use Rattle.gixobj_tag.specs.TagFormat.{DecodesToTag, TagLines};
ghost use Rattle.gixobj_tag.specs.TagViews as tag_views;
ghost use Rattle.gixobj_tag.specs.TagWriting.{encode_tag};
ghost use Rattle.gixobj_grammar.specs.CommitSignatures.{HasNoSignature, HasCommitSignature, IsCommitSignatureError};
ghost use Rattle.gixobj_signature.specs.declared.signature.signed_data.SignedData.{SignedData};

use crate::one_line::{actor_has_one_line, id_has_one_line, ids_have_one_line};
use gixobj_commit::Commit;
use gixobj_signature::signature::Runner;
use gixobj_signature::signature::sign::{Error, Options};
use gixobj_tag::Tag;
use std::alloc::Global;

/// The payload that is found in a signed commit is the one that was signed.
///
/// In the encoding of a signed commit the search for a signature never returns `None`, and it finds the
/// signature if and only if the encoding decodes. All this needs only valid header names, and no newline in
/// fields of one line. In the encoding of a commit the search never fails with `Malformed`.
pub fn commit_payloads_are_signed()
    ensures payload { (kind : Kind) (commit : CommitLines) (bytes value signed : List ℕ)
        → HasHeaderNames commit → HasLineFields commit
        → HasCommitSignature kind (encode_commit (with_signature kind bytes commit)) value signed
        → signed ≡ payload_of_commit kind commit }
    ensures found { (kind : Kind) (commit : CommitLines) (bytes : List ℕ) → HasHeaderNames commit
        → HasLineFields commit → ¬ HasNoSignature kind
        (encode_commit (with_signature kind bytes commit)) }
    ensures value { (kind : Kind) (commit : CommitLines) (bytes value signed : List ℕ)
        → HasHeaderNames commit → HasLineFields commit
        → HasCommitSignature kind (encode_commit (with_signature kind bytes commit)) value signed
        → value ≡ decoded_value bytes }
    ensures decoded { (kind : Kind) (commit : CommitLines) (bytes : List ℕ) → HasHeaderNames commit
        → HasLineFields commit → IsCommit kind (encode_commit (with_signature kind bytes commit))
        → HasCommitSignature kind (encode_commit (with_signature kind bytes commit))
        (decoded_value bytes) (payload_of_commit kind commit) }
    ensures decodes { (kind : Kind) (commit : CommitLines) (bytes value signed : List ℕ)
        → HasHeaderNames commit → HasLineFields commit
        → HasCommitSignature kind (encode_commit (with_signature kind bytes commit)) value signed
        → IsCommit kind (encode_commit (with_signature kind bytes commit)) }
    ensures no_error { (kind : Kind) (content : List ℕ) (read : CommitLines)
        → DecodesToCommit kind content read → ¬ IsCommitSignatureError kind content Malformed }
{}

/// An owned commit of which the encoder rejects nothing has no newline in a field of one line.
///
/// The encoder rejects nothing of a commit that [`Commit::sign`] signed.
pub fn owned_commits_have_line_fields(commit: &Commit)
    ensures { RejectsNothing (IsOwnedCommitError commit.now)
        → HasLineFields (owned_commit_lines commit.now) }
{
    id_has_one_line(&commit.tree);
    ids_have_one_line(commit.parents.as_slice());
    actor_has_one_line(&commit.author);
    actor_has_one_line(&commit.committer);
}

/// Signs a commit by [`Commit::sign`].
///
/// If the header names are valid, the search for a signature in the encoding of the signed commit never
/// returns `None`. If the encoding decodes, it finds the signer's signature. The payload that it finds is the
/// one that the signer got. Allocates what [`Commit::sign`] allocates.
///
/// # Errors
///
/// Any error of [`Commit::sign`].
pub fn signed_commit_has_payload<R: Runner>(
    alloc: Global,
    commit: Commit,
    options: Options,
    runner: &mut R,
) -> Result<Commit, Error>
    ensures signed { IfOk result (IsSignedCommit R.runs options commit runner.old runner.new) }
    ensures error { IfErr result (IsCommitSigningError R.runs options commit
        runner.old runner.new) }
    ensures found { IfOk result (λ signed. HasHeaderNames (owned_commit_lines commit)
        → ¬ HasNoSignature (id_kind commit.tree) (encode_commit (owned_commit_lines signed))) }
    ensures decoded { IfOk result (λ signed. HasHeaderNames (owned_commit_lines commit)
        → IsCommit (id_kind commit.tree) (encode_commit (owned_commit_lines signed))
        → FindsSigned R.runs options (id_kind commit.tree)
        (encode_commit (owned_commit_lines signed)) runner.old runner.new) }
    ensures payload { IfOk result (λ signed. HasHeaderNames (owned_commit_lines commit)
        → CommitPayloadIsSigned R.runs options (id_kind commit.tree)
        (encode_commit (owned_commit_lines signed)) runner.old runner.new) }
{
    owned_commits_have_line_fields(&commit);
    commit.sign(alloc, options, runner)
}

/// The payload that is found in a signed tag is the one that was signed, and the signature is the signer's.
///
/// In the encoding of a signed tag a signature is found. The signature must begin with a marker, and no
/// other line of it may begin with one.
pub fn tag_payloads_are_signed()
    ensures found { (lines : TagLines) (bytes : List ℕ) → HasOneMarker bytes
        → ¬ HasNoMarker (encode_tag (tag_signing.signed_as (Some bytes) lines)) }
    ensures payload { (lines : TagLines) (bytes signature signed : List ℕ) (format : Format)
        → HasOneMarker bytes → tags.HasTagSignature (encode_tag (tag_signing.signed_as (Some bytes) lines))
        signature signed format → (signed ≡ tag_signing.payload_of_tag lines) × (signature ≡ bytes) }
{}

/// Signs a tag by [`Tag::sign`].
///
/// If the signer's bytes begin with their one marker, a signature is found in the encoding, and it is these
/// bytes. The payload that is found with it is the one that the signer got. Allocates what [`Tag::sign`]
/// allocates.
///
/// # Errors
///
/// Any error of [`Tag::sign`].
pub fn signed_tag_has_payload<R: Runner>(
    alloc: Global,
    tag: Tag,
    options: Options,
    runner: &mut R,
) -> Result<Tag, Error>
    ensures signed { IfOk result (tag_signing.IsSignedTag R.runs options tag
        runner.old runner.new) }
    ensures error { IfErr result (tag_signing.IsTagSigningError R.runs options tag
        runner.old runner.new) }
    ensures found { IfOk result (λ signed. FindsTagSignature R.runs options
        (encode_tag (tag_views.owned_tag_lines signed)) runner.old runner.new) }
    ensures payload { IfOk result (λ signed. TagPayloadIsSigned R.runs options
        (encode_tag (tag_views.owned_tag_lines signed)) runner.old runner.new) }
{
    tag.sign(alloc, options, runner)
}

/// `TagRef::signature` and `TagRefIter::signature` find the same signature in the encoding of a tag, or both
/// find none.
pub fn tag_signatures_agree()
    ensures { (kind : Kind) (content : List ℕ) (lines : TagLines) (own : Option SignatureRef)
        (found : Option (SignatureRef × SignedData)) → DecodesToTag kind content lines
        → IsSignature lines.signature own → IfSome found (FindsSignatureOfTag content)
        → IfNone found (HasNoMarker content) → AreSameSignatures own found }
{}
