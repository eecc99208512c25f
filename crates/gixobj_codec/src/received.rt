//! Laws on the signatures of received commits and tags (gitformat-signature): which bytes they sign. These
//! functions compute nothing, and their contract is the law.
ghost use Rattle.std.specs.Prelude.{ℕ, List};
ghost use Rattle.gixobj_codec.specs.ReceivedSignatures.{HasFirstValue, SignsCommit, SignsTag, without_first_header};
ghost use Rattle.gixobj_commit.specs.CommitWriting.{encode_commit};
ghost use Rattle.gixobj_grammar.specs.CommitSignatures.{signature_field, HasCommitSignature};
ghost use Rattle.gixobj_hash.specs.declared.hash.kind.Kind.{Kind};
ghost use Rattle.gixobj_grammar.specs.Commit.{CommitLines, DecodesToCommit};
ghost use Rattle.gixobj_grammar.specs.TagSignatures.{HasTagSignature};
ghost use Rattle.gixobj_tag.specs.TagFormat.{DecodesToTag, TagLines};
ghost use Rattle.gixobj_parse.specs.declared.signature.Format.{Format};

use gixobj_tag::laws::{tag_recognition_agrees, tag_reencodes_identically};

/// The signature of a received commit signs the same commit without its first signature header.
///
/// A signature is found in bytes that decode to a commit if and only if one of its headers is a signature. It
/// is the value of the first of them, and the signed bytes are the encoding of the commit without that header.
/// To whichever commit the signed bytes decode, it has the same tree, parents, actors and message.
pub fn received_commits_are_signed()
    ensures found { (kind : Kind) (content : List ℕ) (commit : CommitLines) (signature : List ℕ)
        → DecodesToCommit kind content commit → HasFirstValue (signature_field kind) commit signature
        → HasCommitSignature kind content signature
        (encode_commit (without_first_header (signature_field kind) commit)) }
    ensures signed { (kind : Kind) (content : List ℕ) (commit : CommitLines)
        (signature signed : List ℕ)
        → DecodesToCommit kind content commit → HasCommitSignature kind content signature signed
        → SignsCommit kind commit signature signed }
{}

/// The signature of a received tag signs the same tag without it.
///
/// The signature is the tag's, and the signed bytes are the tag's payload, if its message isn't newlines
/// alone. They decode in any case, and to a tag with the same target, name and tagger.
pub fn received_tags_are_signed()
    ensures { (kind : Kind) (content : List ℕ) (tag : TagLines) (signature signed : List ℕ)
        (format : Format) → DecodesToTag kind content tag
        → HasTagSignature content signature signed format → SignsTag kind tag signature signed }
{
    tag_recognition_agrees();
    tag_reencodes_identically();
}
