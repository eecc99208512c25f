//! Laws of decoding and writing tags. One of them makes a call, and its contract says what the call returns.
//! The others do nothing, and their contract is the law.
ghost use Rattle.std.specs.Prelude.{◌≡◌, ◌<◌, ◌+◌, ◌++◌, ℕ, IfErr, List, OnOk, length, vec_capacity, vec_len};
ghost use Rattle.gixobj_streams.specs.Streams.{SinkView, list_view};
ghost use Rattle.gixobj_streams.specs.Writing.{FailsAsSink, RejectsNothing, IsWritingError};
ghost use Rattle.gixobj_streams.specs.declared.encode.Error as encode;
ghost use Rattle.gixobj_hash.specs.declared.hash.kind.Kind.{Kind};
ghost use Rattle.gixobj_grammar.specs.TagPrefix.{IsTag};
ghost use Rattle.gixobj_tag.specs.NameRule.{IsTagName};
ghost use Rattle.gixobj_tag.specs.Rewriting.{AreNormalizedPartsOfTag, PreservesBody, IsNormalizedTagError};
ghost use Rattle.gixobj_tag.specs.TagOwned.{IsOwnedFormOfTag};
ghost use Rattle.gixobj_tag.specs.TagFormat.{DecodesToTag, TagLines};
ghost use Rattle.gixobj_tag.specs.TagViews.{owned_tag_lines, tag_lines};
ghost use Rattle.gixobj_tag.specs.TagWriting.{IsTagLinesError, IsOwnedTagError, encode_tag};
ghost use Rattle.gixobj_tag.specs.declared.tag.Tag.{Tag};

use crate::TagRef;
use gixobj_encode::WriteTo;
use gixobj_encode::encode::Error;
use std::alloc::Global;

/// A tag decodes uniquely: with ids of one kind, bytes decode to at most one tag.
pub fn tag_decodes_uniquely()
    ensures { (kind : Kind) (content : List ℕ) (tag tag' : TagLines) → DecodesToTag kind content tag
        → DecodesToTag kind content tag' → tag ≡ tag' }
{}

/// Bytes are the encoding of a tag by their lines and the first byte of their body if and only if they decode
/// to some tag: each body has a message, and a signature or none.
pub fn tag_recognition_agrees()
    ensures decodes { (kind : Kind) (content : List ℕ) → IsTag kind content
        → (tag : TagLines) × DecodesToTag kind content tag }
    ensures recognized { (kind : Kind) (content : List ℕ) (tag : TagLines)
        → DecodesToTag kind content tag → IsTag kind content }
{}

/// A decoded tag is encoded identically if it is unsigned, or if its message isn't newlines alone.
///
/// Writing a borrowed tag rejects nothing if its name is valid.
pub fn tag_reencodes_identically()
    ensures same_bytes { (kind : Kind) (content : List ℕ) (tag : TagLines)
        → DecodesToTag kind content tag
        → PreservesBody tag → encode_tag tag ≡ content }
    ensures no_error { (tag : TagLines) → IsTagName tag.name
        → RejectsNothing (IsTagLinesError tag) }
{}

/// The owned form of a tag has the same fields.
///
/// The id is in lower case, the tagger and its time are as they are written, and the other fields are
/// unchanged. Writing fails only if the sink fails, if the name is invalid, or if the tagger is illegal. A
/// tagger is illegal if its name or its email has a `<`, a `>` or a newline.
pub fn owned_tag_has_same_parts()
    ensures parts { (lines : TagLines) (tag : Tag) → IsOwnedFormOfTag lines tag
        → AreNormalizedPartsOfTag lines (owned_tag_lines tag) }
    ensures error { (lines : TagLines) (tag : Tag) (before after : SinkView)
        (error : encode.Error) → IsOwnedFormOfTag lines tag
        → IsWritingError (IsOwnedTagError tag) before after (encode_tag (owned_tag_lines tag)) error
        → IsNormalizedTagError lines before after (encode_tag (owned_tag_lines tag)) error }
{}

/// Appends the encoding of a tag to a list.
///
/// A decoded tag is encoded identically if it is unsigned, or if its message isn't newlines alone. The list
/// allocates the capacity that it lacks.
///
/// # Errors
///
/// - [`Error::Writer`] of kind `OutOfMemory`, if an allocation of the list fails. A proper prefix of the
///   encoding is then appended.
/// - [`Error::InvalidRefName`] or [`Error::StartsWithDash`] if the name is invalid. The lines before it are
///   then appended.
pub fn tag_decode_encode_agree(
    alloc: Global,
    tag: &TagRef<'_>,
    out: &mut Vec<u8>,
) -> Result<(), Error>
    ensures same_bytes { OnOk result ((kind : Kind) (content : List ℕ)
        → DecodesToTag kind content (tag_lines tag.now) → PreservesBody (tag_lines tag.now)
        → out.new.items ≡ out.old.items ++ content) }
    ensures error { IfErr result (IsWritingError (IsTagLinesError (tag_lines tag.now))
        (list_view out.old) (list_view out.new) (encode_tag (tag_lines tag.now))) }
    ensures fails_as_sink { IfErr result (λ error. IsTagName (tag_lines tag.now).name
        → FailsAsSink (list_view out.old) (list_view out.new) (encode_tag (tag_lines tag.now))
        error) }
{
    match tag.write_to_vec(alloc, out) {
        Ok(()) => Ok(()),
        Err(error) => Err(error),
    }
}
