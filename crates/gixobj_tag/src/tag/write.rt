//! Writing of tags (gitdatamodel, "tag objects"; git-check-ref-format, "DESCRIPTION").
ghost use Rattle.std.specs.Prelude.{◌≡◌, ◌↔◌, ◌<◌, ◌≤◌, ◌+◌, ◌^◌, ◌++◌, ◌∷◌, [], codes, length, IfErr, IfOk, IsOk};
ghost use Rattle.std.specs.Prelude.{OnOk};
ghost use Rattle.std.specs.Option.{SomeIff};
ghost use Rattle.bstr.specs.BStr.{bstr_bytes};
ghost use Rattle.gixobj_hash.specs.FieldFormat.{encode_field, encode_line};
ghost use Rattle.gixobj_streams.specs.Streams.{AppendsAll, AppendsOrFails};
ghost use Rattle.gixobj_streams.specs.Writing.{AddsSize, IsSize, IsWritingError, LacksRoom, RejectsNothing};
ghost use Rattle.gixobj_tag.specs.NameRule.{IsTagName, IsTagNameError};
ghost use Rattle.gixobj_tag.specs.TagFormat.{encode_target_lines};
ghost use Rattle.gixobj_tag.specs.TagWriting.{IsNameLineError, IsTagPartsError, encode_body, encode_message};
ghost use Rattle.gixobj_tag.specs.TagWriting.{encode_tag_parts, encode_signature};
ghost use Rattle.gixobj_hash.specs.Bytes.{newline};
ghost use Rattle.gixobj_hash.specs.Kind.{kind_name};
ghost use Rattle.gixobj_hash.specs.Optional.{bytes_if_some};

mod owned;

use super::TagRef;
pub use crate::name::{Error, validated_name};
use bstr::BStr;
use gixobj_actor::actor::Signature;
use gixobj_actor::encode::trusted_header_signature;
use gixobj_encode::WriteTo;
use gixobj_encode::encode::{self, size_plus_field, size_plus_id, trusted_header_id};
use gixobj_grammar::bodies::are_newlines;
use gixobj_hash::Kind;
use gixobj_hash::hash::ObjectId;
use gixobj_streams::streams::Sink;
use std::alloc::Global;
use std::io;

/// Writes the tag, with the target's hex and the value of the tagger line unchanged.
///
/// A newline precedes the message, unless it consists of newlines alone. Another one precedes the signature.
/// Only the sink may allocate.
///
/// # Errors
///
/// - [`encode::Error::InvalidRefName`] or [`encode::Error::StartsWithDash`] if [`validated_name`] rejects the
///   name. The lines before it are then written, and no byte of its own line.
/// - [`encode::Error::Writer`] if the sink fails. A proper prefix of the encoding is then written.
impl WriteTo for TagRef<'_> {
    ghost use Rattle.gixobj_hash.specs.declared.kind.Kind.TheVariants as kind;
    ghost use Rattle.gixobj_tag.specs.TagViews.{tag_lines};
    ghost use Rattle.gixobj_tag.specs.TagWriting.{IsTagLinesError, encode_tag};

    ghost object_kind = { λ _. kind.Tag };

    ghost encoding = { λ tag. encode_tag (tag_lines tag) };

    ghost rejects = { λ tag. IsTagLinesError (tag_lines tag) };

    fn write_into<S: Sink>(&self, _alloc: Global, sink: &mut S) -> Result<(), encode::Error> {
        match write_tag(
            &self.target,
            self.target_kind,
            self.name,
            &self.tagger,
            self.message,
            self.signature,
            sink,
        ) {
            Ok(()) => Ok(()),
            Err(error) => Err(error),
        }
    }

    fn kind(&self) -> Kind {
        Kind::Tag
    }

    fn size(&self) -> Option<u64> {
        let unsigned = unsigned_size(
            &self.target,
            self.target_kind,
            self.name,
            &self.tagger,
            self.message,
        )?;
        size_with_signature(unsigned, self.signature)
    }
}

/// Writes the lines of the target, its kind, the name and the tagger, and then the body.
fn write_tag<'a, T: Target, A: Tagger, S: Sink>(
    target: &T,
    target_kind: Kind,
    name: BStr<'_>,
    tagger: &A,
    message: BStr<'a>,
    signature: Option<BStr<'a>>,
    sink: &mut S,
) -> Result<(), encode::Error>
    ensures written { OnOk result (AppendsAll (S.view sink.old) (S.view sink.new)
        (encode_tag_parts (T.target_line target.now) target_kind (bstr_bytes name.entry)
        (A.tagger_line tagger.now) (encode_body (bstr_bytes message.entry)
        (bytes_if_some signature.entry)))) }
    ensures no_error { OnOk result
        (RejectsNothing (IsTagPartsError (encode_target_lines (T.target_line target.now) target_kind)
        (bstr_bytes name.entry) (A.rejects tagger.now))) }
    ensures error { IfErr result (IsWritingError
        (IsTagPartsError (encode_target_lines (T.target_line target.now) target_kind) (bstr_bytes name.entry)
        (A.rejects tagger.now)) (S.view sink.old) (S.view sink.new)
        (encode_tag_parts (T.target_line target.now) target_kind (bstr_bytes name.entry)
        (A.tagger_line tagger.now) (encode_body (bstr_bytes message.entry)
        (bytes_if_some signature.entry)))) }
    ensures room { IfErr result (LacksRoom
        (IsTagPartsError (encode_target_lines (T.target_line target.now) target_kind) (bstr_bytes name.entry)
        (A.rejects tagger.now)) (S.view sink.old)) }
    ensures same_loan { S.loan sink.new ≡ S.loan sink.old }
{
    write_lines(target, target_kind, name, tagger, sink)?;
    write_body(message, signature, sink)?;
    Ok(())
}

/// Writes the lines before the body: those of the target, its kind, the name and the tagger.
#[inline(always)]
fn write_lines<T: Target, A: Tagger, S: Sink>(
    target: &T,
    target_kind: Kind,
    name: BStr<'_>,
    tagger: &A,
    sink: &mut S,
) -> Result<(), encode::Error>
    ensures written { OnOk result (AppendsAll (S.view sink.old) (S.view sink.new)
        (encode_target_lines (T.target_line target.now) target_kind ++ encode_field (codes "tag")
        (bstr_bytes name.entry) ++ A.tagger_line tagger.now)) }
    ensures no_error { OnOk result
        (RejectsNothing (IsTagPartsError (encode_target_lines (T.target_line target.now) target_kind)
        (bstr_bytes name.entry) (A.rejects tagger.now))) }
    ensures error { IfErr result (IsWritingError
        (IsTagPartsError (encode_target_lines (T.target_line target.now) target_kind) (bstr_bytes name.entry)
        (A.rejects tagger.now)) (S.view sink.old) (S.view sink.new)
        (encode_target_lines (T.target_line target.now) target_kind ++ encode_field (codes "tag")
        (bstr_bytes name.entry) ++ A.tagger_line tagger.now)) }
    ensures room { IfErr result (LacksRoom
        (IsTagPartsError (encode_target_lines (T.target_line target.now) target_kind) (bstr_bytes name.entry)
        (A.rejects tagger.now)) (S.view sink.old)) }
    ensures same_loan { S.loan sink.new ≡ S.loan sink.old }
{
    write_target(target, target_kind, sink)?;
    write_name(name, sink)?;
    tagger.write_tagger(sink)
}

/// The number of bytes of `type` and `tag`, each with a space and a newline.
const LABELS_LEN: u64 = 11;

/// The number of bytes of `tagger` with a space and a newline.
const TAGGER_LEN: u64 = 8;

/// Returns the number of bytes that [`write_tag`] writes without a signature, or `None` over 64 bits.
fn unsigned_size<T: Target, A: Tagger>(
    target: &T,
    target_kind: Kind,
    name: BStr<'_>,
    tagger: &A,
    message: BStr<'_>,
) -> Option<u64>
    ensures { IsSize result (encode_tag_parts (T.target_line target.now) target_kind
        (bstr_bytes name.entry) (A.tagger_line tagger.now)
        (encode_message (bstr_bytes message.entry))) }
{
    let with_kind = LABELS_LEN + target_kind.as_bytes().len() as u64;
    let targeted = target.size_with_target(with_kind)?;
    let named = targeted.checked_add(name.as_bytes().len() as u64)?;
    let tagged = tagger.size_with_tagger(named)?;
    tagged.checked_add(message.as_bytes().len() as u64 + opening(message).len() as u64)
}

/// The tagged object, by its hex or by its id.
trait Target {
    ghost use Rattle.std.specs.Prelude.{ℕ, List};

    /// The encoding of the `object` line.
    ghost target_line: { Self → List ℕ };

    /// Writes the `object` line.
    fn write_target_line<S: Sink>(&self, sink: &mut S) -> io::Result<()>
        ensures appended { AppendsOrFails result (S.view sink.old) (S.view sink.new)
            (target_line self.now) }
        ensures same_loan { S.loan sink.new ≡ S.loan sink.old };

    /// Adds the size of the `object` line to `size`, or returns `None` above 64 bits.
    fn size_with_target(&self, size: u64) -> Option<u64>
        ensures { AddsSize result size (target_line self.now) };
}

/// The target by its id in hex.
impl Target for BStr<'_> {
    ghost use Rattle.std.specs.Prelude.{codes};
    ghost use Rattle.bstr.specs.BStr.{bstr_bytes};
    ghost use Rattle.gixobj_hash.specs.FieldFormat.{encode_field};

    ghost target_line = { λ hex. encode_field (codes "object") (bstr_bytes hex) };

    fn write_target_line<S: Sink>(&self, sink: &mut S) -> io::Result<()> {
        write_line(b"object ", self.as_bytes(), sink)
    }

    fn size_with_target(&self, size: u64) -> Option<u64> {
        size_plus_field(size, b"object", self.as_bytes())
    }
}

impl Target for ObjectId {
    ghost use Rattle.std.specs.Prelude.{codes};
    ghost use Rattle.gixobj_hash.specs.FieldFormat.{encode_field};
    ghost use Rattle.gixobj_hash.specs.Hash.{encode_id_hex};

    ghost target_line = { λ id. encode_field (codes "object") (encode_id_hex id) };

    fn write_target_line<S: Sink>(&self, sink: &mut S) -> io::Result<()> {
        trusted_header_id(b"object", self, sink)
    }

    fn size_with_target(&self, size: u64) -> Option<u64> {
        size_plus_id(size, b"object", self)
    }
}

/// The tagger, by its line or as an actor, if there is one.
trait Tagger {
    ghost use Rattle.std.specs.Prelude.{ℕ, List};
    ghost use Rattle.gixobj_streams.specs.Writing.{RejectedValue};

    /// The encoding of the `tagger` line, or nothing without a tagger.
    ghost tagger_line: { Self → List ℕ };

    /// Whether this value is rejected after these parts of the line, and no others.
    ghost rejects: { Self → RejectedValue → List ℕ → Type 0 };

    /// Writes the `tagger` line, or nothing without a tagger.
    fn write_tagger<S: Sink>(&self, sink: &mut S) -> Result<(), encode::Error>
        ensures written { OnOk result (AppendsAll (S.view sink.old) (S.view sink.new)
            (tagger_line self.now)) }
        ensures no_error { OnOk result (RejectsNothing (rejects self.now)) }
        ensures error { IfErr result (IsWritingError (rejects self.now) (S.view sink.old)
            (S.view sink.new) (tagger_line self.now)) }
        ensures room { IfErr result (LacksRoom (rejects self.now) (S.view sink.old)) }
        ensures same_loan { S.loan sink.new ≡ S.loan sink.old };

    /// Adds the size of the `tagger` line to `size`, or returns `None` above 64 bits.
    fn size_with_tagger(&self, size: u64) -> Option<u64>
        ensures { AddsSize result size (tagger_line self.now) };
}

/// The tagger by the value of its line.
impl Tagger for Option<BStr<'_>> {
    ghost use Rattle.gixobj_tag.specs.TagFormat.{encode_tagger};
    ghost use Rattle.gixobj_hash.specs.Optional.{bytes_if_some};

    ghost tagger_line = { λ line. encode_tagger (bytes_if_some line) };

    ghost rejects = { λ _ _ _. ⊥ };

    fn write_tagger<S: Sink>(&self, sink: &mut S) -> Result<(), encode::Error> {
        match self {
            Some(line) => {
                write_line(b"tagger ", line.as_bytes(), sink)?;
                Ok(())
            }
            None => Ok(()),
        }
    }

    fn size_with_tagger(&self, size: u64) -> Option<u64> {
        match self {
            Some(line) => size_plus_field(size, b"tagger", line.as_bytes()),
            None => Some(size),
        }
    }
}

impl Tagger for Option<Signature> {
    ghost use Rattle.gixobj_tag.specs.TagFormat.{encode_tagger};
    ghost use Rattle.gixobj_tag.specs.TagViews.{owned_tagger};
    ghost use Rattle.gixobj_tag.specs.TagWriting.{IsTaggerError};

    ghost tagger_line = { λ tagger. encode_tagger (owned_tagger tagger) };

    ghost rejects = { IsTaggerError };

    fn write_tagger<S: Sink>(&self, sink: &mut S) -> Result<(), encode::Error> {
        match self {
            Some(actor) => trusted_header_signature(b"tagger", actor, sink),
            None => Ok(()),
        }
    }

    fn size_with_tagger(&self, size: u64) -> Option<u64> {
        match self {
            Some(actor) => size.checked_add(actor.size()?)?.checked_add(TAGGER_LEN),
            None => Some(size),
        }
    }
}

/// Writes the lines of the target and of its kind.
fn write_target<T: Target, S: Sink>(target: &T, kind: Kind, sink: &mut S) -> io::Result<()>
    ensures appended { AppendsOrFails result (S.view sink.old) (S.view sink.new)
        (encode_target_lines (T.target_line target.now) kind) }
    ensures same_loan { S.loan sink.new ≡ S.loan sink.old }
{
    target.write_target_line(sink)?;
    sink.write_bytes(kind_line(kind))
}

/// Returns the line of a kind.
#[inline(always)]
fn kind_line(kind: Kind) -> &'static [u8]
    ensures { result.now ≡ encode_field (codes "type") (kind_name kind) }
{
    match kind {
        Kind::Tree => b"type tree\n",
        Kind::Blob => b"type blob\n",
        Kind::Commit => b"type commit\n",
        Kind::Tag => b"type tag\n",
    }
}

/// Writes the line of a name, or rejects the name.
#[tactic(auto, using(gixobj_streams::proofs::Appends::appends_all_nil))]
fn write_name<S: Sink>(name: BStr<'_>, sink: &mut S) -> Result<(), encode::Error>
    ensures written { OnOk result (AppendsAll (S.view sink.old) (S.view sink.new)
        (encode_field (codes "tag") (bstr_bytes name.entry))) }
    ensures valid { OnOk result (IsTagName (bstr_bytes name.entry)) }
    ensures error { IfErr result (IsWritingError (IsNameLineError (bstr_bytes name.entry))
        (S.view sink.old) (S.view sink.new) (encode_field (codes "tag") (bstr_bytes name.entry))) }
    ensures room { IfErr result (LacksRoom (IsNameLineError (bstr_bytes name.entry))
        (S.view sink.old)) }
    ensures same_loan { S.loan sink.new ≡ S.loan sink.old }
{
    let name = validated_name(name)?;
    write_line(b"tag ", name.as_bytes(), sink)?;
    Ok(())
}

/// Writes a line: the name of its field with a space, the value and a newline.
#[inline(always)]
fn write_line<S: Sink>(prefix: &[u8], value: &[u8], sink: &mut S) -> io::Result<()>
    ensures appended { AppendsOrFails result (S.view sink.old) (S.view sink.new)
        (prefix.now ++ encode_line value.now) }
    ensures same_loan { S.loan sink.new ≡ S.loan sink.old }
{
    sink.write_bytes(prefix)?;
    write_value(value, sink)
}

/// Writes a value and the newline that ends its line.
#[inline(always)]
fn write_value<S: Sink>(value: &[u8], sink: &mut S) -> io::Result<()>
    ensures appended { AppendsOrFails result (S.view sink.old) (S.view sink.new)
        (encode_line value.now) }
    ensures same_loan { S.loan sink.new ≡ S.loan sink.old }
{
    sink.write_bytes(value)?;
    sink.write_bytes(b"\n")
}

/// Writes the message and the signature.
#[inline(always)]
fn write_body<S: Sink>(
    message: BStr<'_>,
    signature: Option<BStr<'_>>,
    sink: &mut S,
) -> io::Result<()>
    ensures appended { AppendsOrFails result (S.view sink.old) (S.view sink.new)
        (encode_body (bstr_bytes message.entry) (bytes_if_some signature.entry)) }
    ensures same_loan { S.loan sink.new ≡ S.loan sink.old }
{
    write_message(message, sink)?;
    write_signature(signature, sink)
}

/// Writes the message.
#[inline(always)]
fn write_message<S: Sink>(message: BStr<'_>, sink: &mut S) -> io::Result<()>
    ensures appended { AppendsOrFails result (S.view sink.old) (S.view sink.new)
        (encode_message (bstr_bytes message.entry)) }
    ensures same_loan { S.loan sink.new ≡ S.loan sink.old }
{
    sink.write_bytes(opening(message))?;
    sink.write_bytes(message.as_bytes())
}

/// Writes a newline and the signature, or nothing without one.
#[inline(always)]
#[tactic(auto, using(gixobj_streams::proofs::Appends::appends_all_nil))]
fn write_signature<S: Sink>(signature: Option<BStr<'_>>, sink: &mut S) -> io::Result<()>
    ensures appended { AppendsOrFails result (S.view sink.old) (S.view sink.new)
        (encode_signature (bytes_if_some signature.entry)) }
    ensures same_loan { S.loan sink.new ≡ S.loan sink.old }
{
    match signature {
        Some(signature) => write_after_newline(signature, sink),
        None => Ok(()),
    }
}

/// Writes a newline and then these bytes.
#[inline(always)]
fn write_after_newline<S: Sink>(content: BStr<'_>, sink: &mut S) -> io::Result<()>
    ensures appended { AppendsOrFails result (S.view sink.old) (S.view sink.new)
        (newline ∷ bstr_bytes content.entry) }
    ensures same_loan { S.loan sink.new ≡ S.loan sink.old }
{
    sink.write_bytes(b"\n")?;
    sink.write_bytes(content.as_bytes())
}

/// Returns the newline before the message, or no bytes before a message of newlines alone.
fn opening(message: BStr<'_>) -> &[u8]
    ensures encoded { encode_message (bstr_bytes message.entry)
        ≡ result.now ++ bstr_bytes message.entry }
    ensures max_len { length result.now ≤ 1 }
{
    if are_newlines(message.as_bytes()) {
        b""
    } else {
        b"\n"
    }
}

/// Adds the size of the signature and of the newline before it, if there is one, or returns `None` over 64
/// bits.
#[inline(always)]
fn size_with_signature(size: u64, signature: Option<BStr<'_>>) -> Option<u64>
    ensures { AddsSize result size (encode_signature (bytes_if_some signature.entry)) }
{
    match signature {
        Some(signature) => size.checked_add(1 + signature.as_bytes().len() as u64),
        None => Some(size),
    }
}
