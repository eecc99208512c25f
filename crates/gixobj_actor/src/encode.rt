//! Encodes the header fields of actors (gitdatamodel, "commits").
ghost use Rattle.std.specs.Prelude.{◌<◌, ◌+◌, ◌^◌, ◌≡◌, length, IfErr, OnOk};
ghost use Rattle.std.specs.Option.{SomeIff};
ghost use Rattle.gixobj_hash.specs.FieldFormat.{encode_field};
ghost use Rattle.gixobj_streams.specs.Streams.{AppendsAll};
ghost use Rattle.gixobj_streams.specs.Writing.{AddsSize, IsWritingError, LacksRoom};
ghost use Rattle.gixobj_actor.specs.ActorWriting.{IsLegal, IsActorFieldError, encode_owned_actor};

use crate::actor::Signature;
use gixobj_streams::encode::Error;
use gixobj_streams::streams::{Sink, write_parts};

/// Encodes the field of an actor and appends it to a sink: the name, a space, the actor and a newline
/// (gitdatamodel, "commits").
///
/// The bytes of the actor are those of [`Signature::write_to`]. Only the sink may allocate.
///
/// # Errors
///
/// - [`Error::IllegalActor`] if the name or the email of the actor has a `<`, a `>` or a newline. The
///   field's name and the space are appended then.
/// - [`Error::Writer`] with the error of the sink. A proper prefix of the field is appended then.
#[tactic(auto, using(gixobj_streams::proofs::Appends::appends_prefix_before_byte, gixobj_streams::proofs::Appends::appends_prefix_after_byte, gixobj_streams::proofs::Appends::appends_prefix_append))]
pub fn trusted_header_signature<S: Sink>(
    name: &[u8],
    actor: &Signature,
    sink: &mut S,
) -> Result<(), Error>
    ensures written { OnOk result (AppendsAll (S.view sink.old) (S.view sink.new)
        (encode_field name.now (encode_owned_actor actor.now))) }
    ensures encodable { OnOk result (IsLegal actor.now) }
    ensures error { IfErr result (IsWritingError (IsActorFieldError name.now actor.now)
        (S.view sink.old) (S.view sink.new) (encode_field name.now (encode_owned_actor actor.now))) }
    ensures room { IfErr result (LacksRoom (IsActorFieldError name.now actor.now)
        (S.view sink.old)) }
    ensures same_loan { S.loan sink.new ≡ S.loan sink.old }
{
    write_parts(&[name, b" "], sink)?;
    actor.write_with(b"\n", sink)
}

/// Adds the length of the field that [`trusted_header_signature`] appends to a size, in bytes.
///
/// Returns `None` if the sum exceeds 64 bits. An actor that can't be written has a length too. Allocates
/// nothing.
pub fn size_with_signature(size: u64, name: &[u8], actor: &Signature) -> Option<u64>
    ensures { AddsSize result size (encode_field name.now (encode_owned_actor actor.now)) }
{
    let with_name = size.checked_add(name.len() as u64)?.checked_add(2)?;
    with_name.checked_add(actor.size()?)
}
