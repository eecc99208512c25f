//! Lemmas: the encodings of ids and of actors are one line each.
ghost use Rattle.std.specs.Prelude.{All};
ghost use Rattle.gixobj_actor.specs.ActorWriting.{IsLegal, encode_owned_actor};
ghost use Rattle.gixobj_hash.specs.Hash.{encode_id_hex};
ghost use Rattle.gixobj_hash.specs.Bytes.{newline};
ghost use Rattle.gixobj_hash.specs.ByteStrings.{IsByteFree};
ghost use Rattle.hex.specs.Hex.{IsBytes};

use gixobj_actor::actor::Signature;
use gixobj_actor::laws::actor_round_trips;
use gixobj_hash::hash::ObjectId;
use gixobj_hash::laws::hex_round_trips;

/// The hex of an id is one line.
pub(crate) fn id_has_one_line(id: &ObjectId)
    ensures { IsByteFree newline (encode_id_hex id.now) }
{
    hex_round_trips();
    are_bytes(id.as_bytes());
}

/// The items of a slice are bytes.
fn are_bytes(bytes: &[u8])
    ensures { IsBytes bytes.now }
{
    let _length = bytes.len();
}

/// The hex of each of these ids is one line.
pub(crate) fn ids_have_one_line(ids: &[ObjectId])
    ensures { All (λ id. IsByteFree newline (encode_id_hex id)) ids.now }
{
    for id in ids {
        id_has_one_line(id);
    }
}

/// The encoding of an actor that can be written is one line.
pub(crate) fn actor_has_one_line(actor: &Signature)
    ensures { IsLegal actor.now → IsByteFree newline (encode_owned_actor actor.now) }
{
    actor_round_trips();
    let _seconds = actor.time.seconds;
}
