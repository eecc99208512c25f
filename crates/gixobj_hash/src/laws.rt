//! Laws of ids and loose headers: round trips and unique decoding. Each function is empty; its contract is
//! the law.
ghost use Rattle.std.specs.Prelude.{◌≡◌, ◌<◌, ◌^◌, ◌++◌, ℕ, List, length};
ghost use Rattle.std.specs.List.{AllPass};
ghost use Rattle.std.specs.Str.{str_to_ascii_lowercase};
ghost use Rattle.gixobj_hash.specs.Decode.{HasLooseHeaderOfLength};
ghost use Rattle.gixobj_hash.specs.Encode.{encode_loose_header};
ghost use Rattle.gixobj_hash.specs.Hash.{IsIdHex, IsId, DecodesToId, encode_id_hex, is_lower_hex_digit};
ghost use Rattle.gixobj_hash.specs.Hash.Hex.{decoded_id};
ghost use Rattle.gixobj_hash.specs.declared.hash.object_id.ObjectId.{ObjectId};
ghost use Rattle.gixobj_hash.specs.declared.kind.Kind.{Kind};

/// An encoded loose header decodes to the same kind and size, whatever bytes follow it.
pub fn loose_header_round_trips()
    ensures { (kind : Kind) (size : ℕ) (rest : List ℕ) → size < 2 ^ 64
        → HasLooseHeaderOfLength (encode_loose_header kind size ++ rest) kind size
        (length (encode_loose_header kind size)) }
{}

/// The encoded hex of an id is in lower case, and it decodes to the same id.
pub fn hex_round_trips()
    ensures lower_case { (id : ObjectId) → IsId id → AllPass is_lower_hex_digit (encode_id_hex id) }
    ensures is_hex { (id : ObjectId) → IsId id → IsIdHex (encode_id_hex id) }
    ensures same_id { (id : ObjectId) → IsId id → DecodesToId (encode_id_hex id) id }
{}

/// Hex that decodes to an id re-encodes in lower case. Hex in lower case re-encodes identically.
pub fn hex_reencodes_identically()
    ensures lower_case { (bytes : List ℕ) (id : ObjectId) → DecodesToId bytes id
        → encode_id_hex id ≡ str_to_ascii_lowercase bytes }
    ensures same_bytes { (bytes : List ℕ) (id : ObjectId) → AllPass is_lower_hex_digit bytes
        → DecodesToId bytes id → encode_id_hex id ≡ bytes }
{}

/// The hex of an id decodes uniquely.
#[tactic(auto, using(crate::proofs::HexIds::decoded_id_decodes, crate::proofs::HexIds::decoded_id_unique))]
pub fn hex_decodes_uniquely()
    ensures decodes { (bytes : List ℕ) → IsIdHex bytes → DecodesToId bytes (decoded_id bytes) }
    ensures no_other { (bytes : List ℕ) (id : ObjectId) → DecodesToId bytes id → id
        ≡ decoded_id bytes }
{}
