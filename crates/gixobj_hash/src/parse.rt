//! Decodes object ids from hex (gitglossary, "object identifier").
ghost use Rattle.std.specs.Prelude.{◌≡◌, ◌↔◌, ◌*◌, length, IfSome, IsSome};
ghost use Rattle.std.specs.List.{AllPass, list_all};
ghost use Rattle.bstr.specs.BStr.{bstr_bytes};
ghost use Rattle.hex.specs.Hex.{is_hex_digit};
ghost use Rattle.gixobj_hash.specs.Hash.{IsIdHex, DecodesToId};
ghost use Rattle.gixobj_hash.specs.Hash.Hex.{IsIdHexOfKind, decoded_id};

use crate::hash::{Kind, ObjectId};
use bstr::BStr;

/// Returns the input as a byte string if it is the hex of an id of this kind.
///
/// Such hex has 40 digits for SHA-1 and 64 for SHA-256, of either case. Any other input yields `None`.
/// Allocates nothing.
#[inline(always)]
#[tactic(auto, using(crate::proofs::HexTests::all_pass_of_list_all, crate::proofs::HexTests::list_all_of_all_pass))]
pub fn hex_hash(content: &[u8], kind: Kind) -> Option<BStr<'_>>
    ensures accepts { IsSome result ↔ IsIdHexOfKind kind content.now }
    ensures value { IfSome result (λ it. bstr_bytes it ≡ content.now) }
{
    if content.len() == kind.len_in_hex() && are_hex(content) {
        Some(BStr::new(content))
    } else {
        None
    }
}

/// Returns whether all bytes are hex digits. No step depends on an earlier one, so that several bytes can
/// be tested at a time.
#[inline(always)]
#[tactic(auto, using(std::proofs::lemmas::List::Folds::list_all_more))]
pub(crate) fn are_hex(content: &[u8]) -> bool
    ensures { result ≡ list_all is_hex_digit content.now }
{
    let mut are = true;
    for digit in content {
        are &= digit.is_ascii_hexdigit();
    }
    are
}

/// Decodes the hex of an id: 40 or 64 digits, of either case (`gitglossary`, "object name").
///
/// The contract requires such hex. Allocates nothing.
#[tactic(auto, using(crate::proofs::HexIds::decoded_id_unique))]
pub fn id_of_hex(hex: BStr<'_>) -> ObjectId
    requires { IsIdHex (bstr_bytes hex) }
    ensures decodes { DecodesToId (bstr_bytes hex.entry) result }
    ensures value { result ≡ decoded_id (bstr_bytes hex.entry) }
{
    match ObjectId::from_hex(hex.as_bytes()) {
        Some(id) => id,
        None => unreachable!(),
    }
}
