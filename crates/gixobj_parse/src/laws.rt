//! Laws of header fields and of signature markers. The contract of each function is the law, and its body is empty.
ghost use Rattle.std.specs.Prelude.{◌≡◌, ℕ, List};
ghost use Rattle.gixobj_hash.specs.HeaderFormat.{BeginsWithField, BeginsWithHeader, Header};

mod signatures;

pub use signatures::{marker_position_is_unique, signature_format_is_unique};

/// A header field decodes uniquely.
///
/// An input begins with at most one field of a name, and with at most one header.
pub fn header_field_decodes_uniquely()
    ensures one_field { (name input value rest value' rest' : List ℕ)
        → BeginsWithField name input value rest → BeginsWithField name input value' rest' → (value ≡ value')
        × (rest ≡ rest') }
    ensures one_header { (input : List ℕ) (header header' : Header) (rest rest' : List ℕ)
        → BeginsWithHeader input header rest → BeginsWithHeader input header' rest' → (header ≡ header')
        × (rest ≡ rest') }
{}
