//! The entries of a tree as `git fsck` reads them.
ghost use Rattle.std.specs.Prelude.{◌≡◌, ◌≢◌, ◌↔◌, ◌<◌, ◌≤◌, ◌+◌, ◌^◌, ◌%◌, IfNone, IfSome, IsTrue, List, length};
ghost use Rattle.std.specs.Str.Parse.{AllDigits, IsNumeral, digits_value};
ghost use Rattle.gixobj_fsck_trees.specs.RawViews.{raw_entry_view};
ghost use Rattle.gixobj_fsck_trees.specs.RawEntries.{BeginsWithNoRawEntry, BeginsWithRawEntry};

use crate::near::split_near;
use gixobj_hash::hash::Kind;

/// An entry of a tree.
#[derive(Clone, Copy)]
pub struct RawEntry<'a> {
    /// The number of the mode in 16 bits.
    pub mode: u16,
    /// The first digit of the mode.
    pub first_digit: u8,
    /// The name.
    pub name: &'a [u8],
    /// The bytes of the id.
    pub id: &'a [u8],
    /// The offset of the entry in its tree.
    pub offset: usize,
    /// The offset after the entry.
    pub end: usize,
}

/// Decodes the entry at the beginning of the input, the last bytes of a tree of this length.
///
/// Returns the entry and the rest, or `None` if there is no entry.
pub(crate) fn decode_raw_entry(
    input: &[u8],
    len: usize,
    hash_kind: Kind,
) -> Option<(RawEntry<'_>, &[u8])>
    requires { length input.now ≤ len }
    ensures found { IfSome result (λ it.
        BeginsWithRawEntry hash_kind input.now (raw_entry_view it.0) it.1.now) }
    ensures none { IfNone result (BeginsWithNoRawEntry hash_kind input.now) }
    ensures offset { IfSome result (λ it. it.0.offset + length input.now ≡ len) }
    ensures end { IfSome result (λ it. it.0.end + length it.1.now ≡ len) }
    ensures shorter { IfSome result (λ it. length it.1.now < length input.now) }
{
    let Some((digits, from_name)) = split_near(input, b' ') else {
        return None;
    };
    if !is_octal_numeral(digits) {
        return None;
    }
    let Some((name, from_id)) = split_near(from_name, 0) else {
        return None;
    };
    let id_len = hash_kind.len_in_bytes();
    if name.is_empty() {
        return None;
    }
    if from_id.len() < id_len {
        return None;
    }
    let (id, rest) = from_id.split_at(id_len);
    let mode = octal_number(digits);
    let first_digit = digits[0];
    Some((
        RawEntry {
            mode,
            first_digit,
            name,
            id,
            offset: len - input.len(),
            end: len - rest.len(),
        },
        rest,
    ))
}

/// Returns whether the bytes are octal digits, at least one.
fn is_octal_numeral(digits: &[u8]) -> bool
    ensures { IsTrue result ↔ IsNumeral 8 digits.now }
{
    !digits.is_empty() && are_octal(digits)
}

/// Returns whether all bytes are octal digits.
fn are_octal(digits: &[u8]) -> bool
    ensures { IsTrue result ↔ AllDigits 8 digits.now }
{
    digits.iter().all(|digit| matches!(*digit, b'0'..=b'7'))
}

/// Decodes octal digits as a number, modulo 65536.
fn octal_number(digits: &[u8]) -> u16
    requires { AllDigits 8 digits.now }
    ensures { result ≡ digits_value 8 digits.now % 2 ^ 16 }
{
    let mut number = 0u32;
    for digit in digits {
        number = (number * 8 + u32::from(*digit - b'0')) % 65536;
    }
    number as u16
}
