//! Splits byte strings at a byte, and decodes decimal numbers. Nothing here allocates.
ghost use Rattle.std.specs.Prelude.{◌≡◌, ◌↔◌, ◌<◌, ◌^◌, Contains, IfSome, IfNone, IsTrue, MatchBool};
ghost use Rattle.std.specs.Option.{SomeIff};
ghost use Rattle.std.specs.Str.Parse.{AllDigits, IsNumeral, digits_value};
ghost use Rattle.gixobj_hash.specs.ByteStrings.{IsByteFree, SplitsAt, SplitsAtLast};

use bstr::ByteSlice;

/// Returns the bytes before and after the first occurrence of a byte, or `None` if there is none.
/// Allocates nothing.
#[inline(always)]
pub fn split_at_byte(input: &[u8], byte: u8) -> Option<(&[u8], &[u8])>
    ensures found { IfSome result (λ parts. SplitsAt byte input.now parts.0.now parts.1.now) }
    ensures none { IfNone result (IsByteFree byte input.now) }
{
    let at = input.find_byte(byte)?;
    Some((&input[..at], &input[at + 1..]))
}

/// Returns the bytes before and after the last occurrence of a byte, or `None` if there is none.
/// Allocates nothing.
pub fn split_at_last_byte(input: &[u8], byte: u8) -> Option<(&[u8], &[u8])>
    ensures found { IfSome result (λ parts. SplitsAtLast byte input.now parts.0.now parts.1.now) }
    ensures none { IfNone result (IsByteFree byte input.now) }
{
    let last = input.rfind_byte(byte)?;
    Some((&input[..last], &input[last + 1..]))
}

/// Returns whether a byte occurs in the content. Allocates nothing.
pub fn has_byte(content: &[u8], byte: u8) -> bool
    ensures { MatchBool result (Contains content.now byte) (IsByteFree byte content.now) }
{
    content.contains(&byte)
}

/// Returns whether all bytes are ASCII digits, `0` to `9`. It holds for empty content. Allocates nothing.
pub fn are_digits(content: &[u8]) -> bool
    ensures { IsTrue result ↔ AllDigits 10 content.now }
{
    content.iter().all(|byte| byte.is_ascii_digit())
}

/// Decodes ASCII digits, at least one, as a decimal number. Returns `None` if it exceeds 64 bits.
/// Allocates nothing.
#[tactic(auto, using(std::proofs::lemmas::Int::Digits::digits_value_more, crate::proofs::Digits::digits_value_take_le, crate::proofs::Digits::digit_value_at))]
pub fn number_from_digits(digits: &[u8]) -> Option<u64>
    requires { IsNumeral 10 digits.now }
    ensures { SomeIff result (digits_value 10 digits.now < 2 ^ 64) (digits_value 10 digits.now) }
{
    let mut number = 0u64;
    for digit in digits {
        number = number
            .checked_mul(10)?
            .checked_add(u64::from(*digit - b'0'))?;
    }
    Some(number)
}
