//! The dates and time zones of actors.
ghost use Rattle.std.specs.Prelude.{◌≡◌, ◌^◌, ◌<◌, ◌↔◌, Err, IsTrue, MatchOption, MatchResult, Ok, ℕ};
ghost use Rattle.std.specs.Option.{SomeIff};
ghost use Rattle.gixobj_fsck.specs.Dates.{BeginsWithNoNumber, BeginsWithNumber, BeginsWithZone, DateNumber, DateStart};
ghost use Rattle.gixobj_fsck.specs.Dates.{ZonePart, is_negative, number_of, without_sign};
ghost use Rattle.gixobj_fsck.specs.Spans.{is_of_class};
ghost use Rattle.gixobj_fsck.specs.declared.spans.Class.TheVariants as class;

use crate::spans::{Class, split_span};
use gixobj_fsck_messages::Message;
use gixobj_hash::split::number_from_digits;

/// Returns the input from the date on.
///
/// # Errors
///
/// - [`Message::MissingSpaceBeforeDate`] if no space comes first.
/// - [`Message::ZeroPaddedDate`] if a zero follows, and no space after it.
pub fn after_date_start(input: &[u8]) -> Result<&[u8], Message>
    ensures { MatchResult result (λ date. DateStart input.now (Ok date.now))
        (λ fault. DateStart input.now (Err fault)) }
{
    match input {
        [b' ', b'0', b' ', ..] => Ok(&input[1..]),
        [b' ', b'0', ..] => Err(Message::ZeroPaddedDate),
        [b' ', date @ ..] => Ok(date),
        _ => Err(Message::MissingSpaceBeforeDate),
    }
}

/// Returns the input after the date and a space.
///
/// # Errors
///
/// - [`Message::BadDateOverflow`] if the number is 2^63 or more.
/// - [`Message::BadDate`] if there is no number, or no space after it.
pub fn after_date(date: &[u8]) -> Result<&[u8], Message>
    ensures { MatchResult result (λ zone. DateNumber date.now (Ok zone.now))
        (λ fault. DateNumber date.now (Err fault)) }
{
    let Some((number, rest)) = split_number(date) else {
        return Err(Message::BadDate);
    };
    if number >= 1 << 63 {
        return Err(Message::BadDateOverflow);
    }
    match rest {
        [b' ', zone @ ..] => Ok(zone),
        _ => Err(Message::BadDate),
    }
}

/// Splits after the number at the beginning of the date, as C's `strtoumax` takes it.
fn split_number(date: &[u8]) -> Option<(u64, &[u8])>
    ensures { MatchOption result (BeginsWithNoNumber date.now)
        (λ it. BeginsWithNumber date.now it.0 it.1.now) }
{
    let (_, signed) = split_span(Class::White, date);
    let (negative, unsigned) = split_sign(signed);
    let (digits, rest) = split_span(Class::Digit, unsigned);
    if digits.is_empty() {
        return None;
    }
    Some((number_of(negative, number_from_digits(digits)), rest))
}

/// Returns whether the input begins with a minus, and the input without a sign at its beginning.
fn split_sign(signed: &[u8]) -> (bool, &[u8])
    ensures negative { result.0 ≡ is_negative signed.now }
    ensures unsigned { result.1.now ≡ without_sign signed.now }
{
    match signed {
        [b'-', unsigned @ ..] => (true, unsigned),
        [b'+', unsigned @ ..] => (false, unsigned),
        _ => (false, signed),
    }
}

/// Returns the number of this sign and these digits, which may exceed 64 bits.
fn number_of(negative: bool, value: Option<u64>) -> u64
    ensures { (digits : ℕ) → SomeIff value (digits < 2 ^ 64) digits → result ≡ number_of negative digits }
{
    match value {
        Some(value) if negative => value.wrapping_neg(),
        Some(value) => value,
        None => u64::MAX,
    }
}

/// Returns the input after the time zone and a newline.
///
/// # Errors
///
/// - [`Message::BadTimezone`] if there is no sign, four digits and a newline.
pub fn after_zone(input: &[u8]) -> Result<&[u8], Message>
    ensures { MatchResult result (λ rest. ZonePart input.now (Ok rest.now))
        (λ fault. ZonePart input.now (Err fault)) }
{
    match input {
        [b'+' | b'-', first, second, third, fourth, b'\n', rest @ ..]
            if are_four_digits(*first, *second, *third, *fourth) => { Ok(rest) }
        _ => Err(Message::BadTimezone),
    }
}

/// Returns whether all four bytes are decimal digits.
fn are_four_digits(first: u8, second: u8, third: u8, fourth: u8) -> bool
    ensures { IsTrue result ↔ (IsTrue (is_of_class class.Digit first) × IsTrue (is_of_class class.Digit second)
        × IsTrue (is_of_class class.Digit third) × IsTrue (is_of_class class.Digit fourth)) }
{
    is_digit(first) && is_digit(second) && is_digit(third) && is_digit(fourth)
}

/// Returns whether the byte is a decimal digit.
fn is_digit(byte: u8) -> bool
    ensures { result ≡ is_of_class class.Digit byte }
{
    48 <= byte && byte <= 57
}
