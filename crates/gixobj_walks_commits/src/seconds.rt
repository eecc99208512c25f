//! The seconds of a committer line (git-commit-tree, "Commit Information").
ghost use Rattle.std.specs.Prelude.{◌≡◌, ◌++◌, ◌<◌, ℕ, List};
ghost use Rattle.std.specs.Char.{is_ascii_digit};
ghost use Rattle.std.specs.List.{AllPass};
ghost use Rattle.std.specs.Str.Parse.{IsNumeral, digits_value, starts_with_minus, without_leading_sign};
ghost use Rattle.gixobj_walks_commits.specs.Seconds.{EndsRun, HasSeconds, in_64_bits};
ghost use Rattle.gixobj_walks_commits.specs.Seconds.{is_white_space as is_white_space_of};

use gixobj_hash::split::{number_from_digits, split_at_byte};

/// Returns the seconds of a committer line: the bytes between `committer` with its space and the newline.
///
/// They are the number after the first `>` and white space: at most one sign, and then digits. A line
/// without a number has 0 seconds. After a minus the number counts back from 2^64, and a number that is too
/// large becomes `u64::MAX`. Allocates nothing.
pub fn seconds_of(line: &[u8]) -> u64
    ensures { HasSeconds line.now result }
{
    let Some((_, after)) = split_at_byte(line, b'>') else {
        return 0;
    };
    let (_, number) = split_white_space(after);
    let (is_minus, unsigned) = split_sign(number);
    let (digits, _) = split_digits(unsigned);
    if digits.is_empty() {
        return 0;
    }
    number_in_64_bits(is_minus, digits)
}

/// Splits the longest prefix of white space from the rest.
fn split_white_space(bytes: &[u8]) -> (&[u8], &[u8])
    ensures joined { bytes.now ≡ result.0.now ++ result.1.now }
    ensures blank { AllPass is_white_space_of result.0.now }
    ensures ends { EndsRun is_white_space_of result.1.now }
{
    let len = bytes
        .iter()
        .position(|byte| !is_white_space(*byte))
        .unwrap_or(bytes.len());
    bytes.split_at(len)
}

/// Returns whether the byte is white space in C.
fn is_white_space(byte: u8) -> bool
    ensures { result ≡ is_white_space_of byte }
{
    byte == b' ' || (b'\t' <= byte && byte <= b'\r')
}

/// Returns whether the bytes begin with a minus, and the bytes after a sign.
fn split_sign(bytes: &[u8]) -> (bool, &[u8])
    ensures sign { result.0 ≡ starts_with_minus bytes.now }
    ensures unsigned { result.1.now ≡ without_leading_sign bytes.now }
{
    match bytes {
        [b'-', unsigned @ ..] => (true, unsigned),
        [b'+', unsigned @ ..] => (false, unsigned),
        _ => (false, bytes),
    }
}

/// Splits the longest prefix of digits from the rest.
fn split_digits(bytes: &[u8]) -> (&[u8], &[u8])
    ensures joined { bytes.now ≡ result.0.now ++ result.1.now }
    ensures digits { AllPass is_ascii_digit result.0.now }
    ensures ends { EndsRun is_ascii_digit result.1.now }
{
    let len = bytes
        .iter()
        .position(|byte| !byte.is_ascii_digit())
        .unwrap_or(bytes.len());
    bytes.split_at(len)
}

/// Decodes digits after a sign, in 64 bits.
fn number_in_64_bits(is_minus: bool, digits: &[u8]) -> u64
    requires { IsNumeral 10 digits.now }
    ensures { result ≡ in_64_bits is_minus (digits_value 10 digits.now) }
{
    match number_from_digits(digits) {
        Some(size) if is_minus => size.wrapping_neg(),
        Some(size) => size,
        None => u64::MAX,
    }
}
