//! Characters in UTF-8.
ghost use Rattle.std.specs.Prelude.{◌↔◌, IsTrue};
ghost use Rattle.gixobj_fsck_names.specs.Utf8.{AreFirstOfFour, AreFirstOfThree, BeginsWithCharacter, BeginsWithFour};
ghost use Rattle.gixobj_fsck_names.specs.Utf8.{BeginsWithThree, BeginsWithTwo, IsContinuation};

/// Returns whether the bytes begin with a character.
pub(crate) fn begins_with_character(bytes: &[u8]) -> bool
    ensures { IsTrue result ↔ BeginsWithCharacter bytes.now }
{
    match bytes {
        [] => false,
        [first, ..] => *first < 0x80
            || begins_with_two(bytes)
            || begins_with_three(bytes)
            || begins_with_four(bytes),
    }
}

/// Returns whether the byte continues a character.
fn is_continuation(byte: u8) -> bool
    ensures { IsTrue result ↔ IsContinuation byte }
{
    0x80 <= byte && byte <= 0xbf
}

/// Returns whether the bytes begin with a character of two bytes.
fn begins_with_two(bytes: &[u8]) -> bool
    ensures { IsTrue result ↔ BeginsWithTwo bytes.now }
{
    match bytes {
        [first, second, ..] => 0xc2 <= *first && *first <= 0xdf && is_continuation(*second),
        _ => false,
    }
}

/// Returns whether a character of three bytes has these first two.
fn are_first_of_three(first: u8, second: u8) -> bool
    ensures { IsTrue result ↔ AreFirstOfThree first second }
{
    match first {
        0xe0 => 0xa0 <= second && second <= 0xbf,
        0xed => 0x80 <= second && second <= 0x9f,
        0xe1..=0xef => is_continuation(second),
        _ => false,
    }
}

/// Returns whether the bytes begin with a character of three bytes, other than U+FFFE and U+FFFF.
fn begins_with_three(bytes: &[u8]) -> bool
    ensures { IsTrue result ↔ BeginsWithThree bytes.now }
{
    match bytes {
        [first, second, third, ..] => {
            are_first_of_three(*first, *second)
                && is_continuation(*third)
                && !(*first == 0xef && *second == 0xbf && 0xbe <= *third)
        }
        _ => false,
    }
}

/// Returns whether a character of four bytes has these first two.
fn are_first_of_four(first: u8, second: u8) -> bool
    ensures { IsTrue result ↔ AreFirstOfFour first second }
{
    match first {
        0xf0 => 0x90 <= second && second <= 0xbf,
        0xf4 => 0x80 <= second && second <= 0x8f,
        0xf1..=0xf3 => is_continuation(second),
        _ => false,
    }
}

/// Returns whether the bytes begin with a character of four bytes.
fn begins_with_four(bytes: &[u8]) -> bool
    ensures { IsTrue result ↔ BeginsWithFour bytes.now }
{
    match bytes {
        [first, second, third, fourth, ..] => {
            are_first_of_four(*first, *second)
                && is_continuation(*third)
                && is_continuation(*fourth)
        }
        _ => false,
    }
}
