//! Short names that NTFS has for long ones.
ghost use Rattle.std.specs.Prelude.{◌↔◌, IsTrue};
ghost use Rattle.std.specs.List.{AllByRecursion};
ghost use Rattle.gixobj_fsck_names.specs.DotFiles.{IsHashed, IsHashedName, IsNumber, IsShortName};
ghost use Rattle.gixobj_fsck_names.specs.Utf8.{IsWithin};
ghost use Rattle.gixobj_fsck_names.specs.Walks.{EndsWithDigit, HashesEach, ShortensEach};

use crate::ntfs::is_dropped;

/// Returns whether the name is a short name with this beginning, which has a tilde.
pub(crate) fn is_short_name(beginning: &[u8], name: &[u8]) -> bool
    ensures { IsTrue result ↔ IsShortName beginning.now name.now }
{
    shortens_each(name, beginning)
}

/// Returns whether the name is a short name from this hash.
pub(crate) fn is_hashed_name(hash: &[u8], name: &[u8]) -> bool
    ensures { IsTrue result ↔ IsHashedName hash.now name.now }
{
    8 <= name.len() && is_hashed(hash, &name[..8]) && is_dropped(false, &name[8..])
}

fn shortens_each(name: &[u8], letters: &[u8]) -> bool
    ensures { IsTrue result ↔ ShortensEach name.now letters.now }
{
    match letters {
        [] => ends_with_digit(name),
        [letter, letters @ ..] => match name {
            [] => false,
            [byte, name @ ..] => byte.to_ascii_lowercase() == *letter
                && shortens_each(name, letters),
        },
    }
}

fn ends_with_digit(bytes: &[u8]) -> bool
    ensures { IsTrue result ↔ EndsWithDigit bytes.now }
{
    match bytes {
        [] => false,
        [digit, rest @ ..] => b'1' <= *digit && *digit <= b'4' && is_dropped(false, rest),
    }
}

/// Returns whether the bytes are letters of the hash, a tilde and a number.
fn is_hashed(hash: &[u8], bytes: &[u8]) -> bool
    ensures { IsTrue result ↔ IsHashed hash.now bytes.now }
{
    hashes_each(bytes, hash)
}

fn hashes_each(bytes: &[u8], hash: &[u8]) -> bool
    ensures { IsTrue result ↔ HashesEach bytes.now hash.now }
{
    match bytes {
        [] => false,
        [byte, rest @ ..] => {
            *byte == b'~' && is_number(rest)
                || match hash {
                    [] => false,
                    [letter, hash @ ..] => byte.to_ascii_lowercase() == *letter
                        && hashes_each(rest, hash),
                }
        }
    }
}

/// Returns whether the bytes are a number without a first zero.
fn is_number(bytes: &[u8]) -> bool
    ensures { IsTrue result ↔ IsNumber bytes.now }
{
    match bytes {
        [] => false,
        [first, digits @ ..] => b'1' <= *first && *first <= b'9' && are_digits(digits),
    }
}

fn are_digits(bytes: &[u8]) -> bool
    ensures { IsTrue result ↔ AllByRecursion (IsWithin 48 57) bytes.now }
{
    match bytes {
        [] => true,
        [digit, digits @ ..] => b'0' <= *digit && *digit <= b'9' && are_digits(digits),
    }
}
