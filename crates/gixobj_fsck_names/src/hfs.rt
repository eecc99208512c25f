//! Names as HFS+ takes them.
ghost use Rattle.std.specs.Prelude.{◌↔◌, ℕ, List, IsTrue, MatchOption};
ghost use Rattle.gixobj_fsck_names.specs.Hfs.{EndsOnHfs, IsIgnored, IsIgnoredBefore, IsOnHfs};
ghost use Rattle.gixobj_fsck_names.specs.Walks.{ReadsNext};

use crate::utf8::begins_with_character;

/// Returns whether HFS+ takes the name for these letters, which are no capitals.
#[cycle(hfs)]
pub(crate) fn is_on_hfs(name: &[u8], letters: &[u8]) -> bool
    ensures { IsTrue result ↔ IsOnHfs name.now letters.now }
{
    reads_next(skip_ignored(name), letters)
}

/// Returns the name without the ignored code points that it begins with.
fn skip_ignored(name: &[u8]) -> &[u8]
    ensures same { (letters : List ℕ) → IsOnHfs result.now letters ↔ IsOnHfs name.now letters }
    ensures skipped { ¬ ((rest : List ℕ) × IsIgnoredBefore rest result.now) }
{
    let mut rest = name;
    while let Some(after) = after_ignored(rest) {
        rest = after;
    }
    rest
}

/// Returns whether the first byte is the next letter, and HFS+ takes the rest for the other letters.
#[cycle(hfs)]
fn reads_next(name: &[u8], letters: &[u8]) -> bool
    ensures { IsTrue result ↔ ReadsNext name.now letters.now }
{
    match letters {
        [] => ends_on_hfs(name),
        [letter, letters @ ..] => match name {
            [] => false,
            [byte, rest @ ..] => *byte < 0x80
                && byte.to_ascii_lowercase() == *letter
                && is_on_hfs(rest, letters),
        },
    }
}

/// Returns what follows an ignored code point, or `None` if the name doesn't begin with one.
fn after_ignored(name: &[u8]) -> Option<&[u8]>
    ensures { MatchOption result (¬ ((rest : List ℕ) × IsIgnoredBefore rest name.now))
        (λ rest. IsIgnoredBefore rest.now name.now) }
{
    match name {
        [first, second, third, rest @ ..] => {
            if is_ignored(*first, *second, *third) {
                Some(rest)
            } else {
                None
            }
        }
        _ => None,
    }
}

/// Returns whether HFS+ ignores the code point of these bytes.
fn is_ignored(first: u8, second: u8, third: u8) -> bool
    ensures { IsTrue result ↔ IsIgnored first second third }
{
    match (first, second) {
        (0xe2, 0x80) => 0x8c <= third && third <= 0x8f || 0xaa <= third && third <= 0xae,
        (0xe2, 0x81) => 0xaa <= third && third <= 0xaf,
        (0xef, 0xbb) => third == 0xbf,
        _ => false,
    }
}

/// Returns whether a name ends here.
fn ends_on_hfs(name: &[u8]) -> bool
    ensures { IsTrue result ↔ EndsOnHfs name.now }
{
    match name {
        [] => true,
        [first, ..] => *first == b'/' || !begins_with_character(name),
    }
}
