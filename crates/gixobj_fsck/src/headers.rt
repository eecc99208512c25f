//! The headers of commits and tags.
ghost use Rattle.std.specs.Prelude.{◌≡◌, ◌≤◌, ◌<◌, ◌+◌, Err, IsTrue, MatchResult, Ok, length};
ghost use Rattle.gixobj_fsck.specs.Headers.{HeaderPart, IsPlainBetween, marks_from};

use gixobj_fsck_messages::Message;
use std::simd::prelude::*;

/// Checks the header: no zero byte comes before its end, and it has an end.
///
/// Returns the input. Allocates nothing.
///
/// # Errors
///
/// - [`Message::NulInHeader`] if a zero byte comes before the first empty line.
/// - [`Message::UnterminatedHeader`] if there is no empty line, and the last byte isn't a newline.
pub fn check_header(input: &[u8]) -> Result<&[u8], Message>
    ensures { MatchResult result (λ rest. HeaderPart input.now (Ok rest.now))
        (λ fault. HeaderPart input.now (Err fault)) }
{
    let from = plain_prefix(input);
    check_header_from(input, from)
}

/// Checks the header from this index on, byte by byte. No zero byte and no empty line comes before.
fn check_header_from(input: &[u8], from: usize) -> Result<&[u8], Message>
    requires within { from ≤ length input.now }
    requires plain { IsPlainBetween input.now 0 from }
    ensures { MatchResult result (λ rest. HeaderPart input.now (Ok rest.now))
        (λ fault. HeaderPart input.now (Err fault)) }
{
    let mut follows_newline = from > 0 && input[from - 1] == b'\n';
    let mut at = from;
    while at < input.len() {
        let byte = input[at];
        if byte == 0 {
            return Err(Message::NulInHeader);
        }
        if byte == b'\n' && follows_newline {
            return Ok(input);
        }
        follows_newline = byte == b'\n';
        at += 1;
    }
    if follows_newline {
        Ok(input)
    } else {
        Err(Message::UnterminatedHeader)
    }
}

/// Returns an index before which no zero byte and no empty line begins: some multiple of 32.
fn plain_prefix(input: &[u8]) -> usize
    ensures within { result ≤ length input.now }
    ensures plain { IsPlainBetween input.now 0 result }
{
    let mut from = 0;
    while input.len() - from > 32 && is_plain_block(input, from) {
        from += 32;
    }
    from
}

/// Returns whether none of the 32 bytes from this index on is zero or begins an empty line.
#[inline(always)]
fn is_plain_block(input: &[u8], from: usize) -> bool
    requires { from + 32 < length input.now }
    ensures { IsTrue result → IsPlainBetween input.now from (from + 32) }
{
    let zeros = marks_of(input, from, 0);
    let newlines = marks_of(input, from, b'\n');
    let following = marks_of(input, from + 1, b'\n');
    zeros == 0 && newlines & following == 0
}

/// Returns a number with a bit for each of the 32 bytes from this index on, which is 1 if it is this byte.
#[inline(always)]
fn marks_of(input: &[u8], from: usize, byte: u8) -> u64
    requires { from + 32 ≤ length input.now }
    ensures { result ≡ marks_from input.now from byte }
{
    u8x32::from_slice(&input[from..])
        .simd_eq(u8x32::splat(byte))
        .to_bitmask()
}
