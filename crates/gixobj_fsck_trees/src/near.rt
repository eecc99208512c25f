//! Searches of bytes that are near, 32 or 8 at once.
ghost use Rattle.std.specs.Prelude.{◌≢◌, ◌↔◌, ◌≤◌, ◌<◌, ◌+◌, ℕ, IfNone, IfSome, IsTrue, drop, length, slice_index};
ghost use Rattle.std.specs.Prelude.{take};
ghost use Rattle.gixobj_fsck_names.specs.Letters.{backslash, slash};
ghost use Rattle.gixobj_hash.specs.ByteStrings.{IsByteFree, SplitsAt};

use gixobj_hash::split::{has_byte, split_at_byte};
use std::simd::prelude::*;

/// Returns the bytes before and after the first occurrence of a byte, or `None` if there is none.
///
/// The first 32 bytes are searched at once, and only then the others. Allocates nothing.
#[inline(always)]
pub(crate) fn split_near(input: &[u8], byte: u8) -> Option<(&[u8], &[u8])>
    ensures found { IfSome result (λ parts. SplitsAt byte input.now parts.0.now parts.1.now) }
    ensures none { IfNone result (IsByteFree byte input.now) }
{
    if input.len() >= 32 {
        if let Some(at) = near_byte(input, byte) {
            return Some((&input[..at], &input[at + 1..]));
        }
    }
    split_at_byte(input, byte)
}

/// Returns the position of the first occurrence of a byte among the first 32 bytes.
#[inline(always)]
fn near_byte(input: &[u8], byte: u8) -> Option<usize>
    requires { 32 ≤ length input.now }
    ensures { IfSome result (λ at. (at < 32)
        × SplitsAt byte input.now (take at input.now) (drop (at + 1) input.now)) }
{
    let marks = u8x32::from_slice(input)
        .simd_eq(u8x32::splat(byte))
        .to_bitmask();
    if marks == 0 {
        return None;
    }
    Some(marks.trailing_zeros() as usize)
}

/// Returns whether a name is free of slashes and backslashes.
///
/// A name of 8 to 16 bytes is searched as two blocks of eight.
#[inline(always)]
pub(crate) fn is_free_of_separators(name: &[u8]) -> bool
    ensures { IsTrue result ↔ (IsByteFree slash name.now × IsByteFree backslash name.now) }
{
    let len = name.len();
    if 8 <= len && len <= 16 && is_free_block(name, 0) && is_free_block(name, len - 8) {
        return true;
    }
    !has_byte(name, b'/') && !has_byte(name, b'\\')
}

/// Returns whether none of the eight bytes from this index on is a slash or a backslash.
#[inline(always)]
fn is_free_block(name: &[u8], from: usize) -> bool
    requires { from + 8 ≤ length name.now }
    ensures { IsTrue result → (k : ℕ) → from ≤ k → k < from + 8
        → (slice_index name.now k ≢ slash) × (slice_index name.now k ≢ backslash) }
{
    lacks_byte(name, from, b'/') && lacks_byte(name, from, b'\\')
}

/// Returns whether none of the eight bytes from this index on is this byte.
#[inline(always)]
fn lacks_byte(name: &[u8], from: usize, byte: u8) -> bool
    requires { from + 8 ≤ length name.now }
    ensures { IsTrue result → (k : ℕ) → from ≤ k → k < from + 8 → slice_index name.now k ≢ byte }
{
    let marks = u8x8::from_slice(&name[from..])
        .simd_eq(u8x8::splat(byte))
        .to_bitmask();
    marks == 0
}
