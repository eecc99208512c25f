//! Decoding of single entries (gitdatamodel, "trees").
ghost use Rattle.std.specs.Prelude.{◌≡◌, ◌≢◌, ◌≤◌, ◌<◌, ◌+◌, ◌∷◌, ℕ, IfNone, IfSome, List, MatchOption, drop, length};
ghost use Rattle.std.specs.Prelude.{take};
ghost use Rattle.gixobj_hash.specs.Bytes.{space};
ghost use Rattle.gixobj_hash.specs.Hash.{hash_len};
ghost use Rattle.gixobj_hash.specs.Hash.Borrowed.{borrowed_id};
ghost use Rattle.gixobj_hash.specs.ByteStrings.{IsByteFree, SplitsAt};
ghost use Rattle.gixobj_tree_entries.specs.TreeDecoding.{BeginsWithEntry, BeginsWithId, BeginsWithNoEntry};
ghost use Rattle.gixobj_tree_entries.specs.EntryViews.{entry_view};

use crate::{EntryMode, EntryRef};
use bstr::BStr;
use gixobj_hash::hash::{Kind, oid};
use gixobj_hash::split::split_at_byte;
use std::simd::prelude::*;

/// Decodes the entry at the beginning of the input, with an id of this kind, and returns it and the rest.
///
/// Returns `None` if the input does not begin with an entry. Allocates nothing.
#[inline(always)]
#[tactic(auto, using(crate::proofs::OneEntry::entry_rest_len_lt))]
pub fn decode_entry(input: &[u8], hash_kind: Kind) -> Option<(EntryRef<'_>, &[u8])>
    ensures found { IfSome result (λ it.
        BeginsWithEntry hash_kind input.now (entry_view it.0) it.1.now) }
    ensures none { IfNone result (BeginsWithNoEntry hash_kind input.now) }
    ensures shorter { IfSome result (λ it. length it.1.now < length input.now) }
{
    let Some((mode, after_mode)) = EntryMode::extract_from_bytes(input) else {
        return None;
    };
    let Some(from_name) = after_space(after_mode) else {
        return None;
    };
    let Some((name, from_id)) = split_at_zero(from_name) else {
        return None;
    };
    let Some((oid, rest)) = decode_id(from_id, hash_kind) else {
        return None;
    };
    let filename = BStr::new(name);
    Some((
        EntryRef {
            mode,
            filename,
            oid,
        },
        rest,
    ))
}

/// Returns the bytes after the space at the beginning of the input, or `None` without one.
#[inline(always)]
fn after_space(input: &[u8]) -> Option<&[u8]>
    ensures { MatchOption result ((rest : List ℕ) → input.now ≢ space ∷ rest)
        (λ rest. input.now ≡ space ∷ rest.now) }
{
    match input {
        [b' ', rest @ ..] => Some(rest),
        _ => None,
    }
}

/// Splits at the first zero byte, or returns `None` without one. Most names are short, so the first 32
/// bytes are searched at once, and only then the others.
#[inline(always)]
fn split_at_zero(input: &[u8]) -> Option<(&[u8], &[u8])>
    ensures found { IfSome result (λ parts. SplitsAt 0 input.now parts.0.now parts.1.now) }
    ensures none { IfNone result (IsByteFree 0 input.now) }
{
    if input.len() >= 32 {
        if let Some(at) = near_zero(input) {
            return Some((&input[..at], &input[at + 1..]));
        }
    }
    split_at_byte(input, 0)
}

/// Returns the position of the first zero byte if it is among the first 32 bytes.
#[inline(always)]
fn near_zero(input: &[u8]) -> Option<usize>
    requires { 32 ≤ length input.now }
    ensures found { IfSome result (λ at. (at < 32)
        × SplitsAt 0 input.now (take at input.now) (drop (at + 1) input.now)) }
    ensures none { IfNone result (IsByteFree 0 (take 32 input.now)) }
{
    let marks = u8x32::from_slice(input)
        .simd_eq(u8x32::splat(0))
        .to_bitmask();
    if marks == 0 {
        return None;
    }
    Some(marks.trailing_zeros() as usize)
}

/// Decodes the id of this kind at the beginning of the input, or returns `None` if fewer bytes remain.
#[inline(always)]
fn decode_id(input: &[u8], hash_kind: Kind) -> Option<(oid<'_>, &[u8])>
    ensures found { IfSome result (λ it.
        BeginsWithId hash_kind input.now (borrowed_id it.0) it.1.now) }
    ensures none { IfNone result (length input.now < hash_len hash_kind) }
{
    let len = hash_kind.len_in_bytes();
    if input.len() < len {
        return None;
    }
    let (id, rest) = input.split_at(len);
    Some((oid::new(id), rest))
}
