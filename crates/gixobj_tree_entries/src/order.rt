//! The order of names in a tree (gitdatamodel, "trees").
ghost use Rattle.std.specs.Prelude.{◌≡◌, ◌≤◌, length, take};
ghost use Rattle.std.specs.Int.{from_be_bytes, w16, w32, w64};
ghost use Rattle.std.specs.Cmp.Lexicographic.{slice_cmp};
ghost use Rattle.std.specs.Ordering.{nat_cmp};
ghost use Rattle.gixobj_tree_entries.specs.KeyOrder.{key_of, name_cmp, next_byte};
ghost use Rattle.gixobj_hash.specs.ByteStrings.{IsByteFree};
ghost use Rattle.gixobj_hash.specs.Bytes.{slash};

use std::cmp::Ordering;

/// Compares two names by their order in a tree.
///
/// The common length is compared bytewise, and then the next byte. The end of a tree's name counts as
/// `/`, and any other end precedes every byte. For names without `/` this is the order of their keys,
/// which have `/` appended to a tree's name. Allocates nothing.
#[inline(always)]
pub fn name_order(left: &[u8], left_is_tree: bool, right: &[u8], right_is_tree: bool) -> Ordering
    ensures rule { result ≡ name_cmp left.now left_is_tree right.now right_is_tree }
    ensures by_keys { IsByteFree slash left.now → IsByteFree slash right.now
        → result ≡ slice_cmp nat_cmp (key_of left.now left_is_tree)
        (key_of right.now right_is_tree) }
{
    if left.len() >= 4 && right.len() >= 4 {
        let prefixes = four_order(left, right);
        if prefixes.is_ne() {
            return prefixes;
        }
    } else if left.len() >= 2 && right.len() >= 2 {
        let firsts = two_order(left, right);
        if firsts.is_ne() {
            return firsts;
        }
    }
    full_order(left, left_is_tree, right, right_is_tree)
}

/// Computes [`name_order`]. Most names differ in their first bytes, so this call is rare. It is never
/// inlined, which keeps a binary search short.
#[inline(never)]
fn full_order(left: &[u8], left_is_tree: bool, right: &[u8], right_is_tree: bool) -> Ordering
    ensures { result ≡ name_cmp left.now left_is_tree right.now right_is_tree }
{
    let common = left.len().min(right.len());
    let (prefix, rest) = left.split_at(common);
    let (other_prefix, other_rest) = right.split_at(common);
    let prefixes = bytes_order(prefix, other_prefix);
    if prefixes.is_ne() {
        return prefixes;
    }
    next_byte(rest, left_is_tree).cmp(&next_byte(other_rest, right_is_tree))
}

/// Compares byte strings of one length. The last four bytes may overlap those before.
fn bytes_order(left: &[u8], right: &[u8]) -> Ordering
    requires { length left.now ≡ length right.now }
    ensures { result ≡ slice_cmp nat_cmp left.now right.now }
{
    let len = left.len();
    if len >= 8 {
        return long_order(left, right);
    }
    if len < 4 {
        return short_order(left, right);
    }
    let prefixes = four_order(left, right);
    if prefixes.is_ne() {
        return prefixes;
    }
    four_order(&left[len - 4..], &right[len - 4..])
}

/// Compares at most three bytes with as many others. The last two may overlap those before.
fn short_order(left: &[u8], right: &[u8]) -> Ordering
    requires same_length { length left.now ≡ length right.now }
    requires max_len { length left.now ≤ 3 }
    ensures { result ≡ slice_cmp nat_cmp left.now right.now }
{
    let len = left.len();
    if len < 2 {
        return left.cmp(right);
    }
    let firsts = two_order(left, right);
    if firsts.is_ne() {
        return firsts;
    }
    two_order(&left[len - 2..], &right[len - 2..])
}

/// Compares eight or more bytes with as many others, eight at a time. The last eight may overlap those
/// before.
fn long_order(left: &[u8], right: &[u8]) -> Ordering
    requires same_length { length left.now ≡ length right.now }
    requires min_len { 8 ≤ length left.now }
    ensures { result ≡ slice_cmp nat_cmp left.now right.now }
{
    let last = left.len() - 8;
    let mut at = 0;
    while at < last {
        let part = eight_order(&left[at..], &right[at..]);
        if part.is_ne() {
            return part;
        }
        at += 8;
    }
    eight_order(&left[last..], &right[last..])
}

/// Compares the first eight bytes, as big-endian numbers.
fn eight_order(left: &[u8], right: &[u8]) -> Ordering
    requires left { 8 ≤ length left.now }
    requires right { 8 ≤ length right.now }
    ensures { result ≡ slice_cmp nat_cmp (take 8 left.now) (take 8 right.now) }
{
    first_eight(left).cmp(&first_eight(right))
}

/// Returns the first eight bytes as a big-endian number.
fn first_eight(name: &[u8]) -> u64
    requires { 8 ≤ length name.now }
    ensures { result ≡ from_be_bytes w64 (take 8 name.now) }
{
    u64::from_be_bytes([
        name[0], name[1], name[2], name[3], name[4], name[5], name[6], name[7],
    ])
}

/// Compares the first four bytes.
fn four_order(left: &[u8], right: &[u8]) -> Ordering
    requires left { 4 ≤ length left.now }
    requires right { 4 ≤ length right.now }
    ensures { result ≡ slice_cmp nat_cmp (take 4 left.now) (take 4 right.now) }
{
    first_four(left).cmp(&first_four(right))
}

/// Returns the first four bytes as a big-endian number.
fn first_four(name: &[u8]) -> u32
    requires { 4 ≤ length name.now }
    ensures { result ≡ from_be_bytes w32 (take 4 name.now) }
{
    u32::from_be_bytes([name[0], name[1], name[2], name[3]])
}

/// Compares the first two bytes.
fn two_order(left: &[u8], right: &[u8]) -> Ordering
    requires left { 2 ≤ length left.now }
    requires right { 2 ≤ length right.now }
    ensures { result ≡ slice_cmp nat_cmp (take 2 left.now) (take 2 right.now) }
{
    first_two(left).cmp(&first_two(right))
}

/// Returns the first two bytes as a big-endian number.
fn first_two(name: &[u8]) -> u16
    requires { 2 ≤ length name.now }
    ensures { result ≡ from_be_bytes w16 (take 2 name.now) }
{
    u16::from_be_bytes([name[0], name[1]])
}

/// Compares the keys of two names, which have `/` appended to a tree's name.
///
/// It differs from [`name_order`] only for names with `/`. Allocates nothing.
pub fn key_order(left: &[u8], left_is_tree: bool, right: &[u8], right_is_tree: bool) -> Ordering
    ensures { result ≡ slice_cmp nat_cmp (key_of left.now left_is_tree)
        (key_of right.now right_is_tree) }
{
    let names = name_order(left, left_is_tree, right, right_is_tree);
    let lengths = key_len(left, left_is_tree).cmp(&key_len(right, right_is_tree));
    names.then(lengths)
}

/// Returns the length of the key: that of the name, and one more for a tree.
fn key_len(name: &[u8], is_tree: bool) -> usize
    ensures { result ≡ length (key_of name.now is_tree) }
{
    name.len() + usize::from(is_tree)
}

/// Returns the first byte of the rest of a name. The end of a tree's name counts as `/`.
fn next_byte(rest: &[u8], is_tree: bool) -> Option<u8>
    ensures { result ≡ next_byte rest.now is_tree }
{
    match rest.first() {
        Some(byte) => Some(*byte),
        None => is_tree.then_some(b'/'),
    }
}
