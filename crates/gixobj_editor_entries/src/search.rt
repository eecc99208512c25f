//! Binary searches in sorted lists.
ghost use Rattle.std.specs.Prelude.{◌≡◌, ◌<◌, ◌≤◌, true, false, IfErr, IfOk, MatchResult, length};
ghost use Rattle.std.specs.List.{HoldsAt, flat_map, prefix_len};
ghost use Rattle.gixobj_tree_entries.specs.KeyOrder.{key_of};
ghost use Rattle.gixobj_editor_entries.specs.Pieces.{AreNonEmpty, IsAscending, begins_at_most, has_key, is_before};
ghost use Rattle.gixobj_editor_entries.specs.Pieces.{item_key, key_cmp, pieces_at_most};

use crate::named::Named;
use gixobj_tree_entries::order::key_order;
use std::cmp::Ordering;

/// Compares the key of an item with that of a name and kind.
#[inline(always)]
pub(crate) fn order_by_key<T: Named>(item: &T, name: &[u8], is_tree: bool) -> Ordering
    ensures { result ≡ key_cmp (item_key T.name_of T.is_tree_of) (key_of name.now is_tree)
        item.now }
{
    key_order(item.name(), item.is_tree(), name, is_tree)
}

/// Returns the position at which a binary search of `count` items begins.
///
/// It is the middle of up to sixteen items, and the last of more. Items that arrive in order are inserted
/// after all others.
pub fn first_look(count: usize) -> usize
    ensures { 0 < count → result < count }
{
    if count > 16 { count - 1 } else { count / 2 }
}

/// Searches a piece for an item: `Ok` with its position, or `Err` with the position to insert it at.
pub(crate) fn position_in<T: Named>(items: &[T], name: &[u8], is_tree: bool) -> Result<usize, usize>
    requires { IsAscending (item_key T.name_of T.is_tree_of) items.now }
    ensures within { MatchResult result (λ i. i < length items.now) (λ i. i ≤ length items.now) }
    ensures found { IfOk result (HoldsAt (λ x. has_key (item_key T.name_of T.is_tree_of)
        (key_of name.now is_tree) x ≡ true) items.now) }
    ensures none { IfErr result (λ i. i < length items.now
        → HoldsAt (λ x. has_key (item_key T.name_of T.is_tree_of) (key_of name.now is_tree) x
        ≡ false) items.now i) }
    ensures position { MatchResult result (λ i. i ≡ prefix_len (is_before
        (item_key T.name_of T.is_tree_of) (key_of name.now is_tree)) items.now)
        (λ i. i ≡ prefix_len (is_before (item_key T.name_of T.is_tree_of)
        (key_of name.now is_tree)) items.now) }
{
    let mut low = 0;
    let mut high = items.len();
    let mut middle = first_look(high);
    while low < high {
        match order_by_key(&items[middle], name, is_tree) {
            Ordering::Less => low = middle + 1,
            Ordering::Equal => return Ok(middle),
            Ordering::Greater => high = middle,
        }
        middle = low + (high - low) / 2;
    }
    Err(low)
}

/// Returns `true` if the key of the first item is at most this one, or if there are no items.
fn begins_at_most<T: Named>(piece: &[T], name: &[u8], is_tree: bool) -> bool
    ensures { result ≡ begins_at_most (item_key T.name_of T.is_tree_of) (key_of name.now is_tree)
        piece.now }
{
    match piece.split_first() {
        Some((first, _)) => !order_by_key(first, name, is_tree).is_gt(),
        None => true,
    }
}

/// Returns the position of the last of `count` pieces, at which a search of them begins.
///
/// Items that arrive in order are inserted into the last piece.
fn last_look(count: usize) -> usize
    ensures { 0 < count → result < count }
{
    count.saturating_sub(1)
}

/// Returns the number of pieces, the first ones, whose first keys are at most this one.
pub(crate) fn piece_of<T: Named>(more: &[Vec<T>], name: &[u8], is_tree: bool) -> usize
    requires ascending { IsAscending (item_key T.name_of T.is_tree_of)
        (flat_map (λ p. p.items) more.now) }
    requires non_empty { AreNonEmpty (λ p. p.items) more.now }
    ensures { result ≡ pieces_at_most (item_key T.name_of T.is_tree_of) (key_of name.now is_tree)
        (λ p. p.items) more.now }
{
    let mut low = 0;
    let mut high = more.len();
    let mut middle = last_look(high);
    while low < high {
        if begins_at_most(&more[middle], name, is_tree) {
            low = middle + 1;
        } else {
            high = middle;
        }
        middle = low + (high - low) / 2;
    }
    low
}
