//! Capacity for one more item in a list in pieces; full pieces are split.
ghost use Rattle.std.specs.Prelude.{◌≡◌, ◌≢◌, ◌<◌, ◌≤◌, ◌++◌, [], IfOk, IsTrue, OnErr, OnOk, length, map};
ghost use Rattle.std.specs.Prelude.{slice_index_or, vec_capacity, vec_len};
ghost use Rattle.std.specs.List.{flat_map};
ghost use Rattle.gixobj_tree_entries.specs.KeyOrder.{key_of};
ghost use Rattle.gixobj_editor_entries.specs.Pieces.{AreNonEmpty, HoldsAtPiece, IsPieced, item_key, joined};
ghost use Rattle.gixobj_editor_entries.specs.Pieces.{pieces_at_most};

use crate::named::Named;
use crate::search::piece_of;
use std::alloc::AllocError;

/// The maximum number of items of a piece that others are inserted into.
const MAX_LEN: usize = 128;

/// Reserves capacity for an item of this name and kind in its piece, and returns the number of that piece.
///
/// The first piece has the number 0. A piece of 128 items or more is split before. The list is unchanged.
///
/// Allocates that capacity. A split allocates a piece and capacity for it in the list of pieces.
///
/// # Errors
///
/// [`AllocError`] if an allocation fails.
pub fn reserve<T: Named>(
    first: &mut Vec<T>,
    more: &mut Vec<Vec<T>>,
    name: &[u8],
    is_tree: bool,
) -> Result<usize, AllocError>
    requires { IsPieced T.name_of T.is_tree_of (λ p. p.items) first.old.items more.old.items }
    ensures pieced { IsPieced T.name_of T.is_tree_of (λ p. p.items) first.new.items more.new.items }
    ensures unchanged { joined (λ p. p.items) first.new.items more.new.items
        ≡ joined (λ p. p.items) first.old.items more.old.items }
    ensures at { IfOk result (λ at. at ≡ pieces_at_most (item_key T.name_of T.is_tree_of)
        (key_of name.now is_tree) (λ p. p.items) more.new.items) }
    ensures has_capacity { IfOk result (HoldsAtPiece (λ p. vec_len p < vec_capacity p) first.new
        more.new.items) }
    ensures capacity { vec_capacity first.old ≤ vec_capacity first.new }
{
    let position = piece_of(more, name, is_tree);
    let at = split_at(first, more, position, name, is_tree)?;
    reserve_at(first, more, at)?;
    Ok(at)
}

/// Returns the number of items that a piece of `len` items reserves capacity for, at least one.
///
/// A new piece is short. It reserves capacity for all items that it will have at once.
fn items_to_reserve(len: usize) -> usize
    ensures { 1 ≤ result }
{
    MAX_LEN.saturating_sub(len).max(1)
}

/// Reserves capacity for at least one item in the piece of this number.
fn reserve_at<T: Drop>(
    first: &mut Vec<T>,
    more: &mut Vec<Vec<T>>,
    at: usize,
) -> Result<(), AllocError>
    requires { at ≤ vec_len more.old }
    ensures first { first.new.items ≡ first.old.items }
    ensures more { map (λ p. p.items) more.new.items ≡ map (λ p. p.items) more.old.items }
    ensures has_capacity { OnOk result (HoldsAtPiece (λ p. vec_len p < vec_capacity p) first.new
        more.new.items at) }
    ensures capacity { vec_capacity first.old ≤ vec_capacity first.new }
{
    if at == 0 {
        first.reserve(1)?;
        return Ok(());
    }
    let count = items_to_reserve(more[at - 1].len());
    more[at - 1].reserve(count)?;
    Ok(())
}

/// Splits the piece of a key if it is full, and returns the number of the key's piece then.
fn split_at<T: Named>(
    first: &mut Vec<T>,
    more: &mut Vec<Vec<T>>,
    at: usize,
    name: &[u8],
    is_tree: bool,
) -> Result<usize, AllocError>
    requires pieced { IsPieced T.name_of T.is_tree_of (λ p. p.items) first.old.items
        more.old.items }
    requires at { at ≡ pieces_at_most (item_key T.name_of T.is_tree_of) (key_of name.now is_tree)
        (λ p. p.items) more.old.items }
    ensures pieced { IsPieced T.name_of T.is_tree_of (λ p. p.items) first.new.items more.new.items }
    ensures unchanged { joined (λ p. p.items) first.new.items more.new.items
        ≡ joined (λ p. p.items) first.old.items more.old.items }
    ensures at { IfOk result (λ position. position
        ≡ pieces_at_most (item_key T.name_of T.is_tree_of)
        (key_of name.now is_tree) (λ p. p.items) more.new.items) }
    ensures capacity { vec_capacity first.old ≤ vec_capacity first.new }
{
    if at == 0 {
        if !is_full(first) {
            return Ok(at);
        }
        split_first(first, more)?;
    } else {
        if !is_full(&more[at - 1]) {
            return Ok(at);
        }
        split_more(more, at - 1)?;
    }
    Ok(piece_of(more, name, is_tree))
}

/// Returns `true` if a piece is split before an insertion.
fn is_full<T>(piece: &[T]) -> bool
    ensures { IsTrue result → 1 < length piece.now }
{
    piece.len() >= MAX_LEN
}

/// Splits the first piece.
#[inline(never)]
fn split_first<T: Drop>(first: &mut Vec<T>, more: &mut Vec<Vec<T>>) -> Result<(), AllocError>
    requires long { 1 < length first.old.items }
    requires non_empty { AreNonEmpty (λ p. p.items) more.old.items }
    ensures unchanged { joined (λ p. p.items) first.new.items more.new.items
        ≡ joined (λ p. p.items) first.old.items more.old.items }
    ensures non_empty { AreNonEmpty (λ p. p.items) more.new.items }
    ensures capacity { vec_capacity first.old ≤ vec_capacity first.new }
{
    more.reserve(1)?;
    let back = split(first, more.is_empty())?;
    let _ = more.insert(0, back);
    Ok(())
}

/// Splits another piece.
#[inline(never)]
fn split_more<T: Drop>(more: &mut Vec<Vec<T>>, at: usize) -> Result<(), AllocError>
    requires within { at < vec_len more.old }
    requires long { (d : _) → 1 < length (slice_index_or more.old.items at d).items }
    requires non_empty { AreNonEmpty (λ p. p.items) more.old.items }
    ensures unchanged { flat_map (λ p. p.items) more.new.items
        ≡ flat_map (λ p. p.items) more.old.items }
    ensures non_empty { AreNonEmpty (λ p. p.items) more.new.items }
{
    more.reserve(1)?;
    let last = at + 1 == more.len();
    let back = split(&mut more[at], last)?;
    let _ = more.insert(at + 1, back);
    Ok(())
}

/// Removes the second half of a piece and returns it.
///
/// It is an eighth of the last piece, since items that arrive in order are inserted there.
fn split<T>(piece: &mut Vec<T>, last: bool) -> Result<Vec<T>, AllocError>
    requires { 1 < length piece.old.items }
    ensures parts { IfOk result (λ back. (piece.new.items ++ back.items ≡ piece.old.items)
        × (piece.new.items ≢ []) × (back.items ≢ [])) }
    ensures unchanged { OnErr result (piece.new.items ≡ piece.old.items) }
    ensures capacity { vec_capacity piece.old ≤ vec_capacity piece.new }
{
    let len = piece.len();
    let keep = if last { len - 1 - len / 8 } else { len / 2 };
    piece.split_off(keep)
}
