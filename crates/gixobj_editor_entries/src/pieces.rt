//! Searches, insertions and removals in lists in pieces, each in the one piece of the searched key.
//!
//! A list is a first piece and more pieces. Its keys ascend, and no piece but the first is empty.
ghost use Rattle.std.specs.Prelude.{◌≡◌, ◌≢◌, ◌⊎◌, ◌+◌, ◌<◌, ◌≤◌, [], IsFalse, IsTrue, None, if◌then◌else◌, length};
ghost use Rattle.std.specs.Prelude.{vec_capacity, vec_len};
ghost use Rattle.std.specs.List.{find};
ghost use Rattle.std.specs.Option.{option_copied};
ghost use Rattle.gixobj_tree_entries.specs.KeyOrder.{key_of};
ghost use Rattle.gixobj_editor_entries.specs.Pieces.{HasGap, HoldsAtPiece, IsAscending, IsPieced, has_key, item_key};
ghost use Rattle.gixobj_editor_entries.specs.Pieces.{joined, other_key, pieces_at_most, with_item, without_key};

use crate::gaps::{is_alone_in, is_past_end};
use crate::named::Named;
use crate::search::{piece_of, position_in};
use std::mem;

/// What an insertion did.
#[derive(Clone, Copy)]
pub struct Inserted {
    /// `true` if no item was replaced.
    pub is_new: bool,
    /// `true` only if no item has the name of the inserted one and the other kind.
    pub is_alone: bool,
}

/// Returns the item of a name and kind, if there is one. Allocates nothing.
pub fn find<'a, T: Named>(
    first: &'a [T],
    more: &'a [Vec<T>],
    name: &[u8],
    is_tree: bool,
) -> Option<&'a T>
    requires { IsPieced T.name_of T.is_tree_of (λ p. p.items) first.now more.now }
    ensures { option_copied result ≡ find (has_key (item_key T.name_of T.is_tree_of)
        (key_of name.now is_tree)) (joined (λ p. p.items) first.now more.now) }
{
    if is_past_end(more, name, is_tree) {
        return None;
    }
    let at = piece_of(more, name, is_tree);
    if at == 0 {
        return find_in(first, name, is_tree);
    }
    find_in(&more[at - 1], name, is_tree)
}

/// Returns the item of a name and kind in a piece, if there is one.
fn find_in<'a, T: Named>(piece: &'a [T], name: &[u8], is_tree: bool) -> Option<&'a T>
    requires { IsAscending (item_key T.name_of T.is_tree_of) piece.now }
    ensures { option_copied result ≡ find (has_key (item_key T.name_of T.is_tree_of)
        (key_of name.now is_tree)) piece.now }
{
    match position_in(piece, name, is_tree) {
        Ok(index) => Some(&piece[index]),
        Err(_) => None,
    }
}

/// Inserts an item at the position of its key, in place of any item of its key.
///
/// `at` is the number of its piece, which must have capacity for it. [`reserve`](crate::splits::reserve)
/// returns it. Allocates nothing.
pub fn insert_at<T: Named>(
    first: &mut Vec<T>,
    more: &mut Vec<Vec<T>>,
    at: usize,
    item: T,
) -> Inserted
    requires pieced { IsPieced T.name_of T.is_tree_of (λ p. p.items) first.old.items
        more.old.items }
    requires at { at ≡ pieces_at_most (item_key T.name_of T.is_tree_of)
        (item_key T.name_of T.is_tree_of item) (λ p. p.items) more.old.items }
    requires has_capacity { HoldsAtPiece (λ p. vec_len p < vec_capacity p) first.old
        more.old.items at }
    ensures pieced { IsPieced T.name_of T.is_tree_of (λ p. p.items) first.new.items more.new.items }
    ensures inserted { joined (λ p. p.items) first.new.items more.new.items
        ≡ with_item (item_key T.name_of T.is_tree_of) item
        (joined (λ p. p.items) first.old.items more.old.items) }
    ensures len { length (joined (λ p. p.items) first.new.items more.new.items)
        ≡ length (joined (λ p. p.items) first.old.items more.old.items)
        + (if result.is_new then 1 else 0) }
    ensures alone { IsTrue result.is_alone → find (has_key (item_key T.name_of T.is_tree_of)
        (other_key T.name_of T.is_tree_of item))
        (joined (λ p. p.items) first.old.items more.old.items) ≡ None }
    ensures pieces { length more.new.items ≤ length more.old.items }
    ensures capacity { vec_capacity first.old ≤ vec_capacity first.new }
{
    let count = more.len();
    if at == 0 {
        return insert_in(first, at, count, item);
    }
    insert_in(&mut more[at - 1], at, count - at, item)
}

/// Inserts an item into a piece, in place of any item of its key. The piece must have capacity for it.
///
/// `before` and `after` are the numbers of pieces before this one and after it.
fn insert_in<T: Named>(piece: &mut Vec<T>, before: usize, after: usize, item: T) -> Inserted
    requires ascending { IsAscending (item_key T.name_of T.is_tree_of) piece.old.items }
    requires has_capacity { vec_len piece.old < vec_capacity piece.old }
    ensures items { piece.new.items ≡ with_item (item_key T.name_of T.is_tree_of) item
        piece.old.items }
    ensures len { length piece.new.items ≡ length piece.old.items
        + (if result.is_new then 1 else 0) }
    ensures alone { IsTrue result.is_alone → HasGap (item_key T.name_of T.is_tree_of)
        (other_key T.name_of T.is_tree_of item) piece.old.items before after }
    ensures capacity { vec_capacity piece.old ≤ vec_capacity piece.new }
{
    match position_in(piece, item.name(), item.is_tree()) {
        Ok(index) => {
            let gap = index.saturating_add(usize::from(!item.is_tree()));
            let is_alone = is_alone_in(piece, gap, before, after, &item);
            piece[index] = item;
            Inserted {
                is_new: false,
                is_alone,
            }
        }
        Err(index) => {
            let is_alone = is_alone_in(piece, index, before, after, &item);
            let _ = piece.insert(index, item);
            Inserted {
                is_new: true,
                is_alone,
            }
        }
    }
}

/// Removes the item of a name and kind, and returns `true` if there is one. Allocates nothing.
pub fn remove<T: Named>(
    first: &mut Vec<T>,
    more: &mut Vec<Vec<T>>,
    name: &[u8],
    is_tree: bool,
) -> bool
    requires { IsPieced T.name_of T.is_tree_of (λ p. p.items) first.old.items more.old.items }
    ensures pieced { IsPieced T.name_of T.is_tree_of (λ p. p.items) first.new.items more.new.items }
    ensures removed { joined (λ p. p.items) first.new.items more.new.items
        ≡ without_key (item_key T.name_of T.is_tree_of) (key_of name.now is_tree)
        (joined (λ p. p.items) first.old.items more.old.items) }
    ensures len { length (joined (λ p. p.items) first.new.items more.new.items)
        + (if result then 1 else 0)
        ≡ length (joined (λ p. p.items) first.old.items more.old.items) }
    ensures pieces { length more.new.items ≤ length more.old.items }
    ensures capacity { vec_capacity first.old ≤ vec_capacity first.new }
{
    let at = piece_of(more, name, is_tree);
    remove_at(first, more, at, name, is_tree)
}

/// Removes the item of a name and kind, as [`remove`] does, without a search if it `is_absent`.
///
/// Returns `true` if there is such an item. Allocates nothing.
pub fn remove_unless<T: Named>(
    is_absent: bool,
    first: &mut Vec<T>,
    more: &mut Vec<Vec<T>>,
    name: &[u8],
    is_tree: bool,
) -> bool
    requires pieced { IsPieced T.name_of T.is_tree_of (λ p. p.items) first.old.items
        more.old.items }
    requires absent { IsTrue is_absent → find (has_key (item_key T.name_of T.is_tree_of)
        (key_of name.now is_tree)) (joined (λ p. p.items) first.old.items more.old.items) ≡ None }
    ensures pieced { IsPieced T.name_of T.is_tree_of (λ p. p.items) first.new.items more.new.items }
    ensures removed { joined (λ p. p.items) first.new.items more.new.items
        ≡ without_key (item_key T.name_of T.is_tree_of) (key_of name.now is_tree)
        (joined (λ p. p.items) first.old.items more.old.items) }
    ensures len { length (joined (λ p. p.items) first.new.items more.new.items)
        + (if result then 1 else 0)
        ≡ length (joined (λ p. p.items) first.old.items more.old.items) }
    ensures pieces { length more.new.items ≤ length more.old.items }
    ensures capacity { vec_capacity first.old ≤ vec_capacity first.new }
{
    if is_absent {
        return false;
    }
    remove(first, more, name, is_tree)
}

/// Removes the item of a name and kind from the piece of its key, and the piece if it is empty then.
///
/// Returns `true` if there is such an item.
fn remove_at<T: Named>(
    first: &mut Vec<T>,
    more: &mut Vec<Vec<T>>,
    at: usize,
    name: &[u8],
    is_tree: bool,
) -> bool
    requires pieced { IsPieced T.name_of T.is_tree_of (λ p. p.items) first.old.items
        more.old.items }
    requires at { at ≡ pieces_at_most (item_key T.name_of T.is_tree_of) (key_of name.now is_tree)
        (λ p. p.items) more.old.items }
    ensures pieced { IsPieced T.name_of T.is_tree_of (λ p. p.items) first.new.items more.new.items }
    ensures removed { joined (λ p. p.items) first.new.items more.new.items
        ≡ without_key (item_key T.name_of T.is_tree_of) (key_of name.now is_tree)
        (joined (λ p. p.items) first.old.items more.old.items) }
    ensures len { length (joined (λ p. p.items) first.new.items more.new.items)
        + (if result then 1 else 0)
        ≡ length (joined (λ p. p.items) first.old.items more.old.items) }
    ensures pieces { length more.new.items ≤ length more.old.items }
    ensures capacity { vec_capacity first.old ≤ vec_capacity first.new }
{
    if at == 0 {
        return remove_in(first, name, is_tree);
    }
    let piece = &mut more[at - 1];
    let removed = remove_in(piece, name, is_tree);
    if !has_no_items(piece) {
        return removed;
    }
    more.remove(at - 1);
    removed
}

/// Removes the item of a name and kind from a piece, and returns `true` if there is one.
fn remove_in<T: Named>(piece: &mut Vec<T>, name: &[u8], is_tree: bool) -> bool
    requires { IsAscending (item_key T.name_of T.is_tree_of) piece.old.items }
    ensures items { piece.new.items ≡ without_key (item_key T.name_of T.is_tree_of)
        (key_of name.now is_tree) piece.old.items }
    ensures len { length piece.new.items + (if result then 1 else 0) ≡ length piece.old.items }
    ensures capacity { vec_capacity piece.old ≤ vec_capacity piece.new }
{
    match position_in(piece, name, is_tree) {
        Ok(index) => {
            piece.remove(index);
            true
        }
        Err(_) => false,
    }
}

/// Returns `true` if a piece has no items.
fn has_no_items<T>(piece: &[T]) -> bool
    ensures empty { IsTrue result → piece.now ≡ [] }
    ensures non_empty { IsFalse result → piece.now ≢ [] }
{
    piece.is_empty()
}

/// Makes the first piece of all items. The list is unchanged.
///
/// `spare` is an empty list with capacity for all items, unless the first piece is all. It becomes the first
/// piece, and the emptied first piece becomes the spare. Allocates nothing.
pub fn settle<T: Drop>(first: &mut Vec<T>, more: &mut Vec<Vec<T>>, spare: &mut Vec<T>)
    requires spare { spare.old.items ≡ [] }
    requires has_capacity { (more.old.items ≡ [])
        ⊎ (length (joined (λ p. p.items) first.old.items more.old.items) ≤ vec_capacity spare.old) }
    ensures unchanged { first.new.items ≡ joined (λ p. p.items) first.old.items more.old.items }
    ensures settled { more.new.items ≡ [] }
    ensures spare { spare.new.items ≡ [] }
{
    if has_no_items(more) {
        return;
    }
    let _ = spare.append(first);
    append_all(spare, more);
    more.clear();
    mem::swap(first, spare);
}

/// Moves the items of these pieces to the end of the first, which must have capacity for them.
fn append_all<T: Drop>(first: &mut Vec<T>, more: &mut [Vec<T>])
    requires { length (joined (λ p. p.items) first.old.items more.old) ≤ vec_capacity first.old }
    ensures items { first.new.items ≡ joined (λ p. p.items) first.old.items more.old }
    ensures capacity { vec_capacity first.old ≤ vec_capacity first.new }
{
    for piece in more.iter_mut() {
        let _ = first.append(piece);
    }
}
