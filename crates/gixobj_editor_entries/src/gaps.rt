//! Tests of two neighbours, which show without a search that a list has no item of a key.
ghost use Rattle.std.specs.Prelude.{◌≡◌, IsTrue, List, None};
ghost use Rattle.std.specs.List.{find};
ghost use Rattle.gixobj_tree_entries.specs.KeyOrder.{key_of};
ghost use Rattle.gixobj_editor_entries.specs.Pieces.{HasGap, IsGreaterFrom, IsLessBefore, IsPieced, has_key, item_key};
ghost use Rattle.gixobj_editor_entries.specs.Pieces.{joined, other_key};

use crate::named::Named;
use crate::search::order_by_key;

/// Returns `true` if the list is in more than one piece and all its items are less than the name and kind.
///
/// Items that arrive in order are after all others, so that one comparison is enough. Allocates nothing.
#[inline(always)]
pub(crate) fn is_past_end<T: Named>(more: &[Vec<T>], name: &[u8], is_tree: bool) -> bool
    ensures { IsTrue result → (first : List T)
        → IsPieced T.name_of T.is_tree_of (λ p. p.items) first more.now
        → find (has_key (item_key T.name_of T.is_tree_of) (key_of name.now is_tree))
        (joined (λ p. p.items) first more.now) ≡ None }
{
    let count = more.len();
    if count == 0 {
        return false;
    }
    let last: &[T] = &more[count - 1];
    is_gap(last, last.len(), count, 0, name, is_tree)
}

/// Returns `true` if the items next to an index of a piece show that no item has this name and kind.
///
/// The item before the index is less then, and the one at it is greater, or the list has no such item.
/// `before` and `after` are the numbers of pieces before this one and after it. `false` says nothing.
#[inline(always)]
pub(crate) fn is_gap<T: Named>(
    items: &[T],
    index: usize,
    before: usize,
    after: usize,
    name: &[u8],
    is_tree: bool,
) -> bool
    ensures { IsTrue result → HasGap (item_key T.name_of T.is_tree_of) (key_of name.now is_tree)
        items.now before after }
{
    if !is_less_before(items, index, before, name, is_tree) {
        return false;
    }
    is_greater_from(items, index, after, name, is_tree)
}

/// Returns `true` if the items next to an index of a piece show that no item has the name and the other kind.
///
/// It is `false` without a comparison if no item can be a file.
pub(crate) fn is_alone_in<T: Named>(
    items: &[T],
    index: usize,
    before: usize,
    after: usize,
    item: &T,
) -> bool
    ensures { IsTrue result → HasGap (item_key T.name_of T.is_tree_of)
        (other_key T.name_of T.is_tree_of item.now) items.now before after }
{
    if !T::has_files() {
        return false;
    }
    let is_other_tree = !item.is_tree();
    is_gap(items, index, before, after, item.name(), is_other_tree)
}

/// Returns `true` if the item before an index is less, or if there is none in the list.
#[inline(always)]
fn is_less_before<T: Named>(
    items: &[T],
    index: usize,
    before: usize,
    name: &[u8],
    is_tree: bool,
) -> bool
    ensures { IsTrue result → IsLessBefore (item_key T.name_of T.is_tree_of)
        (key_of name.now is_tree) items.now index before }
{
    if index == 0 {
        return before == 0;
    }
    if index > items.len() {
        return false;
    }
    order_by_key(&items[index - 1], name, is_tree).is_lt()
}

/// Returns `true` if the item at an index is greater, or if there is none in the list from there on.
#[inline(always)]
fn is_greater_from<T: Named>(
    items: &[T],
    index: usize,
    after: usize,
    name: &[u8],
    is_tree: bool,
) -> bool
    ensures { IsTrue result → IsGreaterFrom (item_key T.name_of T.is_tree_of)
        (key_of name.now is_tree) items.now index after }
{
    if index >= items.len() {
        return after == 0;
    }
    order_by_key(&items[index], name, is_tree).is_gt()
}
