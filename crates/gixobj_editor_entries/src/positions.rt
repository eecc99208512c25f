//! Positions in lists in pieces, for owners that change an item in place.
ghost use Rattle.std.specs.Prelude.{◌≡◌, ◌<◌, IfNone, IfSome, None, Some, length};
ghost use Rattle.std.specs.List.{HoldsAt, find, position};
ghost use Rattle.gixobj_tree_entries.specs.KeyOrder.{key_of};
ghost use Rattle.gixobj_editor_entries.specs.Pieces.{IsAscending, IsPieced, IsPosition, flat_index, has_key, item_key};
ghost use Rattle.gixobj_editor_entries.specs.Pieces.{joined};

use crate::gaps::is_past_end;
use crate::named::Named;
use crate::search::{piece_of, position_in};

/// The position of an item in a list in pieces.
///
/// The item at a position is `first[index]` for the piece 0, and else `more[piece - 1][index]`. An owner takes
/// it by an index into its own fields, as `&mut` too, and leaves its key as it is.
#[derive(Clone, Copy)]
pub struct Position {
    /// The number of the piece. The first piece has the number 0.
    pub piece: usize,
    /// The number of items before this one in its piece.
    pub index: usize,
}

/// Returns the position of the item of a name and kind, if there is one. Allocates nothing.
pub fn position_of<T: Named>(
    first: &[T],
    more: &[Vec<T>],
    name: &[u8],
    is_tree: bool,
) -> Option<Position>
    requires { IsPieced T.name_of T.is_tree_of (λ p. p.items) first.now more.now }
    ensures within { IfSome result (λ at. IsPosition (λ p. p.items) first.now more.now at.piece
        at.index) }
    ensures found { IfSome result (λ at. position (has_key (item_key T.name_of T.is_tree_of)
        (key_of name.now is_tree)) (joined (λ p. p.items) first.now more.now)
        ≡ Some (flat_index (λ p. p.items) first.now more.now at.piece at.index)) }
    ensures none { IfNone result (position (has_key (item_key T.name_of T.is_tree_of)
        (key_of name.now is_tree)) (joined (λ p. p.items) first.now more.now) ≡ None) }
{
    if is_past_end(more, name, is_tree) {
        return None;
    }
    let piece = piece_of(more, name, is_tree);
    if piece == 0 {
        return position_at(piece, first, name, is_tree);
    }
    position_at(piece, &more[piece - 1], name, is_tree)
}

/// Returns the position of the item of a name and kind in a piece, if there is one.
fn position_at<T: Named>(piece: usize, items: &[T], name: &[u8], is_tree: bool) -> Option<Position>
    requires { IsAscending (item_key T.name_of T.is_tree_of) items.now }
    ensures piece { IfSome result (λ at. at.piece ≡ piece) }
    ensures within { IfSome result (λ at. at.index < length items.now) }
    ensures found { IfSome result (λ at. HoldsAt (λ x. item_key T.name_of T.is_tree_of x
        ≡ key_of name.now is_tree) items.now at.index) }
    ensures none { IfNone result (find (has_key (item_key T.name_of T.is_tree_of)
        (key_of name.now is_tree)) items.now ≡ None) }
{
    match position_in(items, name, is_tree) {
        Ok(index) => Some(Position { piece, index }),
        Err(_) => None,
    }
}
