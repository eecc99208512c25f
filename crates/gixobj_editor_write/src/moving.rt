//! What is open in the directories in a directory, moved on by one, to walk through all in order.
ghost use Rattle.std.specs.Prelude.{◌≡◌, ◌≢◌, ◌++◌, ◌+◌, ◌<◌, [], length};
ghost use Rattle.std.specs.List.{flat_map};
ghost use Rattle.gixobj_editor_entries.specs.Pieces.{AreNonEmpty};
ghost use Rattle.gixobj_editor_open.specs.LeafTrees.{inside_of, leaf_trees, waiting_trees};
ghost use Rattle.gixobj_editor_write.specs.Moves.{moved_on, moved_out};
ghost use Rattle.gixobj_editor_open.specs.Nested.{AreFilled, child_list, parts};

use gixobj_editor_open::open::{Child, Children, Open};
use std::mem;

/// Moves what is open in each directory in this one into the next, and `first` into the first.
///
/// Returns the directory, and what was open in the last. The leaf trees stay in their order.
pub(crate) fn move_on(directory: Open, first: Open) -> (Open, Open)
    requires { inside_of directory ≢ [] }
    ensures trees { waiting_trees result.0 result.1
        ≡ leaf_trees first ++ leaf_trees (inside_of directory) }
    ensures sizes { length result.0 + length result.1 ≡ length first + length directory }
    ensures fewer { length result.1 < length directory }
{
    let (entries, base, mut children) = directory.into_parts();
    let last = move_on_in_children(&mut children, first);
    let rest = Open {
        entries,
        base,
        children,
    };
    (rest, last)
}

/// Moves what is open in each of these directories into the next, and `first` into the first.
///
/// Returns what was open in the last, and `first` if there is no directory.
fn move_on_in_children(children: &mut Children, first: Open) -> Open
    ensures moved { parts (child_list children.new)
        ≡ moved_on first (parts (child_list children.old)) }
    ensures last { result ≡ moved_out first (parts (child_list children.old)) }
    ensures filled { AreFilled children.old → AreFilled children.new }
{
    let next = move_on_in_piece(&mut children.first, first);
    move_on_in_pieces(&mut children.more, next)
}

/// Moves what is open in each directory of these pieces into the next, and `first` into the first.
fn move_on_in_pieces(pieces: &mut [Vec<Child>], first: Open) -> Open
    ensures moved { parts (flat_map (λ p. p.items) pieces.new)
        ≡ moved_on first (parts (flat_map (λ p. p.items) pieces.old)) }
    ensures last { result ≡ moved_out first (parts (flat_map (λ p. p.items) pieces.old)) }
    ensures filled { AreNonEmpty (λ p. p.items) pieces.old
        → AreNonEmpty (λ p. p.items) pieces.new }
{
    let mut next = first;
    for piece in pieces.iter_mut() {
        next = move_on_in_piece(piece, next);
    }
    next
}

/// Moves what is open in each directory of a piece into the next, and `first` into the first.
fn move_on_in_piece(children: &mut [Child], first: Open) -> Open
    ensures moved { parts children.new ≡ moved_on first (parts children.old) }
    ensures last { result ≡ moved_out first (parts children.old) }
{
    let mut next = first;
    for child in children.iter_mut() {
        next = mem::replace(&mut child.open, next);
    }
    next
}
