//! Drops of open directories, by loops that allocate nothing: no depth of a path uses up the stack.
ghost use Rattle.std.specs.Prelude.{◌≡◌, ◌≢◌, ◌++◌, ◌+◌, ◌<◌, ◌∷◌, [], IfNone, IfSome, IsFalse, IsTrue, List, ℕ};
ghost use Rattle.std.specs.Prelude.{length};
ghost use Rattle.std.specs.List.{flat_map};
ghost use Rattle.bstr.specs.Owned.{bstring_bytes};
ghost use Rattle.gixobj_editor_entries.specs.Pieces.{AreNonEmpty};
ghost use Rattle.gixobj_editor_open.specs.Children.{IsAt, index_of_child};
ghost use Rattle.gixobj_editor_open.specs.LeafTrees.{inside_of, leaf_trees, waiting_trees};
ghost use Rattle.gixobj_editor_open.specs.Nested.{AreFilled, child_list, parts};
ghost use Rattle.gixobj_editor_open.specs.declared.open.Child.{Child};

use crate::open::{Child, Children, Open};
use gixobj_editor_entries::positions::Position;
use std::mem;

/// Drops a directory, and all that is open in it. Allocates nothing.
///
/// It takes out one directory after the other. What is open in that is merged with what waits.
pub(crate) fn close(directory: Open) {
    let mut waiting = directory;
    while let Some((rest, last)) = waiting.split_last() {
        waiting = merge(last, rest);
    }
}

/// Drops one of the directories that are open at and below these two, and makes one directory of the others.
fn merge(directory: Open, waiting: Open) -> Open
    ensures { length result + 1 ≡ length directory + length waiting }
{
    let mut current = directory;
    let mut waiting = waiting;
    loop {
        let (next, inner) = current.nest(waiting);
        let Some(inner) = inner else {
            return next;
        };
        waiting = next;
        current = inner;
    }
}

impl Open {
    /// Takes the last open directory out of the directory, which is dropped if there is none.
    pub fn split_last(self) -> Option<(Open, Open)>
        ensures sizes { IfSome result (λ it. length it.0 + length it.1 ≡ length self) }
        ensures trees { IfSome result (λ it. waiting_trees it.0 it.1
            ≡ leaf_trees (inside_of self)) }
        ensures none { IfNone result (inside_of self ≡ []) }
    {
        let (entries, base, mut children) = self.into_parts();
        let Some(last) = children.pop() else {
            children.destroy_empty();
            return None;
        };
        let rest = Open {
            entries,
            base,
            children,
        };
        Some((rest, last.into_open()))
    }

    /// Returns the directory, which is dropped if no directory is open in it.
    pub(crate) fn unless_childless(self) -> Option<Open>
        ensures some { IfSome result (λ it. it ≡ self) }
        ensures none { IfNone result (length self ≡ 1) }
    {
        let (entries, base, children) = self.into_parts();
        if children.is_empty() {
            children.destroy_empty();
            return None;
        }
        Some(Open {
            entries,
            base,
            children,
        })
    }

    /// Moves `waiting` into the first directory that is open in this one, under the name of that.
    ///
    /// Returns the directory, and what was open at that name before. If no directory is open in one of the
    /// two, that one is dropped, and the other one is returned alone.
    fn nest(self, waiting: Open) -> (Open, Option<Open>)
        ensures some { IfSome result.1 (λ inner. (length result.0 + length inner
            ≡ length self + length waiting) × (length inner < length self)) }
        ensures none { IfNone result.1 (length result.0 + 1 ≡ length self + length waiting) }
    {
        let (entries, base, mut children) = self.into_parts();
        if children.is_empty() {
            children.destroy_empty();
            return (waiting, None);
        }
        let Some(waiting) = waiting.unless_childless() else {
            let directory = Open {
                entries,
                base,
                children,
            };
            return (directory, None);
        };
        let inner = children.replace_first(waiting);
        let directory = Open {
            entries,
            base,
            children,
        };
        (directory, Some(inner))
    }
}

impl Child {
    /// Returns the open directory.
    pub fn into_open(self) -> Open
        ensures { result ≡ self.open }
    {
        let Child { name: _, open } = self;
        open
    }
}

impl Children {
    /// Returns `true` if there is no directory.
    fn is_empty(&self) -> bool
        requires { AreFilled self.now }
        ensures empty { IsTrue result → child_list self.now ≡ [] }
        ensures non_empty { IsFalse result → child_list self.now ≢ [] }
    {
        self.first.is_empty() && self.more.is_empty()
    }

    /// Drops an empty list.
    pub(crate) fn destroy_empty(self)
        requires empty { child_list self ≡ [] }
        requires filled { AreFilled self }
    {
        let Children { first, more } = self;
        first.destroy_empty();
        more.destroy_empty();
    }

    /// Removes the last directory, and returns it, if there is one. Allocates nothing.
    pub(crate) fn pop(&mut self) -> Option<Child>
        requires { AreFilled self.old }
        ensures last { IfSome result (λ child. child_list self.old
            ≡ child_list self.new ++ child ∷ []) }
        ensures none { IfNone result ((child_list self.old ≡ []) × (child_list self.new ≡ [])) }
        ensures filled { AreFilled self.new }
    {
        match pop_of_pieces(&mut self.more) {
            Some(child) => Some(child),
            None => self.first.pop(),
        }
    }

    /// Returns the position of the first directory.
    fn first_position(&self) -> Position
        requires some { child_list self.now ≢ [] }
        requires filled { AreFilled self.now }
        ensures within { IsAt self.now result.piece result.index }
        ensures first { index_of_child self.now result.piece result.index ≡ 0 }
    {
        if self.first.is_empty() {
            return Position { piece: 1, index: 0 };
        }
        Position { piece: 0, index: 0 }
    }

    /// Replaces what is open in the first directory, and returns what was.
    fn replace_first(&mut self, inner: Open) -> Open
        requires some { child_list self.old ≢ [] }
        requires filled { AreFilled self.old }
        ensures replaced { (name : List ℕ) × (rest : List Child)
            × (parts (child_list self.old) ≡ (name, result) ∷ parts rest)
            × (parts (child_list self.new) ≡ (name, inner) ∷ parts rest) }
        ensures filled { AreFilled self.new }
    {
        let at = self.first_position();
        let child = self.at_mut(at);
        mem::replace(&mut child.open, inner)
    }
}

/// Removes the last directory of the last piece, and the piece if it is empty then.
fn pop_of_pieces(pieces: &mut Vec<Vec<Child>>) -> Option<Child>
    requires { AreNonEmpty (λ p. p.items) pieces.old.items }
    ensures last { IfSome result (λ child. flat_map (λ p. p.items) pieces.old.items
        ≡ flat_map (λ p. p.items) pieces.new.items ++ child ∷ []) }
    ensures none { IfNone result ((pieces.old.items ≡ []) × (pieces.new.items ≡ [])) }
    ensures filled { AreNonEmpty (λ p. p.items) pieces.new.items }
{
    let Some(mut piece) = pieces.pop() else {
        return None;
    };
    let Some(child) = piece.pop() else {
        unreachable!()
    };
    if piece.is_empty() {
        piece.destroy_empty();
        return Some(child);
    }
    match pieces.push(piece) {
        Ok(()) => Some(child),
        Err(_) => unreachable!(),
    }
}
