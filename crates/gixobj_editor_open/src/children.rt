//! The open directories in a directory, in the order of their entries, and in pieces.
ghost use Rattle.std.specs.Prelude.{◌≡◌, ◌∷◌, [], IfNone, IfOk, IfSome, List, None, Some, get_or, true};
ghost use Rattle.std.specs.Borrow.{sem};
ghost use Rattle.std.specs.List.{position};
ghost use Rattle.std.specs.Option.{option_copied};
ghost use Rattle.bstr.specs.Owned.{bstring_bytes};
ghost use Rattle.gixobj_editor_files.specs.Editing.{same_name};
ghost use Rattle.gixobj_editor_entries.specs.Pieces.{AreNonEmpty};
ghost use Rattle.gixobj_editor_open.specs.Children.{HasRoom, IsAt, LendsChild, index_of_child, remaining_list};
ghost use Rattle.gixobj_editor_open.specs.Nested.{AreFilled, AreOrdered, called, child_list, other_parts, parts};
ghost use Rattle.gixobj_editor_open.specs.Nested.{with_part};
ghost use Rattle.gixobj_editor_open.specs.Children.{next_child, pairs_after_next};
ghost use Rattle.gixobj_editor_open.specs.declared.open.Child.{Child};

use crate::open::{Child, Children, Open};
use bstr::BString;
use gixobj_editor_entries::named::Named;
use gixobj_editor_entries::pieces;
use gixobj_editor_entries::positions::{Position, position_of};
use gixobj_editor_entries::splits::reserve;
use gixobj_tree::tree::Entry;
use std::alloc::{AllocError, Global};

impl Named for Child {
    ghost use Rattle.std.specs.Prelude.{true};
    ghost use Rattle.bstr.specs.Owned.{bstring_bytes};

    ghost name_of = { λ c. bstring_bytes c.name };

    ghost is_tree_of = { λ _. true };

    #[inline(always)]
    fn name(&self) -> &[u8] {
        self.name.as_bytes()
    }

    #[inline(always)]
    fn is_tree(&self) -> bool {
        true
    }

    #[inline(always)]
    fn has_files() -> bool {
        false
    }
}

impl Child {
    /// Returns `true` if it has this name.
    fn is_named(&self, name: &BString) -> bool
        ensures { result ≡ same_name (bstring_bytes self.now.name) (bstring_bytes name.now) }
    {
        self.name.as_bytes() == name.as_bytes()
    }
}

impl Children {
    /// Makes an empty list. Allocates nothing.
    pub fn new(alloc: Global) -> Children
        ensures list { child_list result ≡ [] }
        ensures filled { AreFilled result }
    {
        Children {
            first: Vec::new(alloc),
            more: Vec::new(alloc),
        }
    }

    /// Returns the position of the directory of a name, if it is open. Allocates nothing.
    pub fn position(&self, name: &BString) -> Option<Position>
        requires ordered { AreOrdered (parts (child_list self.now)) }
        requires filled { AreFilled self.now }
        ensures within { IfSome result (λ at. IsAt self.now at.piece at.index) }
        ensures found { IfSome result (λ at. Some (index_of_child self.now at.piece at.index)
            ≡ position (called (bstring_bytes name.now)) (child_list self.now)) }
        ensures none { IfNone result (None
            ≡ position (called (bstring_bytes name.now)) (child_list self.now)) }
    {
        let first: &[Child] = &self.first;
        let more: &[Vec<Child>] = &self.more;
        position_of(first, more, name.as_bytes(), true)
    }

    /// Returns the directory at a position.
    pub(crate) fn at(&self, at: Position) -> &Child
        requires { IsAt self.now at.piece at.index }
        ensures { result.now ≡ get_or (child_list self.now)
            (index_of_child self.now at.piece at.index)
            result.now }
    {
        if at.piece == 0 {
            return &self.first[at.index];
        }
        let piece = &self.more[at.piece - 1];
        &piece[at.index]
    }

    /// Returns the directory at a position, to change what is open in it.
    pub fn at_mut(&mut self, at: Position) -> &mut Child
        requires { IsAt self.old at.piece at.index }
        ensures* writes_back { sem 𝓛 (LendsChild self.entry at.piece at.index result) }
        ensures value { result.now ≡ get_or (child_list self.old)
            (index_of_child self.old at.piece at.index) result.now }
    {
        if at.piece == 0 {
            return &mut self.first[at.index];
        }
        let piece = &mut self.more[at.piece - 1];
        &mut piece[at.index]
    }

    /// Copies the name of a directory, reserves capacity for it, and returns the number of its piece too.
    ///
    /// The list is unchanged.
    ///
    /// # Errors
    ///
    /// [`AllocError`] if an allocation fails.
    pub fn room_for(
        &mut self,
        alloc: Global,
        name: &BString,
    ) -> Result<(BString, usize), AllocError>
        requires ordered { AreOrdered (parts (child_list self.old)) }
        requires filled { AreFilled self.old }
        ensures name { IfOk result (λ it. bstring_bytes it.0 ≡ bstring_bytes name.now) }
        ensures room { IfOk result (λ it. HasRoom self.new (bstring_bytes name.now) it.1) }
        ensures list { child_list self.new ≡ child_list self.old }
        ensures filled { AreFilled self.new }
    {
        let copied = BString::from_slice(alloc, name.as_bytes())?;
        let piece = reserve(&mut self.first, &mut self.more, name.as_bytes(), true)?;
        Ok((copied, piece))
    }

    /// Inserts a directory at the position of its entry, in place of any of its name. Allocates nothing.
    ///
    /// `piece` is the number of its piece, which [`Children::room_for`] returns.
    pub fn insert(&mut self, piece: usize, name: BString, inner: Open)
        requires ordered { AreOrdered (parts (child_list self.old)) }
        requires filled { AreFilled self.old }
        requires room { HasRoom self.old (bstring_bytes name) piece }
        ensures inserted { parts (child_list self.new) ≡ with_part (bstring_bytes name, inner)
            (parts (child_list self.old)) }
        ensures filled { AreFilled self.new }
    {
        let child = Child { name, open: inner };
        let _ = pieces::insert_at(&mut self.first, &mut self.more, piece, child);
    }

    /// Closes the directory of a name. Allocates nothing.
    pub fn remove(&mut self, name: &BString)
        requires ordered { AreOrdered (parts (child_list self.old)) }
        requires filled { AreFilled self.old }
        ensures removed { parts (child_list self.new) ≡ other_parts (bstring_bytes name.now)
            (parts (child_list self.old)) }
        ensures filled { AreFilled self.new }
    {
        let _ = pieces::remove(&mut self.first, &mut self.more, name.as_bytes(), true);
    }

    /// Returns the first directory, if there is one.
    pub(crate) fn first_child(&self) -> Option<&Child>
        requires { AreFilled self.now }
        ensures some { IfSome result (λ child. (rest : List Child)
            × (child_list self.now ≡ child.now ∷ rest)) }
        ensures none { IfNone result (child_list self.now ≡ []) }
    {
        let all = self.remaining();
        let remaining = all.without_empty_piece();
        let Some((child, _)) = remaining.piece.split_first() else {
            return None;
        };
        Some(child)
    }

    /// Returns all of these directories, as those that a walk hasn't reached.
    pub fn remaining(&self) -> Remaining<'_>
        requires { AreFilled self.now }
        ensures list { remaining_list result ≡ child_list self.now }
        ensures filled { AreNonEmpty (λ p. p.items) result.more.now }
    {
        Remaining {
            piece: &self.first,
            more: &self.more,
        }
    }
}

/// The open directories in a directory that a walk hasn't reached, in their order.
#[derive(Clone, Copy)]
pub struct Remaining<'a> {
    /// The remaining directories of the piece that was reached.
    pub piece: &'a [Child],
    /// The pieces after it.
    pub more: &'a [Vec<Child>],
}

impl<'a> Remaining<'a> {
    /// Returns the next directory if it is the entry's, and those after it.
    ///
    /// The directories are in the order of their entries, so there is no search. Allocates nothing.
    pub fn next_of(self, entry: &Entry) -> (Option<&'a Child>, Remaining<'a>)
        requires { AreNonEmpty (λ p. p.items) self.more.now }
        ensures next { option_copied result.0
            ≡ next_child entry.now.name (remaining_list self.entry) }
        ensures following { remaining_list result.1 ≡ pairs_after_next entry.now.name
            (remaining_list self.entry) }
        ensures filled { AreNonEmpty (λ p. p.items) result.1.more.now }
    {
        let remaining = self.without_empty_piece();
        let (child, piece) = next_in(remaining.piece, entry);
        let more = remaining.more;
        (child, Remaining { piece, more })
    }

    /// Returns the next directory, and those after it.
    pub(crate) fn next(self) -> (Option<&'a Child>, Remaining<'a>)
        requires { AreNonEmpty (λ p. p.items) self.more.now }
        ensures some { IfSome result.0 (λ child. remaining_list self.entry
            ≡ child.now ∷ remaining_list result.1) }
        ensures none { IfNone result.0 (remaining_list self.entry ≡ []) }
        ensures filled { AreNonEmpty (λ p. p.items) result.1.more.now }
    {
        let remaining = self.without_empty_piece();
        let more = remaining.more;
        let Some((child, piece)) = remaining.piece.split_first() else {
            return (None, remaining);
        };
        (Some(child), Remaining { piece, more })
    }

    /// Leaves out the first piece if it is empty.
    fn without_empty_piece(self) -> Remaining<'a>
        requires { AreNonEmpty (λ p. p.items) self.more.now }
        ensures list { remaining_list result ≡ remaining_list self.entry }
        ensures filled { AreNonEmpty (λ p. p.items) result.more.now }
        ensures none { result.piece.now ≡ [] → remaining_list result ≡ [] }
    {
        if !self.piece.is_empty() {
            return self;
        }
        match self.more.split_first() {
            Some((piece, more)) => Remaining { piece, more },
            None => self,
        }
    }
}

/// Returns the next directory of a piece if it is the entry's, and those after it.
fn next_in<'a>(piece: &'a [Child], entry: &Entry) -> (Option<&'a Child>, &'a [Child])
    ensures next { option_copied result.0 ≡ next_child entry.now.name piece.now }
    ensures following { result.1.now ≡ pairs_after_next entry.now.name piece.now }
{
    match piece.split_first() {
        Some((child, tail)) if child.is_named(&entry.filename) => (Some(child), tail),
        _ => (None, piece),
    }
}
