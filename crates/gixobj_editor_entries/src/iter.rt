//! Iteration over a list in pieces.
ghost use Rattle.std.specs.Prelude.{◌≡◌, ◌++◌};
ghost use Rattle.std.specs.List.{flat_map};
ghost use Rattle.std.specs.Iterator.{YieldsFirstRef, item_count};
ghost use Rattle.gixobj_editor_entries.specs.Pieces.{joined};

/// An iterator over the items of a list in pieces, in their order. [`iter`] makes one.
#[derive(Drop)]
pub struct Items<'a, T> {
    pub(crate) piece: &'a [T],
    pub(crate) rest: &'a [Vec<T>],
}

/// Returns an iterator over the items of a list, in their order. Allocates nothing.
pub fn iter<'a, T>(first: &'a [T], more: &'a [Vec<T>]) -> Items<'a, T>
    ensures { joined (λ p. p.items) result.piece.now result.rest.now
        ≡ joined (λ p. p.items) first.now more.now }
{
    Items {
        piece: first,
        rest: more,
    }
}

impl<'a, T> Iterator for Items<'a, T> {
    type Item = &'a T;

    ghost next_gives = { YieldsFirstRef (λ s. s.piece.now ++ flat_map (λ p. p.items) s.rest.now) };

    ghost remaining = { item_count (λ s. s.piece.now ++ flat_map (λ p. p.items) s.rest.now) };

    fn next(&mut self) -> Option<&'a T> {
        while self.piece.is_empty() {
            let (next, rest) = self.rest.split_first()?;
            self.piece = next;
            self.rest = rest;
        }
        let (first, others) = self.piece.split_first()?;
        self.piece = others;
        Some(first)
    }
}
