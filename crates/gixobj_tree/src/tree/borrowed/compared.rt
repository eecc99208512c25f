//! Comparison and hashing of borrowed trees, entry by entry, consistent with owned trees.
ghost use Rattle.std.specs.Prelude.{refl};
ghost use Rattle.std.specs.Cmp.{on_equiv, on_total, partial_equiv_from_equiv, partial_order_from_agreeing_total};
ghost use Rattle.std.specs.Ordering.{as_partial_cmp, on};
ghost use Rattle.gixobj_tree_entries.specs.EntryOrder.{same_tree, tree_cmp, tree_feed};
ghost use Rattle.gixobj_tree_entries.specs.EntryOrderLaws.{tree_cmp_total, tree_equiv, tree_ties, trees_alike};
ghost use Rattle.gixobj_tree.specs.TreeViews.{tree_entries};

use super::TreeRef;
use std::cmp::Ordering;
use std::hash::{Hash, Hasher};

/// Trees are equal if their entries are.
impl PartialEq for TreeRef<'_> {
    ghost eq = { λ x y. same_tree (tree_entries x) (tree_entries y) };

    ghost laws = { partial_equiv_from_equiv (on_equiv tree_entries tree_equiv) };

    #[tactic(auto, using(crate::proofs::Viewed::same_tree_map_view))]
    fn eq(&self, other: &Self) -> bool {
        self.entries == other.entries
    }
}

impl Eq for TreeRef<'_> {
    ghost laws = { on_equiv tree_entries tree_equiv };
}

/// Orders trees entry by entry.
impl Ord for TreeRef<'_> {
    ghost cmp = { on tree_entries tree_cmp };

    ghost total = { on_total tree_entries tree_cmp_total };

    ghost matches_partial_cmp = { λ x y. refl };

    ghost matches_eq = { λ x y. tree_ties (tree_entries x) (tree_entries y) };

    fn cmp(&self, other: &Self) -> Ordering {
        self.entries.cmp(&other.entries)
    }
}

impl PartialOrd for TreeRef<'_> {
    ghost partial_cmp = { as_partial_cmp (on tree_entries tree_cmp) };

    ghost laws = { partial_order_from_agreeing_total (on tree_entries tree_cmp)
        (on_total tree_entries tree_cmp_total) (λ x y. refl)
        (λ x y. tree_ties (tree_entries x) (tree_entries y)) };

    fn partial_cmp(&self, other: &Self) -> Option<Ordering> {
        Some(self.cmp(other))
    }
}

/// Hashes the entries, like an owned tree.
impl Hash for TreeRef<'_> {
    ghost hash_input = { λ tree. tree_feed (tree_entries tree) };

    ghost respects_eq = { λ x y. trees_alike (tree_entries x) (tree_entries y) };

    fn hash<H: Hasher>(&self, state: &mut H) {
        self.entries.hash(state);
    }
}
