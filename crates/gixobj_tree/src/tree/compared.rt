//! Comparison and hashing of trees, entry by entry.
ghost use Rattle.std.specs.Prelude.{refl};
ghost use Rattle.std.specs.Cmp.{partial_equiv_from_equiv, partial_order_from_agreeing_total};
ghost use Rattle.std.specs.Ordering.{as_partial_cmp};
ghost use Rattle.gixobj_tree_entries.specs.EntryOrder.{same_tree, tree_cmp, tree_feed};
ghost use Rattle.gixobj_tree_entries.specs.EntryOrderLaws.{tree_cmp_total, tree_equiv, tree_ties, trees_alike};

use super::Tree;
use std::cmp::Ordering;
use std::hash::{Hash, Hasher};

impl PartialEq for Tree {
    ghost eq = { same_tree };

    ghost laws = { partial_equiv_from_equiv tree_equiv };

    fn eq(&self, other: &Tree) -> bool {
        self.entries == other.entries
    }
}

impl Eq for Tree {
    ghost laws = { tree_equiv };
}

impl Ord for Tree {
    ghost cmp = { tree_cmp };

    ghost total = { tree_cmp_total };

    ghost matches_partial_cmp = { λ x y. refl };

    ghost matches_eq = { tree_ties };

    fn cmp(&self, other: &Tree) -> Ordering {
        self.entries.cmp(&other.entries)
    }
}

impl PartialOrd for Tree {
    ghost partial_cmp = { as_partial_cmp tree_cmp };

    ghost laws = { partial_order_from_agreeing_total tree_cmp tree_cmp_total
        (λ x y. refl) tree_ties };

    fn partial_cmp(&self, other: &Tree) -> Option<Ordering> {
        Some(self.cmp(other))
    }
}

impl Hash for Tree {
    ghost hash_input = { tree_feed };

    ghost respects_eq = { trees_alike };

    fn hash<H: Hasher>(&self, state: &mut H) {
        self.entries.hash(state);
    }
}
