//! Laws of stores and lookups by a path. The contract of each function is a law.
ghost use Rattle.std.specs.Prelude.{ℕ, List, length};
ghost use Rattle.gixobj_store.specs.Lookups.{Name};
ghost use Rattle.gixobj_store.specs.Stores.{Objects};
ghost use Rattle.gixobj_editor_lookups.specs.LookedUp.{IsFileIn, IsLookedUp};
ghost use Rattle.gixobj_editor_lookups.specs.Openings.{AreTreesOf};
ghost use Rattle.gixobj_editor_files.specs.Files.{Files, Table, Trees};
ghost use Rattle.gixobj_editor_files.specs.Tables.{AgreesWithStore};
ghost use Rattle.gixobj_hash.specs.declared.hash.kind.Kind.{Kind};
ghost use Rattle.gixobj_tree_entries.specs.TreeDecoding.{DecodesToTree};
ghost use Rattle.gixobj_tree_entries.specs.Entries.{EntryView};

/// Every store has a map of the well-formed trees that it names.
///
/// A statement about all such maps of a store is therefore never vacuous.
pub fn store_has_tree_map()
    ensures { (objects : Objects) → (trees : Trees) × AreTreesOf objects trees }
{}

/// A file that a lookup by a path finds is a file of the tree that the lookup began with, at that path.
///
/// The lookup leads through well-formed trees of the store. This holds in every table that agrees with the
/// store.
pub fn looked_up_file_exists()
    ensures { (objects : Objects) (trees : Trees) → AreTreesOf objects trees → (T : Table)
        → AgreesWithStore T trees → (kind : Kind) (bytes : List ℕ) (root : List EntryView)
        (names : List Name) (e : EntryView) → DecodesToTree kind bytes root
        → IsLookedUp objects kind bytes names e → IsFileIn T e
        → Files T (length names) root names e.mode e.id }
{}
