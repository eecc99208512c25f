//! Laws of tables and histories of edits. Each function does nothing: its contract is the law.
ghost use Rattle.std.specs.Prelude.{◌↔◌, ◌≤◌, ℕ, All, List, length};
ghost use Rattle.std.specs.FinMap as map;
ghost use Rattle.gixobj_tree_entries.specs.Entries.{EntryView, Pair};
ghost use Rattle.gixobj_tree.specs.WellFormed.{IsWellFormed};
ghost use Rattle.gixobj_hash.specs.declared.hash.object_id.ObjectId.{ObjectId};
ghost use Rattle.gixobj_editor_files.specs.BuiltTrees.{BuiltTreesAreUnique, DirectoryHasFilesOfTree, NullIdTestDecides};
ghost use Rattle.gixobj_editor_files.specs.Files.{Path, Table, Trees};
ghost use Rattle.gixobj_editor_files.specs.History.{FilesAfter, Step};
ghost use Rattle.gixobj_editor_files.specs.Opening.{IsOpened};
ghost use Rattle.gixobj_editor_files.specs.PlainHistory.{HasNoTree, NoFiles, PlainFilesAfter};
ghost use Rattle.gixobj_editor_files.specs.State.{root_alone};
ghost use Rattle.gixobj_editor_files.specs.Tables.{AgreesWithPairs, AgreesWithStore, IsConsistentWith, IsTableOfStore};
ghost use Rattle.gixobj_editor_files.specs.Tables.{IsTableOf};

/// Every list of pairs, each an id with its tree, has a table.
///
/// A statement about all tables of a list is therefore never vacuous.
pub fn list_has_table()
    ensures { (pairs : List Pair) → (T : Table) × IsTableOf T pairs }
{}

/// Every store has a table of its own, with the trees that the store names and no other.
pub fn store_has_table()
    ensures { (trees : Trees) → (T : Table) × IsTableOfStore T trees }
{}

/// A store and the pairs of emitted trees have a common table if the pairs are consistent with the store.
///
/// Pairs are consistent if no id names two trees; `IsConsistentWith` has all conditions.
pub fn consistent_pairs_have_table()
    ensures { (pairs : List Pair) (trees : Trees) → IsConsistentWith pairs trees → (T : Table)
        × AgreesWithStore T trees × AgreesWithPairs T pairs }
{}

/// A well-formed root that is open alone satisfies the invariant of open directories.
pub fn single_root_is_opened()
    ensures { (entries : List EntryView) → IsWellFormed entries
        → IsOpened (λ path. map.get (root_alone entries) path) }
{}

/// Steps that start without files make the same files in every table.
///
/// The steps may upsert all but trees, and set only the empty root. `PlainFilesAfter` states their files from
/// the steps alone, with paths of any length.
pub fn plain_history_is_table_independent()
    ensures { (steps : List Step) → All HasNoTree steps
        → (T : Table) (n : ℕ) (path : Path) (mode : ℕ) (id : ObjectId)
        → FilesAfter T n steps NoFiles path mode id
        ↔ ((length path ≤ n) × PlainFilesAfter steps NoFiles path mode id) }
{}

/// Trees whose directories have the ids of pairs are equal if their files are.
///
/// Each directory's pair has the tree of its id in the table, and no tree of the pairs has two ids.
pub fn built_trees_are_unique()
    ensures { BuiltTreesAreUnique }
{}

/// The files at and below a directory are those of the tree that the table has by its id.
pub fn directory_has_files_of_tree()
    ensures { DirectoryHasFilesOfTree }
{}

/// The test for a null id in the definitions of files agrees with the null id: each of its bytes is zero.
pub fn null_id_test_decides()
    ensures { NullIdTestDecides }
{}
