//! Laws of the definitions, on tables that agree with runs and trees that decode to themselves. The contract
//! of each function is a law.
ghost use Rattle.std.specs.Prelude.{◌≡◌, ℕ, All, Some, take};
ghost use Rattle.gixobj_store.specs.Stores.{Objects};
ghost use Rattle.gixobj_editor_lookups.specs.Openings.{AreTreesOf};
ghost use Rattle.gixobj_editor_files.specs.Files.{Table, Trees};
ghost use Rattle.gixobj_tree_entries.specs.Entries.{Pair};
ghost use Rattle.gixobj_editor_files.specs.Tables.{AgreesWithPairs, IsConsistentWith};
ghost use Rattle.gixobj_hash.specs.Hash.{id_kind};
ghost use Rattle.gixobj_editor.specs.Commands.{emitted_pairs, kept_pairs, written_at};
ghost use Rattle.gixobj_editor.specs.RunTables.{AgreesWithRun, DecodesToItself};
ghost use Rattle.gixobj_tree.specs.Rewriting.{RoundTrips};

use crate::editor::Written;
use crate::reply::Reply;
use gixobj_tree::laws::{tree_decodes_uniquely, tree_round_trips};

/// Some table agrees with a run if the emitted pairs are consistent with the store's trees before it, and
/// each kept tree decodes to itself.
///
/// Consistent pairs name no tree by a null id, only the empty tree by its id, and no two trees by one id. The
/// trees of the store count too. A tree decodes to itself if its encoding decodes to no other well-formed
/// tree.
pub fn consistent_run_has_table<E>(replies: &[Reply<E>])
    ensures { (objects : Objects) (trees : Trees) → AreTreesOf objects trees
        → IsConsistentWith (emitted_pairs replies.now) trees
        → All DecodesToItself (kept_pairs replies.now) → (T : Table)
        × AgreesWithRun T objects replies.now }
{}

/// A table that agrees with a run agrees with what is before each write of the root, and with its trees.
///
/// These are the assumptions on tables of the theorem of files in [`run`](crate::run).
pub fn run_table_agrees_with_writes<E>(replies: &[Reply<E>])
    ensures { (T : Table) (objects : Objects) (k : ℕ) (written : Written)
        → AgreesWithRun T objects replies.now → written_at replies.now k ≡ Some written
        → AgreesWithRun T objects (take k replies.now) × AgreesWithPairs T written.trees.items }
{}

/// The encoding of a tree decodes to no other well-formed tree if each entry round-trips.
///
/// An entry round-trips if its name has no zero byte and its id is of the kind of the tree's id. Its mode
/// must have at most 16 bits, and be neither 0 nor in 0o140001 to 0o147777.
pub fn encodable_tree_decodes_to_itself()
    ensures { (pair : Pair) → All (RoundTrips (id_kind pair.0)) pair.1 → DecodesToItself pair }
{
    tree_round_trips();
    tree_decodes_uniquely();
}
