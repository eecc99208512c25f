//! Laws of imports. The contract of each function is a law.
ghost use Rattle.std.specs.Prelude.{All, None};
ghost use Rattle.gixobj_store.specs.Stores.{Objects};
ghost use Rattle.gixobj_editor_lookups.specs.Openings.{AreTreesOf};
ghost use Rattle.gixobj_editor_files.specs.Files.{Table, Trees};
ghost use Rattle.gixobj_editor_files.specs.Tables.{IsConsistentWith};
ghost use Rattle.gixobj_editor_import.specs.Imports.{AgreesWithImports, pairs_of_imports};
ghost use Rattle.gixobj_editor.specs.RunTables.{DecodesToItself};

use crate::import::{Imported, Step};
use gixobj_editor_files::laws::consistent_pairs_have_table;
use gixobj_store::laws::{id_equality_is_decidable, object_map_insert};

/// Some table agrees with an import by a new importer, if the emitted trees are consistent.
///
/// They must be consistent with the store's trees before the import, and each must decode to itself.
///
/// Consistent pairs name no tree by a null id, only the empty tree by its id, and no two trees by one id. The
/// trees of the store count too. A tree decodes to itself if its encoding decodes to no other well-formed
/// tree. The law holds for every store, since its objects may be any.
pub fn consistent_import_has_table(steps: &[Step], imported: &[Imported])
    ensures { (objects : Objects) (trees : Trees) → AreTreesOf objects trees
        → IsConsistentWith (pairs_of_imports imported.now) trees
        → All DecodesToItself (pairs_of_imports imported.now) → (T : Table)
        × AgreesWithImports T objects None steps.now imported.now }
{
    object_map_insert();
    id_equality_is_decidable();
    consistent_pairs_have_table();
}
