//! Laws of lookups by a path, and of the outcomes of openings, edits and writes. The contract of each function
//! is a law.
ghost use Rattle.std.specs.Prelude.{◌≡◌, ℕ, List, Option};
ghost use Rattle.gix_object.specs.Bases.{edited_bases};
ghost use Rattle.gix_object.specs.Edits.{IsNoTree, IsNotLookedUp, Opens, removed_dirs, upserted_dirs};
ghost use Rattle.gix_object.specs.Emission.{Emits};
ghost use Rattle.gix_object.specs.Entries.{EntryView, Pair};
ghost use Rattle.gix_object.specs.Files.{Files, Path, Table, Trees};
ghost use Rattle.gix_object.specs.LookedUp.{IsFileIn, IsLookedUp};
ghost use Rattle.gix_object.specs.Lookups.{LeadsTo, Name};
ghost use Rattle.gix_object.specs.Opening.{Dirs};
ghost use Rattle.gix_object.specs.Openings.{AreTreesOf};
ghost use Rattle.gix_object.specs.Stores.{Objects, StoredObject};
ghost use Rattle.gix_object.specs.Tables.{IsTableOfStore};
ghost use Rattle.gix_object.specs.TreeDecoding.{DecodesToTree};
ghost use Rattle.gix_object.specs.WellFormed.{IsWellFormed};
ghost use Rattle.gix_object.specs.hash.hash.kind.Kind.{Kind};
ghost use Rattle.gix_object.specs.hash.hash.object_id.ObjectId.{ObjectId};
ghost use Rattle.gixobj_examples_audits.specs.Outcomes.{AreSameDirs, HaveIdsBy};

use gix_object::laws::{id_equality_is_decidable, tree_decodes_uniquely};

/// A file of a stored tree is found by a lookup of its path, through directories of the store.
///
/// The tree is well-formed, and its files are those of the store's own table. `looked_up_file_exists` is the
/// converse.
pub fn file_is_looked_up()
    ensures { (objects : Objects) (trees : Trees) → AreTreesOf objects trees → (T : Table)
        → IsTableOfStore T trees → (kind : Kind) (bytes : List ℕ) (root : List EntryView)
        → DecodesToTree kind bytes root → IsWellFormed root → (n : ℕ) (names : List Name) (mode : ℕ)
        (id : ObjectId) → Files T n root names mode id → (e : EntryView)
        × IsLookedUp objects kind bytes names e × IsFileIn T e × (e.mode ≡ mode) × (e.id ≡ id) }
{
    id_equality_is_decidable();
}

/// A path leads to at most one entry.
pub fn path_leads_to_one_entry()
    ensures { (objects : Objects) (first : Option StoredObject) (names : List Name)
        (e other : EntryView) → LeadsTo objects first names e → LeadsTo objects first names other
        → e ≡ other }
{
    tree_decodes_uniquely();
}

/// Writes of the same open directories with the same bases emit the same trees, if ids are a function of the
/// trees, as digests are. They leave out as many unchanged directories.
pub fn write_has_one_outcome()
    ensures { (id_by : List EntryView → ObjectId) (dirs others bases its : Dirs) (saved saved' : ℕ)
        (pairs pairs' : List Pair) → AreSameDirs dirs others → AreSameDirs bases its
        → HaveIdsBy id_by pairs → HaveIdsBy id_by pairs' → Emits dirs bases saved pairs
        → Emits others its saved' pairs' → (pairs ≡ pairs') × (saved ≡ saved') }
{}

/// Openings of a path in the same open directories open the same directories, and look up the same ids.
///
/// - `openings`: before an edit; they end before an entry that isn't a directory's.
/// - `leaf_openings`: before the removal of a leaf; they also end before ids that are never looked up.
pub fn opening_has_one_outcome()
    ensures openings { (trees : Trees) (path : Path) (dirs others new new' : Dirs)
        (looked_up looked_up' : List ObjectId) → AreSameDirs dirs others
        → Opens IsNoTree trees path dirs new looked_up → Opens IsNoTree trees path others new' looked_up'
        → AreSameDirs new new' × (looked_up ≡ looked_up') }
    ensures leaf_openings { (trees : Trees) (path : Path) (dirs others new new' : Dirs)
        (looked_up looked_up' : List ObjectId) → AreSameDirs dirs others
        → Opens IsNotLookedUp trees path dirs new looked_up
        → Opens IsNotLookedUp trees path others new' looked_up'
        → AreSameDirs new new' × (looked_up ≡ looked_up') }
{}

/// Upserts in the same open directories leave the same directories and bases, and so do removals.
pub fn edit_has_one_outcome()
    ensures upsert { (path : Path) (mode : ℕ) (id null : ObjectId) (dirs others bases its : Dirs)
        → AreSameDirs dirs others → AreSameDirs bases its
        → AreSameDirs (upserted_dirs path mode id null dirs) (upserted_dirs path mode id null others)
        × AreSameDirs (edited_bases dirs (upserted_dirs path mode id null dirs) bases)
        (edited_bases others (upserted_dirs path mode id null others) its) }
    ensures removal { (path : Path) (dirs others bases its : Dirs)
        → AreSameDirs dirs others → AreSameDirs bases its
        → AreSameDirs (removed_dirs path dirs) (removed_dirs path others)
        × AreSameDirs (edited_bases dirs (removed_dirs path dirs) bases)
        (edited_bases others (removed_dirs path others) its) }
{}
