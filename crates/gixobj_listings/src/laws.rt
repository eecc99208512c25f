//! Laws of roots, of changes and of logs. The contract of each function is a law.
ghost use Rattle.std.specs.Prelude.{◌≡◌, ◌≤◌, ℕ, Bool, List, length};
ghost use Rattle.gix_object.specs.Files.{NamedFiles, SameFiles, Table};
ghost use Rattle.gix_object.specs.History.{FilesAfter, Step};
ghost use Rattle.gix_object.specs.Stores.{Objects};
ghost use Rattle.gix_object.specs.hash.hash.object_id.ObjectId.{ObjectId};
ghost use Rattle.gixobj_listings.specs.Changes.{AreChanges, ChangeView};
ghost use Rattle.gixobj_listings.specs.Histories.{EndAlike, IsLog, LoggedView, NeverFails};
ghost use Rattle.gixobj_listings.specs.Roots.{StoredRootHasFiles};
ghost use Rattle.gixobj_listings.specs.declared.history.LogEnd.{LogEnd};

use gix_object::laws::{
    actor_line_decodes_uniquely, commit_decodes_uniquely, hex_decodes_uniquely,
    id_equality_is_decidable,
};

/// The files of a stored root are those that a table has by its id, if the table agrees with the store.
///
/// The id isn't null: a table has no tree by a null id.
pub fn stored_root_has_files()
    ensures { StoredRootHasFiles }
{
    id_equality_is_decidable();
}

/// The changes between two trees are those that steps make of the first tree's files, if the steps make the
/// second's of them.
pub fn tree_changes_are_step_changes()
    ensures { (T : Table) (n : ℕ) (from to : ObjectId) (steps : List Step)
        (changes : List ChangeView)
        → SameFiles (NamedFiles T n to) (FilesAfter T n steps (NamedFiles T n from))
        → AreChanges (NamedFiles T n from) (NamedFiles T n to) changes
        → AreChanges (NamedFiles T n from) (FilesAfter T n steps (NamedFiles T n from)) changes }
{}

/// A log is unique if no lookup fails: two logs of one tip have the same commits, and they end alike.
pub fn log_is_unique()
    ensures { (objects : Objects) (may_fail : ObjectId → Bool) (max : ℕ) (tip : ObjectId)
        (first second : List LoggedView) (end end' : LogEnd) → NeverFails may_fail
        → IsLog objects may_fail max tip first end → length first ≤ max
        → IsLog objects may_fail max tip second end' → length second ≤ max
        → (first ≡ second) × EndAlike end end' }
{
    commit_decodes_uniquely();
    actor_line_decodes_uniquely();
    hex_decodes_uniquely();
}
