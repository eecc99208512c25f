//! Laws of ids and files of canonical trees. The contract of each function is a law.
ghost use Rattle.std.specs.Prelude.{◌≡◌, ◌↔◌, ℕ};
ghost use Rattle.gix_object.specs.Files.{NamedFiles, SameFiles, Table, Trees};
ghost use Rattle.gix_object.specs.Tables.{AgreesWithStore};
ghost use Rattle.gix_object.specs.hash.hash.kind.Kind.{Kind};
ghost use Rattle.gix_object.specs.hash.hash.object_id.ObjectId.{ObjectId};
ghost use Rattle.gixobj_examples_audits.specs.Canonical.{AgreesWithBoth, IsCanonicalRoot};

use gix_object::laws::{built_trees_are_unique, directory_has_files_of_tree};

/// Canonical roots of two stores have equal ids if and only if they have the same files, at every depth.
///
/// A canonical tree is well-formed, without null ids and empty directories; so is each tree below it. The modes
/// of directories are `040000`. The files are those in any table that agrees with the root's own store. Some
/// table agrees with both stores, and no tree has two ids of one kind in it.
pub fn equal_files_have_equal_ids()
    ensures { (T U shared : Table) (trees others : Trees) (hash : Kind) (n m : ℕ) (x y : ObjectId)
        → AgreesWithStore T trees → AgreesWithStore U others → AgreesWithBoth shared trees others
        → IsCanonicalRoot trees hash n x → IsCanonicalRoot others hash m y
        → (x ≡ y) ↔ ((k : ℕ) → SameFiles (NamedFiles T k x) (NamedFiles U k y)) }
{
    built_trees_are_unique();
    directory_has_files_of_tree();
}
