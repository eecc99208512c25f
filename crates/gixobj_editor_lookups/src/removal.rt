//! Opening of directories and validation of names along the path of a removal.
ghost use Rattle.std.specs.Prelude.{◌≡◌, ◌⊎◌, ◌∷◌, [], true, false, IfErr, IfOk, List, None, OnErr, OnOk, Some};
ghost use Rattle.bstr.specs.Owned.{bstring_bytes, joined};
ghost use Rattle.gixobj_editor_files.specs.Edits.{Opens, counted, entry_at};
ghost use Rattle.gixobj_editor_files.specs.Files.{Path};
ghost use Rattle.gixobj_editor_files.specs.Opening.{IsOpened};
ghost use Rattle.gixobj_editor_open.specs.Paths.{AreNames, names_of};
ghost use Rattle.gixobj_editor_open.specs.Nested.{bases_of, dirs_of};
ghost use Rattle.gixobj_editor_files.specs.Bases.{opened_bases};
ghost use Rattle.gixobj_editor_lookups.specs.Openings.{EndsBefore, OfTrees};
ghost use Rattle.gixobj_hash.specs.declared.hash.object_id.ObjectId.{ObjectId};
ghost use Rattle.gixobj_hash.specs.Bytes.{slash};
ghost use Rattle.gixobj_tree_entries.specs.Entries.{EntryView};
ghost use Rattle.gixobj_tree.specs.WellFormed.{IsEntryName};
ghost use Rattle.gixobj_tree_entries.specs.Mode.{is_tree_mode};
ghost use Rattle.gixobj_editor_lookups.specs.EditNames.{IsFirstNameError, StartsInvalid, directory_of};
ghost use Rattle.gixobj_editor_lookups.specs.FailedOpenings.{HasCounted, OpensInPart};
ghost use Rattle.gixobj_editor_lookups.specs.RemovalErrors.{ValidatesUpTo, IsLeafDirectoryError, IsRemovalErrorUpTo};

use crate::error::Error;
use crate::names::{split_for_removal, validate_names};
use crate::opening::{NotLookedUp, open_along};
use bstr::BString;
use gixobj_editor_open::open::Open;
use gixobj_store::Find;
use std::alloc::{AllocError, Global};

/// Opens the directories above a path, as far as they exist, and validates each name that it reaches.
///
/// Counts the lookups, and allocates, as [`open_along`] does.
///
/// # Errors
///
/// The first of these on the way from the root. Directories that were opened before it are still open.
///
/// - [`Error::EmptyPathComponent`] if a name is empty;
/// - [`Error::SlashInPathComponent`] if a name contains a `/`;
/// - otherwise the error of [`open_along`], as the case of the same name.
pub fn open_for_removal<S: Find>(
    alloc: Global,
    root: &mut Open,
    path: &[BString],
    not_looked_up: NotLookedUp,
    store: &S,
    lookups: &mut u64,
) -> Result<(), Error>
    ensures opened { OnOk result (OfTrees (S.objects store.now)
        (λ trees. (looked_up : List ObjectId)
        × Opens (EndsBefore not_looked_up) trees (directory_of (names_of path.now)) (dirs_of root.old)
        (dirs_of root.new) looked_up × (lookups.new ≡ counted lookups.old looked_up)
        × ((name : List _) → ValidatesUpTo (EndsBefore not_looked_up) trees (dirs_of root.old)
        (names_of path.now) name → IsEntryName name))) }
    ensures after_error { IfErr result (λ error.
        OfTrees (S.objects store.now) (λ trees.
        OpensInPart (EndsBefore not_looked_up) (S.objects store.now) (S.may_fail store.now) trees
        (names_of path.now) (dirs_of root.old) (dirs_of root.new) lookups.old lookups.new error
        × IsRemovalErrorUpTo (EndsBefore not_looked_up) (S.objects store.now)
        (S.may_fail store.now) trees (dirs_of root.old) (names_of path.now) error)) }
    ensures lookups { IfErr result (λ error. OfTrees (S.objects store.now) (λ trees.
        HasCounted (EndsBefore not_looked_up) trees (names_of path.now) (dirs_of root.old)
        (dirs_of root.new) lookups.old lookups.new error)) }
    ensures unchanged { StartsInvalid (names_of path.now)
        → (dirs_of root.new ≡ dirs_of root.old) × (lookups.new ≡ lookups.old) }
    ensures still_opened { IsOpened (dirs_of root.old) → IsOpened (dirs_of root.new) }
    ensures bases { (at : Path) → bases_of root.new at
        ≡ opened_bases (dirs_of root.old) (dirs_of root.new) (bases_of root.old) at }
{
    let (directory, rejected) = split_for_removal(path);
    open_along(alloc, root, directory, not_looked_up, store, lookups)?;
    check_reached(root, directory, rejected)
}

/// Rejects the first of these names that is invalid, if the directory above them is open.
pub(crate) fn check_reached(
    root: &Open,
    directory: &[BString],
    names: &[BString],
) -> Result<(), Error>
    ensures accepted { OnOk result ((dirs_of root.now (names_of directory.now) ≡ None)
        ⊎ AreNames (names_of names.now)) }
    ensures error { IfErr result (λ error. (entries : List EntryView)
        × (dirs_of root.now (names_of directory.now) ≡ Some entries)
        × IsFirstNameError (names_of names.now) error) }
{
    let Some(_reached) = root.directory(directory) else {
        return Ok(());
    };
    validate_names(names)
}

/// Rejects a path that leads to a directory, by the open directories alone. Only an error allocates.
///
/// # Errors
///
/// - [`Error::CannotRemoveNonLeaf`] with the path, if a directory is at it;
/// - [`Error::OutOfMemory`] if a directory is at it, and the allocation of that path fails.
pub fn check_leaf(alloc: Global, root: &Open, path: &[BString]) -> Result<(), Error>
    ensures accepted { OnOk result ((e : EntryView)
        → entry_at (names_of path.now) (dirs_of root.now) ≡ Some e → is_tree_mode e.mode ≡ false) }
    ensures error { IfErr result (λ error. (e : EntryView)
        × (entry_at (names_of path.now) (dirs_of root.now) ≡ Some e) × (is_tree_mode e.mode ≡ true)
        × IsLeafDirectoryError (names_of path.now) error) }
{
    let Some(entry) = root.get(path) else {
        return Ok(());
    };
    if !entry.mode.is_tree() {
        return Ok(());
    }
    let rela_path = join_names(alloc, path)?;
    Err(Error::CannotRemoveNonLeaf { rela_path })
}

/// Joins the names with a `/` between each two.
fn join_names(alloc: Global, path: &[BString]) -> Result<BString, AllocError>
    ensures { IfOk result (λ it. bstring_bytes it ≡ joined (slash ∷ []) (names_of path.now)) }
{
    let bytes = bstr::join(alloc, b"/", path)?;
    Ok(BString::from(bytes))
}
