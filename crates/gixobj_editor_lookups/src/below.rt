//! Openings for edits at a path from an open directory, such as that of a cursor.
//!
//! The directories are opened before the path from the root is allocated: each lookup is made before any other
//! allocation that may fail.
ghost use Rattle.std.specs.Prelude.{◌≡◌, ◌≢◌, ◌⊎◌, ◌++◌, [], IfErr, IfOk, List, None, OnErr, OnOk, Option, Some};
ghost use Rattle.gixobj_tree_entries.specs.Entries.{EntryView};
ghost use Rattle.gixobj_tree.specs.WellFormed.{IsEntryName};
ghost use Rattle.gixobj_editor_files.specs.Bases.{opened_bases};
ghost use Rattle.gixobj_editor_files.specs.Edits.{IsNoTree, Opens, counted};
ghost use Rattle.gixobj_editor_files.specs.Files.{Path};
ghost use Rattle.gixobj_editor_files.specs.OpeningStops.{StopsOpening};
ghost use Rattle.gixobj_hash.specs.declared.hash.object_id.ObjectId.{ObjectId};
ghost use Rattle.gixobj_editor_open.specs.Descents.{IsDescended};
ghost use Rattle.gixobj_editor_open.specs.Nested.{bases_of, dirs_of};
ghost use Rattle.gixobj_editor_open.specs.Paths.{AreNames, names_of};
ghost use Rattle.gixobj_editor_lookups.specs.EditNames.{IsFirstNameError, StartsInvalid, directory_of, from_root};
ghost use Rattle.gixobj_editor_lookups.specs.FailedOpenings.{HasCounted, OpensInPart};
ghost use Rattle.gixobj_editor_lookups.specs.Openings.{EndsBefore, IsOpenErrorAt, OfTrees};
ghost use Rattle.gixobj_editor_lookups.specs.RemovalErrors.{IsRemovalErrorUpTo, ValidatesUpTo};
ghost use Rattle.gixobj_editor_lookups.specs.UpsertErrors.{IsCursorEditError, IsNameError, IsUpsertError};

use crate::error::Error;
use crate::names::{above, join_paths, split_for_removal, validate_names};
use crate::opening::{self, NotLookedUp, open_along};
use crate::removal::check_reached;
use bstr::BString;
use gixobj_editor_open::open::Open;
use gixobj_store::Find;
use gixobj_tree::Tree;
use std::alloc::Global;
use std::mem;

/// Opens each directory on a path from the open directory at a prefix, by the rules of [`open_along`].
///
/// Counts the lookups, and allocates, as [`open_along`] does. The prefix isn't copied.
///
/// # Errors
///
/// Those of [`open_along`], with the same effect.
fn open_below<S: Find>(
    alloc: Global,
    node: &mut Open,
    prefix: &[BString],
    path: &[BString],
    not_looked_up: NotLookedUp,
    store: &S,
    lookups: &mut u64,
) -> Result<(), opening::Error>
    requires { dirs_of node.old (names_of prefix.now) ≢ None }
    ensures opened { OnOk result (OfTrees (S.objects store.now)
        (λ trees. (looked_up : List ObjectId)
        × Opens (EndsBefore not_looked_up) trees (names_of prefix.now ++ names_of path.now)
        (dirs_of node.old) (dirs_of node.new) looked_up
        × (lookups.new ≡ counted lookups.old looked_up))) }
    ensures stopped_opening { IfErr result (λ error.
        OfTrees (S.objects store.now)
        (λ trees. (looked_up : List ObjectId) × (failed_lookup : Option ObjectId)
        × StopsOpening (EndsBefore not_looked_up) trees (names_of prefix.now ++ names_of path.now)
        (dirs_of node.old) (dirs_of node.new) looked_up failed_lookup
        × (lookups.new ≡ counted lookups.old looked_up)
        × IsOpenErrorAt (S.objects store.now) (S.may_fail store.now) failed_lookup error)) }
    ensures root { (entries : List EntryView) × (dirs_of node.old [] ≡ Some entries) }
    ensures bases { (at : Path) → bases_of node.new at
        ≡ opened_bases (dirs_of node.old) (dirs_of node.new) (bases_of node.old) at }
{
    let mut above = Open::new(alloc, Tree::empty(alloc));
    enter_all(node, &mut above, prefix);
    let opened = open_along(alloc, node, path, not_looked_up, store, lookups);
    node.leave(&mut above, prefix);
    opened
}

/// Enters the open directories of a path one after the other. Allocates nothing.
///
/// `node` is the last of them then, with those above it in `above`.
fn enter_all(node: &mut Open, above: &mut Open, path: &[BString])
    requires { dirs_of node.old (names_of path.now) ≢ None }
    ensures { IsDescended (names_of path.now) node.old node.new above.new }
{
    for name in path {
        let _ = node.exchange(name, above);
        mem::swap(node, above);
    }
}

/// Rejects the first of these names that is invalid, if the directory below the prefix is open.
fn check_reached_below(
    root: &Open,
    prefix: &[BString],
    directory: &[BString],
    names: &[BString],
) -> Result<(), Error>
    ensures accepted { OnOk result
        ((dirs_of root.now (names_of prefix.now ++ names_of directory.now) ≡ None)
        ⊎ AreNames (names_of names.now)) }
    ensures error { IfErr result (λ error. (entries : List EntryView)
        × (dirs_of root.now (names_of prefix.now ++ names_of directory.now) ≡ Some entries)
        × IsFirstNameError (names_of names.now) error) }
{
    let Some(top) = root.directory(prefix) else {
        return Ok(());
    };
    check_reached(top, directory, names)
}

/// Validates a path, opens the directories above it from the open directory at a prefix, and returns the path from the
/// root. The path has names.
///
/// Counts the lookups, and allocates, as [`open_along`] does, and the path from the root after that.
///
/// # Errors
///
/// Directories that were opened before the error are open afterwards. The others are unchanged.
///
/// - [`Error::EmptyPathComponent`] if the first invalid name is empty, before any lookup;
/// - [`Error::SlashInPathComponent`] if the first invalid name contains a `/`, before any lookup;
/// - otherwise the error of [`open_along`], as the case of the same name;
/// - [`Error::OutOfMemory`] also if the allocation of the path from the root fails.
pub fn open_for_upsert_below<S: Find>(
    alloc: Global,
    root: &mut Open,
    prefix: &[BString],
    path: &[BString],
    store: &S,
    lookups: &mut u64,
) -> Result<Vec<BString>, Error>
    requires is_open { dirs_of root.old (names_of prefix.now) ≢ None }
    requires names { AreNames (names_of prefix.now) }
    requires has_names { names_of path.now ≢ [] }
    ensures path { IfOk result (λ it. names_of it.items
        ≡ from_root (names_of prefix.now) (names_of path.now)) }
    ensures names { OnOk result (AreNames (from_root (names_of prefix.now) (names_of path.now))) }
    ensures opened { OnOk result (OfTrees (S.objects store.now)
        (λ trees. (looked_up : List ObjectId)
        × Opens IsNoTree trees
        (directory_of (from_root (names_of prefix.now) (names_of path.now))) (dirs_of root.old)
        (dirs_of root.new) looked_up × (lookups.new ≡ counted lookups.old looked_up))) }
    ensures after_error { IfErr result (λ error.
        OfTrees (S.objects store.now) (λ trees.
        OpensInPart IsNoTree (S.objects store.now) (S.may_fail store.now) trees
        (from_root (names_of prefix.now) (names_of path.now)) (dirs_of root.old) (dirs_of root.new)
        lookups.old lookups.new error
        × IsCursorEditError (names_of path.now) (IsUpsertError (S.objects store.now)
        (S.may_fail store.now) trees (dirs_of root.old)
        (from_root (names_of prefix.now) (names_of path.now))) error)) }
    ensures lookups { IfErr result (λ error. OfTrees (S.objects store.now) (λ trees.
        HasCounted IsNoTree trees (from_root (names_of prefix.now) (names_of path.now))
        (dirs_of root.old) (dirs_of root.new) lookups.old lookups.new error)) }
    ensures unchanged { IfErr result (λ error. IsNameError error
        → (dirs_of root.new ≡ dirs_of root.old) × (lookups.new ≡ lookups.old)) }
    ensures bases { (at : Path) → bases_of root.new at
        ≡ opened_bases (dirs_of root.old) (dirs_of root.new) (bases_of root.old) at }
{
    validate_names(path)?;
    let directory = above(path);
    open_below(
        alloc,
        root,
        prefix,
        directory,
        NotLookedUp::Opened,
        store,
        lookups,
    )?;
    let path = join_paths(alloc, prefix, path)?;
    Ok(path)
}

/// Opens the directories above a path from the open directory at a prefix, and validates each name that it reaches, as
/// [`open_for_removal`](crate::removal::open_for_removal) does. Returns the path from the root.
///
/// A path without names opens nothing. Counts the lookups, and allocates, as [`open_along`] does, and the path from the
/// root after that.
///
/// # Errors
///
/// Those of [`open_for_removal`](crate::removal::open_for_removal), with the same effect, and [`Error::OutOfMemory`] if
/// the allocation of the path from the root fails.
pub fn open_for_removal_below<S: Find>(
    alloc: Global,
    root: &mut Open,
    prefix: &[BString],
    path: &[BString],
    not_looked_up: NotLookedUp,
    store: &S,
    lookups: &mut u64,
) -> Result<Vec<BString>, Error>
    requires is_open { dirs_of root.old (names_of prefix.now) ≢ None }
    requires names { AreNames (names_of prefix.now) }
    ensures path { IfOk result (λ it. names_of it.items
        ≡ from_root (names_of prefix.now) (names_of path.now)) }
    ensures opened { OnOk result (OfTrees (S.objects store.now)
        (λ trees. (looked_up : List ObjectId)
        × Opens (EndsBefore not_looked_up) trees
        (directory_of (from_root (names_of prefix.now) (names_of path.now))) (dirs_of root.old)
        (dirs_of root.new) looked_up × (lookups.new ≡ counted lookups.old looked_up)
        × ((name : List _) → ValidatesUpTo (EndsBefore not_looked_up) trees (dirs_of root.old)
        (from_root (names_of prefix.now) (names_of path.now)) name → IsEntryName name))) }
    ensures after_error { IfErr result (λ error.
        OfTrees (S.objects store.now) (λ trees.
        OpensInPart (EndsBefore not_looked_up) (S.objects store.now) (S.may_fail store.now) trees
        (from_root (names_of prefix.now) (names_of path.now)) (dirs_of root.old) (dirs_of root.new)
        lookups.old lookups.new error
        × IsCursorEditError (names_of path.now) (IsRemovalErrorUpTo (EndsBefore not_looked_up)
        (S.objects store.now) (S.may_fail store.now) trees (dirs_of root.old)
        (from_root (names_of prefix.now) (names_of path.now))) error)) }
    ensures lookups { IfErr result (λ error. OfTrees (S.objects store.now) (λ trees.
        HasCounted (EndsBefore not_looked_up) trees
        (from_root (names_of prefix.now) (names_of path.now)) (dirs_of root.old)
        (dirs_of root.new) lookups.old lookups.new error)) }
    ensures unchanged { StartsInvalid (from_root (names_of prefix.now) (names_of path.now))
        → (dirs_of root.new ≡ dirs_of root.old) × (lookups.new ≡ lookups.old) }
    ensures bases { (at : Path) → bases_of root.new at
        ≡ opened_bases (dirs_of root.old) (dirs_of root.new) (bases_of root.old) at }
{
    let Some((_first, _rest)) = path.split_first() else {
        return Ok(Vec::new(alloc));
    };
    let (directory, rejected) = split_for_removal(path);
    open_below(
        alloc,
        root,
        prefix,
        directory,
        not_looked_up,
        store,
        lookups,
    )?;
    check_reached_below(root, prefix, directory, rejected)?;
    let path = join_paths(alloc, prefix, path)?;
    Ok(path)
}
