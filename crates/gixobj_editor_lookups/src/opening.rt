//! Opening of the directories on a path, whose trees are looked up in a store.
ghost use Rattle.std.specs.Prelude.{◌≡◌, ◌↔◌, ◌∷◌, ◌≤◌, [], IfErr, IfNone, IfOk, IfSome, IsTrue, List, OnErr, OnOk};
ghost use Rattle.std.specs.Prelude.{Option, Some, false, length, reverse, take, true};
ghost use Rattle.bstr.specs.Owned.{bstring_bytes};
ghost use Rattle.gixobj_tree_entries.specs.Entries.{EntryView};
ghost use Rattle.gixobj_tree.specs.WellFormed.{IsWellFormed};
ghost use Rattle.gixobj_tree_entries.specs.Mode.{is_tree_mode};
ghost use Rattle.gixobj_editor_files.specs.Edits.{Finds, IsEntryOf, Opens, counted};
ghost use Rattle.gixobj_editor_files.specs.Files.{ContainsEntry, Path};
ghost use Rattle.gixobj_editor_files.specs.OpeningStops.{StopsOpening};
ghost use Rattle.gixobj_editor_files.specs.Opening.{IsOpened};
ghost use Rattle.gixobj_editor_files.specs.Tables.{IsNeverLookedUp};
ghost use Rattle.gixobj_hash.specs.declared.hash.object_id.ObjectId.{ObjectId};
ghost use Rattle.gixobj_editor_open.specs.Paths.{names_of};
ghost use Rattle.gixobj_editor_files.specs.Bases.{opened_bases};
ghost use Rattle.gixobj_editor_open.specs.Descents.{AreAbove, KeepsOpen, top_of};
ghost use Rattle.gixobj_editor_open.specs.Nested.{bases_of, dirs_of};
ghost use Rattle.gixobj_editor_lookups.specs.Openings.{EndsBefore, NamesTree, OfTrees, IsOpenErrorAt, IsDirectoryError};
ghost use Rattle.gixobj_editor_lookups.specs.declared.opening.NotLookedUp.TheVariants.{Unopened};

use bstr::BString;
use gixobj_editor_files::open_entries::Entries;
use gixobj_editor_open::descent::MAX_RECURSIVE;
use gixobj_editor_open::open::{Open, copy_tree};
use gixobj_hash::hash::ObjectId;
use gixobj_hash::{OutOfMemory, decode};
use gixobj_store::{Find, find};
use gixobj_store_keep::find::{existing_object, existing_tree};
use gixobj_tree::Tree;
use std::alloc::{AllocError, Global};
use std::{mem, slice};

/// The error of [`open_along`]: why a directory isn't opened.
#[derive(Debug, Drop, thiserror::Error)]
pub enum Error {
    /// The lookup of the directory's tree failed, with this error.
    ///
    /// The store failed, has no object with that id, or has one that can't be decoded or is of another kind.
    #[error("{0}")]
    FindExistingObject(existing_object::Error),
    /// The directory's tree in the store isn't well-formed ([`Tree::is_well_formed`]).
    #[error("a tree in the store isn't well-formed")]
    MalformedTree,
    /// An allocation failed, in the lookup or outside of it.
    #[error("out of memory")]
    OutOfMemory,
}

impl From<AllocError> for Error {
    ghost use Rattle.gixobj_editor_lookups.specs.declared.opening.Error.TheVariants.{OutOfMemory};

    ghost from_gives = { λ _ error. error ≡ OutOfMemory };

    fn from(_: AllocError) -> Error {
        Error::OutOfMemory
    }
}

impl From<OutOfMemory> for Error {
    ghost use Rattle.gixobj_editor_lookups.specs.declared.opening.Error.TheVariants.{OutOfMemory};

    ghost from_gives = { λ _ error. error ≡ OutOfMemory };

    fn from(_: OutOfMemory) -> Error {
        Error::OutOfMemory
    }
}

impl From<existing_object::Error> for Error {
    ghost use Rattle.gixobj_editor_lookups.specs.Openings.{open_error_of};

    ghost from_gives = { λ cause error. error ≡ open_error_of cause };

    fn from(cause: existing_object::Error) -> Error {
        match cause {
            existing_object::Error::Find(find::Error::OutOfMemory) => Error::OutOfMemory,
            existing_object::Error::Decode {
                source: decode::Error::OutOfMemory,
                ..
            } => Error::OutOfMemory,
            cause => Error::FindExistingObject(cause),
        }
    }
}

/// What an opening does at a directory with the null id or the empty tree's id, which is never looked up.
#[derive(Clone, Copy, Debug, PartialEq, Eq)]
pub enum NotLookedUp {
    /// The directory is opened as empty.
    Opened,
    /// The opening ends above the directory.
    Unopened,
}

impl NotLookedUp {
    /// Returns `true` if an opening ends above a directory of this id.
    fn ends_above(self, id: ObjectId) -> bool
        ensures { IsTrue result ↔ ((self ≡ Unopened) × IsNeverLookedUp id) }
    {
        match self {
            NotLookedUp::Opened => false,
            NotLookedUp::Unopened => is_not_looked_up(id),
        }
    }
}

/// Returns `true` if the id is never looked up: the null id, and that of the empty tree.
fn is_not_looked_up(id: ObjectId) -> bool
    ensures { IsTrue result ↔ IsNeverLookedUp id }
{
    id.is_null() || id.is_empty_tree()
}

/// Returns the id of the entry of a name, if it is of tree mode.
fn tree_id(entries: &Entries, name: &BString) -> Option<ObjectId>
    requires { IsWellFormed entries.now }
    ensures found { IfSome result (λ id. (e : EntryView)
        × IsEntryOf (bstring_bytes name.now) (Some entries.now) e × (is_tree_mode e.mode ≡ true)
        × (e.id ≡ id)) }
    ensures none { IfNone result ((e : EntryView) → ContainsEntry entries.now e
        → e.name ≡ bstring_bytes name.now → is_tree_mode e.mode ≡ false) }
{
    let entry = entries.find_tree(name.as_bytes())?;
    Some(entry.oid)
}

/// Returns the id of the directory of a name, if there is one that an opening enters.
fn next_id(entries: &Entries, name: &BString, not_looked_up: NotLookedUp) -> Option<ObjectId>
    requires { IsWellFormed entries.now }
    ensures found { IfSome result (λ id. (e : EntryView)
        × IsEntryOf (bstring_bytes name.now) (Some entries.now) e × (is_tree_mode e.mode ≡ true)
        × (¬ EndsBefore not_looked_up e) × (e.id ≡ id)) }
    ensures none { IfNone result ((e : EntryView) → ContainsEntry entries.now e
        → e.name ≡ bstring_bytes name.now → EndsBefore not_looked_up e) }
{
    let id = tree_id(entries, name)?;
    if not_looked_up.ends_above(id) {
        return None;
    }
    Some(id)
}

/// Looks up the well-formed tree of an id in a store.
fn find_directory<S: Find>(alloc: Global, store: &S, id: ObjectId) -> Result<Tree, Error>
    requires { ¬ IsNeverLookedUp id }
    ensures found { IfOk result (λ tree. NamesTree (S.objects store.now) id tree) }
    ensures error { IfErr result (IsDirectoryError (S.objects store.now) (S.may_fail store.now)
        id) }
{
    let mut buffer = Vec::new(alloc);
    let tree = existing_tree(alloc, store, id.as_oid(), &mut buffer)?;
    let tree = tree.into_owned(alloc)?;
    if !tree.is_well_formed() {
        return Err(Error::MalformedTree);
    }
    Ok(tree)
}

/// Looks up the well-formed tree of an id in a store, and copies it.
fn find_copied<S: Find>(alloc: Global, store: &S, id: ObjectId) -> Result<(Tree, Tree), Error>
    requires { ¬ IsNeverLookedUp id }
    ensures found { IfOk result (λ it. NamesTree (S.objects store.now) id it.0) }
    ensures base { IfOk result (λ it. it.1 ≡ it.0) }
    ensures error { IfErr result (IsDirectoryError (S.objects store.now) (S.may_fail store.now)
        id) }
{
    let tree = find_directory(alloc, store, id)?;
    let copied = copy_tree(alloc, &tree)?;
    Ok((tree, copied))
}

/// Returns the tree that a directory of this id is opened as, and a copy of it. It is empty, without a
/// lookup, for the null id and the empty tree's; each lookup is counted.
fn load<S: Find>(
    alloc: Global,
    store: &S,
    id: ObjectId,
    lookups: &mut u64,
) -> Result<(Tree, Tree), Error>
    ensures well_formed { IfOk result (λ it. IsWellFormed it.0) }
    ensures base { IfOk result (λ it. it.1 ≡ it.0) }
    ensures found { IfOk result (λ it. OfTrees (S.objects store.now)
        (λ trees. (looked_up : List ObjectId) × Finds trees id it.0 looked_up
        × (lookups.new ≡ counted lookups.old looked_up))) }
    ensures lookups { OnErr result ((¬ IsNeverLookedUp id)
        × (lookups.new ≡ counted lookups.old (id ∷ []))) }
    ensures error { IfErr result (IsDirectoryError (S.objects store.now) (S.may_fail store.now)
        id) }
{
    if is_not_looked_up(id) {
        return Ok((Tree::empty(alloc), Tree::empty(alloc)));
    }
    *lookups = lookups.saturating_add(1);
    find_copied(alloc, store, id)
}

/// Opens each directory on a path, from the top, until there is none.
///
/// An open directory has the same entries afterwards. Any other is looked up in the store by the id of
/// its entry, and the tree that is found is its base too. A directory with the null id or the empty
/// tree's id isn't looked up. For it `not_looked_up` says whether it is opened as empty, or the opening
/// ends above it.
///
/// Each lookup is counted in `lookups`, also one that fails or runs out of memory. The count saturates at the
/// maximum of `u64`.
///
/// Allocates the trees that it opens, a base for each, and their names. In a directory with 128 open
/// directories or more it also allocates a part of their list.
///
/// # Errors
///
/// Directories that were opened before the error are open afterwards. The others are unchanged.
///
/// - [`Error::FindExistingObject`] with the lookup's error, if the store fails, or a directory's id names
///   no tree that decodes, except for lack of memory.
/// - [`Error::MalformedTree`] if the store's tree of a directory isn't well-formed.
/// - [`Error::OutOfMemory`] if an allocation fails, in the lookup too.
pub fn open_along<S: Find>(
    alloc: Global,
    node: &mut Open,
    path: &[BString],
    not_looked_up: NotLookedUp,
    store: &S,
    lookups: &mut u64,
) -> Result<(), Error>
    ensures opened { OnOk result (OfTrees (S.objects store.now)
        (λ trees. (looked_up : List ObjectId)
        × Opens (EndsBefore not_looked_up) trees (names_of path.now) (dirs_of node.old)
        (dirs_of node.new) looked_up × (lookups.new ≡ counted lookups.old looked_up))) }
    ensures stopped_opening { IfErr result (λ error.
        OfTrees (S.objects store.now)
        (λ trees. (looked_up : List ObjectId) × (failed_lookup : Option ObjectId)
        × StopsOpening (EndsBefore not_looked_up) trees (names_of path.now) (dirs_of node.old)
        (dirs_of node.new) looked_up failed_lookup
        × (lookups.new ≡ counted lookups.old looked_up)
        × IsOpenErrorAt (S.objects store.now) (S.may_fail store.now) failed_lookup error)) }
    ensures still_opened { IsOpened (dirs_of node.old) → IsOpened (dirs_of node.new) }
    ensures bases { (at : Path) → bases_of node.new at
        ≡ opened_bases (dirs_of node.old) (dirs_of node.new) (bases_of node.old) at }
    ensures same_root { dirs_of node.new [] ≡ dirs_of node.old [] }
    ensures root { (entries : List EntryView) × (dirs_of node.old [] ≡ Some entries) }
{
    // (for the proof: a directory has a list of entries)
    let _ = &node.entries;
    if path.len() <= MAX_RECURSIVE {
        return open_recursively(alloc, node, path, not_looked_up, store, lookups);
    }
    let mut above = Open::new(alloc, Tree::empty(alloc));
    let (depth, opened) = open_and_enter(
        alloc,
        node,
        &mut above,
        path,
        not_looked_up,
        store,
        lookups,
    );
    node.leave(&mut above, &path[..depth]);
    opened
}

/// Opens the directories on a path one after the other, and enters each. Returns the number of those entered.
///
/// `node` is the last of them then, with those above it in `above`.
fn open_and_enter<S: Find>(
    alloc: Global,
    node: &mut Open,
    above: &mut Open,
    path: &[BString],
    not_looked_up: NotLookedUp,
    store: &S,
    lookups: &mut u64,
) -> (usize, Result<(), Error>)
    ensures depth { result.0 ≤ length path.now }
    ensures are_above { AreAbove (reverse (names_of (take result.0 path.now))) above.new }
    ensures opened { OnOk result.1 (OfTrees (S.objects store.now)
        (λ trees. (looked_up : List ObjectId)
        × Opens (EndsBefore not_looked_up) trees (names_of path.now) (dirs_of node.old)
        (dirs_of (top_of path.now result.0 above.new node.new)) looked_up
        × (lookups.new ≡ counted lookups.old looked_up))) }
    ensures stopped_opening { IfErr result.1 (λ error.
        OfTrees (S.objects store.now)
        (λ trees. (looked_up : List ObjectId) × (failed_lookup : Option ObjectId)
        × StopsOpening (EndsBefore not_looked_up) trees (names_of path.now) (dirs_of node.old)
        (dirs_of (top_of path.now result.0 above.new node.new)) looked_up failed_lookup
        × (lookups.new ≡ counted lookups.old looked_up)
        × IsOpenErrorAt (S.objects store.now) (S.may_fail store.now) failed_lookup error)) }
    ensures still_opened { IsOpened (dirs_of node.old)
        → IsOpened (dirs_of (top_of path.now result.0 above.new node.new)) }
    ensures bases { (at : Path) → bases_of (top_of path.now result.0 above.new node.new) at
        ≡ opened_bases (dirs_of node.old)
        (dirs_of (top_of path.now result.0 above.new node.new)) (bases_of node.old) at }
    ensures same_root { dirs_of (top_of path.now result.0 above.new node.new) []
        ≡ dirs_of node.old [] }
{
    let mut depth = 0;
    for name in path {
        let next = slice::from_ref(name);
        if let Err(error) = open_recursively(alloc, node, next, not_looked_up, store, lookups) {
            return (depth, Err(error));
        }
        if !node.exchange(name, above) {
            return (depth, Ok(()));
        }
        mem::swap(node, above);
        depth += 1;
    }
    (depth, Ok(()))
}

/// Opens each directory on a path by the rules of [`open_along`], by a call for each name.
///
/// # Errors
///
/// Those of [`open_along`].
fn open_recursively<S: Find>(
    alloc: Global,
    node: &mut Open,
    path: &[BString],
    not_looked_up: NotLookedUp,
    store: &S,
    lookups: &mut u64,
) -> Result<(), Error>
    ensures opened { OnOk result (OfTrees (S.objects store.now)
        (λ trees. (looked_up : List ObjectId)
        × Opens (EndsBefore not_looked_up) trees (names_of path.now) (dirs_of node.old)
        (dirs_of node.new) looked_up × (lookups.new ≡ counted lookups.old looked_up))) }
    ensures stopped_opening { IfErr result (λ error.
        OfTrees (S.objects store.now)
        (λ trees. (looked_up : List ObjectId) × (failed_lookup : Option ObjectId)
        × StopsOpening (EndsBefore not_looked_up) trees (names_of path.now) (dirs_of node.old)
        (dirs_of node.new) looked_up failed_lookup
        × (lookups.new ≡ counted lookups.old looked_up)
        × IsOpenErrorAt (S.objects store.now) (S.may_fail store.now) failed_lookup error)) }
    ensures still_opened { IsOpened (dirs_of node.old) → IsOpened (dirs_of node.new) }
    ensures bases { (at : Path) → bases_of node.new at
        ≡ opened_bases (dirs_of node.old) (dirs_of node.new) (bases_of node.old) at }
    ensures same_root { dirs_of node.new [] ≡ dirs_of node.old [] }
    ensures kept { KeepsOpen (dirs_of node.old) (dirs_of node.new) }
    ensures root { (entries : List EntryView) × (dirs_of node.old [] ≡ Some entries) }
{
    // (for the proof: a directory has a list of entries)
    let _ = &node.entries;
    let Some((name, rest)) = path.split_first() else {
        return Ok(());
    };
    if let Some(child_position) = node.children.position(name) {
        let child = node.children.at_mut(child_position);
        return open_recursively(alloc, &mut child.open, rest, not_looked_up, store, lookups);
    }
    let Some(id) = next_id(&node.entries, name, not_looked_up) else {
        return Ok(());
    };
    let (tree, base) = load(alloc, store, id, lookups)?;
    let (own_name, piece) = node.children.room_for(alloc, name)?;
    let mut inner = Open::with_base(alloc, tree, base);
    let opened = open_recursively(alloc, &mut inner, rest, not_looked_up, store, lookups);
    node.children.insert(piece, own_name, inner);
    opened
}
