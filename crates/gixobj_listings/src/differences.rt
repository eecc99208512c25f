//! The changes between the files of two stored trees (git-diff-tree, `-r`).
ghost use Rattle.std.specs.Prelude.{◌≡◌, ◌≢◌, ◌∷◌, ◌++◌, [], IfErr, IfOk, IsFalse, IsTrue, None, OnErr, OnOk, Some};
ghost use Rattle.std.specs.Prelude.{map, true};
ghost use Rattle.std.specs.List.{AllByRecursion};
ghost use Rattle.std.specs.Option.{option_copied};
ghost use Rattle.bstr.specs.Owned.{bstring_bytes};
ghost use Rattle.gix_object.specs.Files.{is_null};
ghost use Rattle.gix_object.specs.Mode.{mode_bits};
ghost use Rattle.gixobj_listings.specs.Changes.{AreChangesInOrder, HasName, addition, removal, side_unless_null};
ghost use Rattle.gixobj_listings.specs.Changes.{with_name_first};
ghost use Rattle.gixobj_listings.specs.Differences.{IsReadIfAlone, HasChanges, HasChangesAt, IsAtPair, IsChangesError};
ghost use Rattle.gixobj_listings.specs.Differences.{IsChangesErrorAt, IsTreeInError, pair_view};
ghost use Rattle.gixobj_listings.specs.FileLists.{has_names};
ghost use Rattle.gixobj_listings.specs.Listings.{IsRead};
ghost use Rattle.gixobj_listings.specs.Roots.{IsRoot};

mod pairs;

use crate::listing::{File, ListError, UnreadError, files_at, unread, with_name};
use crate::roots::root_in;
use bstr::BString;
use gix_object::hash::ObjectId;
use gix_object::laws::id_equality_is_decidable;
use gix_object::tree::{Entry, EntryMode};
use gix_object::{Find, Tree};
use pairs::{EntryPair, next_pair};
use std::alloc::{AllocError, Global};
use std::marker::Model;

/// A path at which two trees differ. [`changes`] lists them.
#[derive(Debug, Drop)]
pub struct Change {
    /// The names of the parent directories, and the file's own.
    pub path: Vec<BString>,
    /// The file in the first tree, or `None` if it was added.
    pub before: Option<Version>,
    /// The file in the second tree, or `None` if it was removed.
    pub after: Option<Version>,
}

/// The mode and the id of a file.
#[derive(Clone, Copy, Debug, PartialEq, Eq)]
pub struct Version {
    /// The mode of the entry.
    pub mode: EntryMode,
    /// The id of the entry.
    pub id: ObjectId,
}

impl Model for Change {
    ghost use Rattle.std.specs.Option.{option_map};
    ghost use Rattle.gix_object.specs.Calls.{names_of};
    ghost use Rattle.gix_object.specs.Mode.{mode_bits};
    ghost use Rattle.gixobj_listings.specs.Changes.{ChangeView};

    ghost Value = { ChangeView };

    ghost view = { λ change. record {
      path = names_of change.path.items;
      before = option_map (λ version. (mode_bits version.mode, version.id)) change.before;
      after = option_map (λ version. (mode_bits version.mode, version.id)) change.after;
    } };
}

/// Lists the paths at which the files of two stored trees differ, in order (git-diff-tree, `-r`).
///
/// A file is as [`files_of`](crate::listing::files_of) lists it. Directories with equal entries in both trees
/// aren't opened: the store needn't have them. No path has more than `depth` names.
///
/// The changes are exactly those between the files of the trees, to every depth from `depth` on. This holds in
/// each table that agrees with the store, if the ids aren't null or are equal. Allocates a buffer and the
/// entries of each tree, and the names of each path.
///
/// # Errors
///
/// - [`ListError::Directory`] with a directory of one of the trees that isn't read: its tree isn't found or is
///   invalid, or its path has `depth` names. The other tree has no equal directory there or on the way;
/// - [`ListError::OutOfMemory`] if an allocation fails.
pub fn changes<S: Find>(
    alloc: Global,
    store: &S,
    from: ObjectId,
    to: ObjectId,
    depth: u32,
) -> Result<Vec<Change>, ListError>
    ensures none { from ≡ to → IfOk result (λ changes. changes.items ≡ []) }
    ensures changes { IfOk result (λ changes. IsFalse (is_null from) → IsFalse (is_null to)
        → HasChanges (S.objects store.now) depth from to changes.items) }
    ensures ordered { IfOk result (λ changes. AreChangesInOrder changes.items) }
    ensures error { IfErr result (IsChangesError (S.objects store.now) (S.may_fail store.now) depth
        from to) }
    ensures differ { OnErr result (from ≢ to) }
{
    if from == to {
        return Ok(Vec::new(alloc));
    }
    opened_changes(alloc, store, from, to, depth)
}

/// Lists the changes between two trees, and opens both.
#[cycle(comparing)]
fn opened_changes<S: Find>(
    alloc: Global,
    store: &S,
    from: ObjectId,
    to: ObjectId,
    depth: u32,
) -> Result<Vec<Change>, ListError>
    ensures changes { IfOk result (λ changes. IsFalse (is_null from) → IsFalse (is_null to)
        → HasChanges (S.objects store.now) depth from to changes.items) }
    ensures ordered { IfOk result (λ changes. AreChangesInOrder changes.items) }
    ensures paths { IfOk result (λ changes.
        AllByRecursion (λ change. has_names change.path ≡ true) changes.items) }
    ensures read { OnOk result (IsRead (S.objects store.now) from
        × IsRead (S.objects store.now) to) }
    ensures error { IfErr result (IsChangesError (S.objects store.now) (S.may_fail store.now) depth
        from to) }
{
    id_equality_is_decidable();
    if depth == 0 {
        return Err(unread(alloc, from, UnreadError::TooDeep));
    }
    let before = tree_in(alloc, store, from)?;
    let after = tree_in(alloc, store, to)?;
    let mut changes = Vec::new(alloc);
    let mut left: &[Entry] = &before.entries;
    let mut right: &[Entry] = &after.entries;
    while let Some(pair) = next_pair(left, right) {
        left = pair.left;
        right = pair.right;
        let below = changes_at(alloc, store, pair, depth - 1)?;
        add_before(alloc, &mut changes, pair.name, below)?;
    }
    Ok(changes)
}

/// Looks up a tree.
fn tree_in<S: Find>(alloc: Global, store: &S, id: ObjectId) -> Result<Tree, ListError>
    ensures found { IfOk result (λ tree. IsRoot (S.objects store.now) id tree) }
    ensures error { IfErr result (IsTreeInError (S.objects store.now) (S.may_fail store.now) id) }
{
    match root_in(alloc, store, id) {
        Ok(tree) => Ok(tree),
        Err(cause) => Err(unread(alloc, id, UnreadError::Tree(cause))),
    }
}

/// Lists the changes at and below a pair of entries, by their paths from there.
#[cycle(comparing)]
fn changes_at<S: Find>(
    alloc: Global,
    store: &S,
    pair: EntryPair<'_>,
    depth: u32,
) -> Result<Vec<Change>, ListError>
    requires name { HasName (bstring_bytes pair.name.now) (pair_view pair) }
    ensures changes { IfOk result (λ changes.
        HasChangesAt (S.objects store.now) depth (pair_view pair.entry) changes.items) }
    ensures ordered { IfOk result (λ changes. AreChangesInOrder changes.items) }
    ensures paths { IfOk result (λ changes.
        AllByRecursion (IsAtPair (pair_view pair.entry)) changes.items) }
    ensures alone { OnOk result (IsReadIfAlone (S.objects store.now) (pair_view pair.entry)) }
    ensures error { IfErr result (IsChangesErrorAt (S.objects store.now) (S.may_fail store.now)
        depth (pair_view pair.entry)) }
{
    match (unless_null(pair.before), unless_null(pair.after)) {
        (None, None) => Ok(Vec::new(alloc)),
        (Some(before), None) => Ok(removals(alloc, files_at(alloc, store, before, depth)?)?),
        (None, Some(after)) => Ok(additions(alloc, files_at(alloc, store, after, depth)?)?),
        (Some(before), Some(after)) => changes_between(alloc, store, before, after, depth),
    }
}

/// Lists the changes at and below two entries of one name, both files or both directories.
#[cycle(comparing)]
fn changes_between<S: Find>(
    alloc: Global,
    store: &S,
    before: &Entry,
    after: &Entry,
    depth: u32,
) -> Result<Vec<Change>, ListError>
    requires name { HasName before.now.name (Some before.now, Some after.now) }
    requires filled { IsFalse (is_null before.now.id) × IsFalse (is_null after.now.id) }
    ensures changes { IfOk result (λ changes. HasChangesAt (S.objects store.now) depth
        (Some before.now, Some after.now) changes.items) }
    ensures ordered { IfOk result (λ changes. AreChangesInOrder changes.items) }
    ensures paths { IfOk result (λ changes.
        AllByRecursion (IsAtPair (Some before.now, Some after.now)) changes.items) }
    ensures error { IfErr result (IsChangesErrorAt (S.objects store.now) (S.may_fail store.now)
        depth (Some before.now, Some after.now)) }
{
    id_equality_is_decidable();
    if is_same_version(before, after) {
        return Ok(Vec::new(alloc));
    }
    if !before.mode.is_tree() {
        return Ok(one_change(alloc, before, after)?);
    }
    match opened_changes(alloc, store, before.oid, after.oid, depth) {
        Ok(changes) => Ok(changes),
        Err(error) => Err(error.within(alloc, &before.filename)),
    }
}

/// Returns `true` if the entries have the same mode and the same id.
fn is_same_version(before: &Entry, after: &Entry) -> bool
    ensures equal { IsTrue result → (before.now.mode ≡ after.now.mode)
        × (before.now.id ≡ after.now.id) }
    ensures different { IsFalse result
        → ¬ ((before.now.mode ≡ after.now.mode) × (before.now.id ≡ after.now.id)) }
{
    before.mode == after.mode && before.oid == after.oid
}

/// Returns the entry, unless its id is null.
fn unless_null(entry: Option<&Entry>) -> Option<&Entry>
    ensures { option_copied result ≡ side_unless_null (option_copied entry.entry) }
{
    match entry {
        Some(entry) => {
            if entry.oid.is_null() {
                return None;
            }
            Some(entry)
        }
        None => None,
    }
}

/// Makes a removal of each file.
fn removals(alloc: Global, files: Vec<File>) -> Result<Vec<Change>, AllocError>
    ensures { IfOk result (λ changes. changes.items ≡ map removal files.items) }
{
    let mut changes = Vec::with_capacity(alloc, files.len())?;
    for file in files {
        changes.push(Change {
            path: file.path,
            before: Some(Version {
                mode: file.mode,
                id: file.id,
            }),
            after: None,
        })?;
    }
    Ok(changes)
}

/// Makes an addition of each file.
fn additions(alloc: Global, files: Vec<File>) -> Result<Vec<Change>, AllocError>
    ensures { IfOk result (λ changes. changes.items ≡ map addition files.items) }
{
    let mut changes = Vec::with_capacity(alloc, files.len())?;
    for file in files {
        changes.push(Change {
            path: file.path,
            before: None,
            after: Some(Version {
                mode: file.mode,
                id: file.id,
            }),
        })?;
    }
    Ok(changes)
}

/// The list of one change, with an empty path.
fn one_change(alloc: Global, before: &Entry, after: &Entry) -> Result<Vec<Change>, AllocError>
    ensures { IfOk result (λ changes. changes.items ≡ record {
      path = [];
      before = Some (before.now.mode, before.now.id);
      after = Some (after.now.mode, after.now.id);
    } ∷ []) }
{
    let change = Change {
        path: Vec::new(alloc),
        before: Some(version_of(before)),
        after: Some(version_of(after)),
    };
    let mut changes = Vec::new(alloc);
    changes.push(change)?;
    Ok(changes)
}

/// Returns the mode and the id of an entry.
fn version_of(entry: &Entry) -> Version
    ensures mode { mode_bits result.mode ≡ entry.now.mode }
    ensures id { result.id ≡ entry.now.id }
{
    Version {
        mode: entry.mode,
        id: entry.oid,
    }
}

/// Appends changes with a name before each path.
fn add_before(
    alloc: Global,
    changes: &mut Vec<Change>,
    name: &BString,
    below: Vec<Change>,
) -> Result<(), AllocError>
    ensures { OnOk result (changes.new.items
        ≡ changes.old.items ++ map (with_name_first (bstring_bytes name.now)) below.items) }
{
    for change in below {
        let path = with_name(alloc, name, change.path)?;
        changes.push(Change {
            path,
            before: change.before,
            after: change.after,
        })?;
    }
    Ok(())
}
