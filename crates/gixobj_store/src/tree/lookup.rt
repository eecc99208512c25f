//! Lookup of tree entries by name, in one tree or along a path through the trees of a store.
ghost use Rattle.std.specs.Prelude.{◌≡◌, ◌≢◌, ◌∷◌, ℕ, [], IfErr, IfNone, IfOk, IfSome, IsSome, List, MatchBool, None};
ghost use Rattle.std.specs.Prelude.{OnErr, Some, drop, map};
ghost use Rattle.std.specs.Option.{option_map};
ghost use Rattle.std.specs.declared.ops.ControlFlow.TheVariants.{Break};
ghost use Rattle.bstr.specs.Owned.{bstring_bytes};
ghost use Rattle.gixobj_hash.specs.Bytes.{slash};
ghost use Rattle.gixobj_store.specs.EntrySteps.{remaining_tree_bytes};
ghost use Rattle.gixobj_store.specs.Lookups.{AreNamesOf, HasFirstNamed, HasNoEntryNamed, IsAtPath, IsStep};
ghost use Rattle.gixobj_store.specs.Lookups.{IsStepInBytes, Name, IsPathError, SplitsName, remaining_tree};
ghost use Rattle.gixobj_store.specs.Stores.{stored};
ghost use Rattle.gixobj_hash.specs.declared.kind.Kind.TheVariants as object;
ghost use Rattle.gixobj_tree_entries.specs.EntryViews.{entry_view};

use crate::data::Data;
use crate::find::Error;
use crate::traits::Find;
use crate::tree::TreeRefIter;
use bstr::BString;
use gixobj_hash::hash::ObjectId;
use gixobj_hash::split::split_at_byte;
use gixobj_hash::{Kind, OutOfMemory};
use gixobj_tree::tree::{Entry, EntryRef};
use std::alloc::Global;
use std::ops::ControlFlow;

/// Looks up the first name of `components` in `tree`, and removes the name from `components`.
///
/// The first entry of a name is found, and no entry after a malformed one. Allocates nothing. The result is
///
/// - `Continue` with the entry's id if more names follow, whatever the entry's mode;
/// - `Break` with the entry if the name was the last one;
/// - `Break(None)` if the object is not a tree, if no name remains, or if no entry has the name.
///
/// If the object is not a tree, or if no name remains, `components` is unchanged.
pub fn next_entry<'a>(
    components: &mut &[BString],
    tree: Data<'a>,
) -> ControlFlow<Option<EntryRef<'a>>, ObjectId>
    ensures no_tree { tree.entry.kind ≢ object.Tree → (result ≡ Break None)
        × (components.new.now ≡ components.old.now) }
    ensures one_name { tree.entry.kind ≡ object.Tree
        → components.new.now ≡ drop 1 components.old.now }
    ensures step { tree.entry.kind ≡ object.Tree
        → IsStep (stored tree.entry) (map bstring_bytes components.old.now) result }
{
    let Some(reader) = tree.try_into_tree_iter() else {
        return ControlFlow::Break(None);
    };
    let Some((name, more)) = components.split_first() else {
        return ControlFlow::Break(None);
    };
    *components = more;
    reader.step_to(name.as_bytes(), more.is_empty())
}

/// Access
impl<'a> TreeRefIter<'a> {
    /// Returns the first remaining entry of this name before any malformed one, or `None` without one.
    fn first_named(self, name: &[u8]) -> Option<EntryRef<'a>>
        ensures found { IfSome result (λ entry.
            HasFirstNamed self.entry.hash_kind (remaining_tree_bytes self.entry) name.now
            (entry_view entry)) }
        ensures none { IfNone result (HasNoEntryNamed self.entry.hash_kind
            (remaining_tree_bytes self.entry)
            name.now) }
    {
        for item in self {
            match item {
                Ok(entry) if entry.filename.as_bytes() == name => return Some(entry),
                Ok(_) => {}
                Err(_) => return None,
            }
        }
        None
    }

    /// Looks up one name of a path. Breaks with the entry of the last name, or with `None` if no entry has
    /// the name. Continues with the id of the entry of any other name.
    fn step_to(self, name: &[u8], is_last: bool) -> ControlFlow<Option<EntryRef<'a>>, ObjectId>
        ensures { (others : List Name) → MatchBool is_last (others ≡ []) (others ≢ [])
            → IsStep (remaining_tree self.entry) (name.now ∷ others) result }
    {
        let Some(entry) = self.first_named(name) else {
            return ControlFlow::Break(None);
        };
        if is_last {
            ControlFlow::Break(Some(entry))
        } else {
            ControlFlow::Continue(entry.oid.to_owned())
        }
    }

    /// Looks up the entry at a path (git-rev-parse, `<rev>:<path>`).
    ///
    /// The first name is looked up in this tree, each later one in the tree that the previous entry's id
    /// names in `store`. Returns `None` if a name is not found, if such an id names no tree in the store, or
    /// if `path` is empty.
    ///
    /// In each tree the first entry of a name is found, of any mode, and no entry after a malformed one. The
    /// trees of the store are written to `buffer`, which may hold any bytes afterwards. Allocates for
    /// `buffer` and for the returned entry.
    ///
    /// # Errors
    ///
    /// - [`Error::Store`], with the message of the store, if it fails for an id on the path whose lookup may
    ///   fail.
    /// - [`Error::OutOfMemory`] if an allocation fails. The first name was then found.
    pub fn lookup_entry<S: Find>(
        &self,
        alloc: Global,
        store: &S,
        buffer: &mut Vec<u8>,
        path: &[BString],
    ) -> Result<Option<Entry>, Error>
        ensures found { IfOk result (IsAtPath (S.objects store.now) (Some (remaining_tree self.now))
            (map bstring_bytes path.now)) }
        ensures error { IfErr result (IsPathError (S.objects store.now) (S.may_fail store.now)
            (Some (remaining_tree self.now)) (map bstring_bytes path.now)) }
    {
        let mut names = path;
        let tree = Data::new(self.bytes, Kind::Tree, self.hash_kind);
        let mut id = match next_entry(&mut names, tree) {
            ControlFlow::Continue(id) => id,
            ControlFlow::Break(found) => return Ok(owned(alloc, found)?),
        };
        loop {
            let Some(tree) = store.try_find(id.as_oid(), buffer)? else {
                return Ok(None);
            };
            match next_entry(&mut names, tree) {
                ControlFlow::Continue(next) => id = next,
                ControlFlow::Break(found) => return Ok(owned(alloc, found)?),
            }
        }
    }

    /// Looks up the entry at a path of names that are separated by slashes (git-rev-parse, `<rev>:<path>`).
    ///
    /// Empty parts are skipped; `.` is a name like others. Each name is split off when it is looked up, so
    /// the path allocates nothing. Results and allocations are those of [`TreeRefIter::lookup_entry`].
    ///
    /// # Errors
    ///
    /// - [`Error::Store`], with the message of the store, if it fails for an id on the path whose lookup may
    ///   fail.
    /// - [`Error::OutOfMemory`] if an allocation fails. The first name was then found.
    ///
    /// # Examples
    ///
    /// ```rust
    /// let (mut bytes, mut buffer) = (Vec::new(alloc), Vec::new(alloc));
    /// let tree = store.find_tree_iter(tree.as_oid(), &mut bytes)?;
    /// Ok(tree.lookup_entry_by_path(alloc, store, &mut buffer, path)?)
    /// ```
    pub fn lookup_entry_by_path<S: Find>(
        &self,
        alloc: Global,
        store: &S,
        buffer: &mut Vec<u8>,
        path: &[u8],
    ) -> Result<Option<Entry>, Error>
        ensures found { IfOk result (λ found. (names : List Name) × AreNamesOf path.now names
            × IsAtPath (S.objects store.now) (Some (remaining_tree self.now)) names found) }
        ensures error { IfErr result (λ error. (names : List Name) × AreNamesOf path.now names
            × IsPathError (S.objects store.now) (S.may_fail store.now)
            (Some (remaining_tree self.now)) names error) }
    {
        let mut rest = path;
        let tree = Data::new(self.bytes, Kind::Tree, self.hash_kind);
        let mut id = match next_entry_in_bytes(&mut rest, tree) {
            ControlFlow::Continue(id) => id,
            ControlFlow::Break(found) => return Ok(owned(alloc, found)?),
        };
        loop {
            let Some(tree) = store.try_find(id.as_oid(), buffer)? else {
                return Ok(None);
            };
            id = match next_entry_in_bytes(&mut rest, tree) {
                ControlFlow::Continue(next) => next,
                ControlFlow::Break(found) => return Ok(owned(alloc, found)?),
            };
        }
    }
}

/// Copies a found entry into an owned one.
fn owned(alloc: Global, found: Option<EntryRef<'_>>) -> Result<Option<Entry>, OutOfMemory>
    ensures found { IfOk result (λ copy. copy ≡ option_map entry_view found.entry) }
    ensures error { OnErr result (IsSome found.entry) }
{
    match found {
        Some(entry) => Ok(Some(entry.into_owned(alloc)?)),
        None => Ok(None),
    }
}

/// Looks up the first name of a path in bytes, and removes it from the path, by the rules of [`next_entry`].
fn next_entry_in_bytes<'a>(
    path: &mut &[u8],
    tree: Data<'a>,
) -> ControlFlow<Option<EntryRef<'a>>, ObjectId>
    ensures no_tree { tree.entry.kind ≢ object.Tree → (result ≡ Break None)
        × (path.new.now ≡ path.old.now) }
    ensures step { tree.entry.kind ≡ object.Tree
        → IsStepInBytes (stored tree.entry) path.old.now path.new.now result }
{
    let Some(reader) = tree.try_into_tree_iter() else {
        return ControlFlow::Break(None);
    };
    let Some((name, rest)) = split_name(path) else {
        return ControlFlow::Break(None);
    };
    *path = rest;
    reader.step_to(name, rest.is_empty())
}

/// Splits a path at slashes into its names, as the editor takes them.
///
/// Empty parts are skipped, and `.` is a name like others, as in [`TreeRefIter::lookup_entry_by_path`]. Allocates
/// the list and a copy of each name; a path without names allocates nothing.
///
/// # Errors
///
/// [`OutOfMemory`] if an allocation fails. The path then has a name.
///
/// # Examples
///
/// ```rust
/// let mut names = path_names(alloc, path)?;
/// Ok(names.pop())
/// ```
pub fn path_names(alloc: Global, path: &[u8]) -> Result<Vec<BString>, OutOfMemory>
    ensures found { IfOk result (λ names. AreNamesOf path.now (map bstring_bytes names.items)) }
    ensures error { OnErr result (¬ AreNamesOf path.now []) }
{
    let mut names = Vec::new(alloc);
    let mut rest = path;
    while let Some((name, following)) = split_name(rest) {
        names.push(BString::from_slice(alloc, name)?)?;
        rest = following;
    }
    Ok(names)
}

/// Splits the first name off a path, or returns `None` for a path without names. The rest has a byte only if
/// other names follow.
fn split_name(path: &[u8]) -> Option<(&[u8], &[u8])>
    ensures found { IfSome result (λ it. SplitsName path.now it.0.now it.1.now) }
    ensures none { IfNone result (AreNamesOf path.now []) }
{
    let names = without_slashes(path);
    if names.is_empty() {
        return None;
    }
    match split_at_byte(names, b'/') {
        Some((name, following)) => Some((name, without_slashes(following))),
        None => Some((names, b"")),
    }
}

/// Removes the slashes before the first name of a path.
fn without_slashes(path: &[u8]) -> &[u8]
    ensures names { (names : List Name) → AreNamesOf result.now names
        → AreNamesOf path.now names }
    ensures no_slash { (rest : List ℕ) → result.now ≢ slash ∷ rest }
{
    let mut remaining = path;
    while let Some(following) = remaining.strip_prefix(b"/") {
        remaining = following;
    }
    remaining
}
