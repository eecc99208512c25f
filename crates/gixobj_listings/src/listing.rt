//! A listing of the files of a stored tree, to every depth (git-ls-tree, `-r`).
ghost use Rattle.std.specs.Prelude.{◌≡◌, ◌∷◌, ◌++◌, [], All, IfErr, IfOk, IsFalse, List, OnOk, map};
ghost use Rattle.std.specs.List.{AllByRecursion};
ghost use Rattle.bstr.specs.Owned.{bstring_bytes};
ghost use Rattle.gix_object.specs.Calls.{names_of};
ghost use Rattle.gix_object.specs.Entries.{EntryView};
ghost use Rattle.gix_object.specs.Files.{is_null};
ghost use Rattle.gixobj_listings.specs.FileLists.{AreInOrder, IsBounded, with_first_name};
ghost use Rattle.gixobj_listings.specs.Roots.{IsRoot};
ghost use Rattle.gixobj_listings.specs.Listings.{AreAllRead, AreReadBelow, HasFilesAt, HasFilesOf, HasFilesOfEntries};
ghost use Rattle.gixobj_listings.specs.Listings.{IsAtEntry, IsErrorWithin, IsListError, IsListErrorAt, IsUnread};

use crate::roots::{RootError, root_in};
use bstr::BString;
use gix_object::Find;
use gix_object::hash::ObjectId;
use gix_object::laws::{id_equality_is_decidable, tree_decodes_uniquely};
use gix_object::tree::{Entry, EntryMode};
use std::alloc::{AllocError, AllocFailed, Global};
use std::marker::Model;

/// A file of a tree. [`files_of`] lists them.
#[derive(Debug, Drop)]
pub struct File {
    /// The names of its parent directories, and its own.
    pub path: Vec<BString>,
    /// The mode of its entry.
    pub mode: EntryMode,
    /// The id of its entry.
    pub id: ObjectId,
}

impl Model for File {
    ghost use Rattle.gix_object.specs.Calls.{names_of};
    ghost use Rattle.gix_object.specs.Mode.{mode_bits};
    ghost use Rattle.gixobj_listings.specs.FileLists.{FileView};

    ghost Value = { FileView };

    ghost view = { λ file. record {
      path = names_of file.path.items;
      mode = mode_bits file.mode;
      id = file.id;
    } };
}

/// The error of [`files_of`] and of [`changes`](crate::differences::changes).
#[derive(Debug, Drop, thiserror::Error)]
pub enum ListError {
    /// A directory isn't read.
    #[error("the directory {id} isn't read: {cause}")]
    Directory {
        /// The names of its parent directories, and its own; none for the root.
        path: Vec<BString>,
        /// The id of its tree.
        id: ObjectId,
        /// Why it isn't read.
        cause: UnreadError,
    },
    /// An allocation failed.
    #[error("out of memory")]
    OutOfMemory,
}

/// Why a directory isn't read.
#[derive(Debug, Drop, thiserror::Error)]
pub enum UnreadError {
    /// The tree of the directory isn't found or is invalid, for this cause.
    #[error("{0}")]
    Tree(RootError),
    /// The path of the directory has as many names as the paths of files may have.
    #[error("its path is too long")]
    TooDeep,
}

impl From<AllocError> for ListError {
    ghost use Rattle.gixobj_listings.specs.declared.listing.ListError.TheVariants as list;

    ghost from_gives = { λ _ error. error ≡ list.OutOfMemory };

    fn from(_: AllocError) -> ListError {
        ListError::OutOfMemory
    }
}

impl<T: Drop> From<AllocFailed<T>> for ListError {
    ghost use Rattle.gixobj_listings.specs.declared.listing.ListError.TheVariants as list;

    ghost from_gives = { λ _ error. error ≡ list.OutOfMemory };

    fn from(_: AllocFailed<T>) -> ListError {
        ListError::OutOfMemory
    }
}

impl ListError {
    /// Inserts a name before the path of the directory.
    pub(crate) fn within(self, alloc: Global, name: &BString) -> ListError
        ensures { IsErrorWithin (bstring_bytes name.now) self result }
    {
        match self {
            ListError::Directory { path, id, cause } => match with_name(alloc, name, path) {
                Ok(path) => ListError::Directory { path, id, cause },
                Err(_) => ListError::OutOfMemory,
            },
            ListError::OutOfMemory => ListError::OutOfMemory,
        }
    }
}

/// Lists the files of a stored tree to every depth, in the order of their paths.
///
/// A file is an entry of no directory's mode: also a symbolic link or a submodule. Entries with a null id are
/// left out. No path has more than `depth` names; the call ends on every store, also if a tree contains itself.
/// The root is looked up by its id; that of the empty tree is found in every store.
///
/// The list has exactly the files of the tree, to every depth from `depth` on. This holds in each table that
/// agrees with the store, if the root's id isn't null. The files of a tree that the store names by a null id
/// are those of its entries. Allocates a buffer and the entries of each tree, and the names of each path.
///
/// # Errors
///
/// - [`ListError::Directory`] with the first directory that isn't read: its tree isn't found or is invalid, or
///   its path has `depth` names. The store has all that are opened before it.
/// - [`ListError::OutOfMemory`] if an allocation fails.
#[cycle(listing)]
pub fn files_of<S: Find>(
    alloc: Global,
    store: &S,
    root: ObjectId,
    depth: u32,
) -> Result<Vec<File>, ListError>
    ensures files { IfOk result (λ files. IsFalse (is_null root)
        → HasFilesOf (S.objects store.now) depth root files.items) }
    ensures entries { IfOk result (λ files. (entries : List EntryView)
        → IsRoot (S.objects store.now) root entries
        → HasFilesOfEntries (S.objects store.now) depth entries files.items) }
    ensures ordered { IfOk result (λ files. AreInOrder files.items) }
    ensures bounded { IfOk result (λ files. All (IsBounded depth) files.items) }
    ensures opened { OnOk result (AreAllRead (S.objects store.now) root) }
    ensures error { IfErr result (IsListError (S.objects store.now) (S.may_fail store.now) depth
        root) }
{
    id_equality_is_decidable();
    tree_decodes_uniquely();
    if depth == 0 {
        return Err(unread(alloc, root, UnreadError::TooDeep));
    }
    let tree = match root_in(alloc, store, root) {
        Ok(tree) => tree,
        Err(cause) => return Err(unread(alloc, root, UnreadError::Tree(cause))),
    };
    let mut files = Vec::new(alloc);
    for entry in &tree.entries {
        let below = files_at(alloc, store, entry, depth - 1)?;
        add_before(alloc, &mut files, &entry.filename, below)?;
    }
    Ok(files)
}

/// Lists the files at and below an entry, by their paths from there.
#[cycle(listing)]
pub(crate) fn files_at<S: Find>(
    alloc: Global,
    store: &S,
    entry: &Entry,
    depth: u32,
) -> Result<Vec<File>, ListError>
    ensures files { IfOk result (λ files.
        HasFilesAt (S.objects store.now) depth entry.now files.items) }
    ensures ordered { IfOk result (λ files. AreInOrder files.items) }
    ensures paths { IfOk result (λ files. AllByRecursion (IsAtEntry depth entry.now) files.items) }
    ensures opened { OnOk result (AreReadBelow (S.objects store.now) entry.now) }
    ensures error { IfErr result (IsListErrorAt (S.objects store.now) (S.may_fail store.now) depth
        entry.now) }
{
    id_equality_is_decidable();
    if entry.oid.is_null() {
        return Ok(Vec::new(alloc));
    }
    if !entry.mode.is_tree() {
        return Ok(one_file(alloc, entry)?);
    }
    match files_of(alloc, store, entry.oid, depth) {
        Ok(files) => Ok(files),
        Err(error) => Err(error.within(alloc, &entry.filename)),
    }
}

/// The error of a directory that isn't read, without names.
pub(crate) fn unread(alloc: Global, id: ObjectId, cause: UnreadError) -> ListError
    ensures { IsUnread id cause result }
{
    ListError::Directory {
        path: Vec::new(alloc),
        id,
        cause,
    }
}

/// The list of the entry alone, with an empty path.
fn one_file(alloc: Global, entry: &Entry) -> Result<Vec<File>, AllocError>
    ensures { IfOk result (λ files. files.items
        ≡ record { path = []; mode = entry.now.mode; id = entry.now.id } ∷ []) }
{
    let file = File {
        path: Vec::new(alloc),
        mode: entry.mode,
        id: entry.oid,
    };
    let mut files = Vec::new(alloc);
    files.push(file)?;
    Ok(files)
}

/// Appends files with a name before each path.
fn add_before(
    alloc: Global,
    files: &mut Vec<File>,
    name: &BString,
    below: Vec<File>,
) -> Result<(), AllocError>
    ensures { OnOk result (files.new.items
        ≡ files.old.items ++ map (with_first_name (bstring_bytes name.now)) below.items) }
{
    for file in below {
        let path = with_name(alloc, name, file.path)?;
        files.push(File {
            path,
            mode: file.mode,
            id: file.id,
        })?;
    }
    Ok(())
}

/// Inserts a name before a path.
pub(crate) fn with_name(
    alloc: Global,
    name: &BString,
    path: Vec<BString>,
) -> Result<Vec<BString>, AllocError>
    ensures { IfOk result (λ longer. names_of longer.items
        ≡ bstring_bytes name.now ∷ names_of path.items) }
{
    let mut path = path;
    let first = BString::from_slice(alloc, name.as_bytes())?;
    path.insert(0, first)?;
    Ok(path)
}
