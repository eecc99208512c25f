//! An open directory: its entries, its base, and the open directories in it.
ghost use Rattle.std.specs.Prelude.{◌≡◌, true, false, IfNone, IfSome, Some, [], ◌++◌, IfOk, List, None, OnErr, OnOk};
ghost use Rattle.std.specs.List.{AllByRecursion, find};
ghost use Rattle.std.specs.Option.{option_copied};
ghost use Rattle.bstr.specs.Owned.{bstring_bytes};
ghost use Rattle.gixobj_hash.specs.Bytes.{slash};
ghost use Rattle.gixobj_hash.specs.ByteStrings.{IsByteFree};
ghost use Rattle.gixobj_tree_entries.specs.Entries.{EntryView};
ghost use Rattle.gixobj_tree.specs.WellFormed.{IsEntryName, IsWellFormed};
ghost use Rattle.gixobj_tree_entries.specs.Mode.{mode_bits};
ghost use Rattle.gixobj_editor_files.specs.Editing.{has_tree, same_name, with_entry, without};
ghost use Rattle.gixobj_editor_files.specs.Edits.{entry_at, removed_dirs, upserted_dirs, with_directory};
ghost use Rattle.gixobj_editor_files.specs.Files.{Path};
ghost use Rattle.gixobj_editor_open.specs.Paths.{names_of};
ghost use Rattle.gixobj_editor_open.specs.Nested.{AreFilled, AreOrdered, IsPiecedLevel, bases_of, child_list, dirs_of};
ghost use Rattle.gixobj_editor_open.specs.Nested.{opened, parts, with_part};
ghost use Rattle.gixobj_editor_files.specs.Bases.{edited_bases};

use crate::copying::copied;
use crate::dropping::close;
use crate::new_directories::new_with_entry;
use bstr::BString;
use gixobj_editor_files::entries::copies;
use gixobj_editor_files::open_entries::Entries;
use gixobj_hash::hash::ObjectId;
use gixobj_tree::Tree;
use gixobj_tree::tree::{Entry, EntryKind, EntryMode};
use std::alloc::{AllocError, Global};
use std::marker::Model;

/// An open directory: its entries, its base, and the open directories in it. [`Open::new`] makes one.
///
/// The base is the store's tree that the directory was opened with. It is empty for a directory that was
/// opened as empty, and for one that [`Open::new`] makes. A write compares a directory with its base.
///
/// In contracts the directory is the list of the open paths, each with the entries of its directory and its
/// base. Its own path, without names, is the first. A path is a list of names.
///
/// A directory of more than 128 entries holds them in pieces until the next write. More than 128 open
/// directories in it are in pieces too.
///
/// Its entries are well-formed. The open directories in it are in the order of their entries, each with the name
/// of an entry of tree mode.
#[cycle(open)]
pub struct Open {
    /// The entries.
    pub entries: Entries,
    /// The base.
    pub base: Tree,
    /// The open directories in it.
    pub children: Children,
}

/// The open directories in a directory, in the order of their entries.
///
/// They are a list in pieces, so that an insertion moves those of one piece alone. No piece but the first is empty.
#[cycle(open)]
#[derive(Drop)]
pub struct Children {
    /// The first piece, which may be empty.
    pub first: Vec<Child>,
    /// The pieces after the first, none of them empty.
    pub more: Vec<Vec<Child>>,
}

/// An open directory in another, with its name.
#[cycle(open)]
#[derive(Drop)]
pub struct Child {
    /// The name of the directory, which is that of its entry.
    pub name: BString,
    /// What is open at it.
    pub open: Open,
}

impl Model for Open {
    ghost use Rattle.std.specs.Prelude.{List, ℕ, ◌∷◌, [], length};
    ghost use Rattle.gixobj_tree_entries.specs.Entries.{EntryView};

    ghost Value = { List (List (List ℕ) × (List EntryView × List EntryView)) };

    ghost use Rattle.gixobj_editor_open.specs.Nested.{IsPiecedLevel, child_list, opened, parts};

    ghost view = { λ a. opened a.entries a.base (parts (child_list a.children)) };

    ghost invariant = { λ a. IsPiecedLevel a.entries a.children };

    ghost size = { length };

    ghost use Rattle.std.proofs.Common.{arith};
    ghost use Rattle.gixobj_editor_open.specs.Decreases.{most_le-first, most_le-more};

    ghost size_decreases = { λ a h. omega (arith, most_le-first a.children, most_le-more a.children) };
}

impl Open {
    /// Makes a directory of this tree, with an empty base and no open directory in it.
    ///
    /// The tree must be well-formed ([`Tree::is_well_formed`]). Allocates nothing: `alloc` is kept for the
    /// directories that are opened in it.
    pub fn new(alloc: Global, tree: Tree) -> Open
        requires { IsWellFormed tree }
        ensures { result ≡ opened tree [] [] }
    {
        Open::with_base(alloc, tree, Tree::empty(alloc))
    }

    /// Makes a directory of this tree and base, with no open directory in it.
    pub fn with_base(alloc: Global, tree: Tree, base: Tree) -> Open
        requires { IsWellFormed tree }
        ensures { result ≡ opened tree base [] }
    {
        Open {
            entries: Entries::from_tree(alloc, tree),
            base,
            children: Children::new(alloc),
        }
    }

    /// Returns the open directory at a path, if there is one.
    ///
    /// A path without names is the directory itself. Allocates nothing.
    pub fn directory(&self, path: &[BString]) -> Option<&Open>
        ensures found { IfSome result (λ it. (at : Path)
            → dirs_of it.now at ≡ dirs_of self.now (names_of path.now ++ at)) }
        ensures none { IfNone result ((at : Path)
            → dirs_of self.now (names_of path.now ++ at) ≡ None) }
        ensures root { IfSome result (λ it. (entries : List EntryView)
            × (dirs_of it.now [] ≡ Some entries)) }
    {
        let mut here = self;
        for name in path {
            let Some(child_position) = here.children.position(name) else {
                return None;
            };
            let child = here.children.at(child_position);
            here = &child.open;
        }
        // (for the proof: a directory has a list of entries)
        let _ = &here.entries;
        Some(here)
    }

    /// Returns the entry at a path, if the directory of the entry is open and has it.
    ///
    /// A path without names has no entry. The entry of an open directory has the id from before its edits.
    /// Allocates nothing, and looks no directory up.
    pub fn get(&self, path: &[BString]) -> Option<&Entry>
        ensures { option_copied result ≡ entry_at (names_of path.now) (dirs_of self.now) }
    {
        let Some((name, parents)) = path.split_last() else {
            return None;
        };
        let Some(parent) = self.directory(parents) else {
            return None;
        };
        find_entry(&parent.entries, name)
    }

    /// Inserts an entry at a path as [`Open::insert_entry`] does, by a call for each open directory on the path.
    ///
    /// # Errors
    ///
    /// [`AllocError`] if an allocation fails. Nothing is changed then.
    pub(crate) fn insert_recursively(
        &mut self,
        alloc: Global,
        path: &[BString],
        mode: EntryMode,
        id: ObjectId,
        null: ObjectId,
    ) -> Result<(), AllocError>
        requires { AllByRecursion IsEntryName (names_of path.now) }
        ensures dirs { OnOk result ((at : Path)
            → dirs_of self.new at ≡ upserted_dirs (names_of path.now) (mode_bits mode) id null
            (dirs_of self.old) at) }
        ensures bases { OnOk result ((at : Path)
            → bases_of self.new at ≡ edited_bases (dirs_of self.old) (dirs_of self.new)
            (bases_of self.old) at) }
        ensures unchanged { OnErr result (self.new ≡ self.old) }
    {
        let Some((name, rest)) = path.split_first() else {
            return Ok(());
        };
        if rest.is_empty() {
            self.entries.insert(name, mode, id)?;
            self.children.remove(name);
            return Ok(());
        }
        let Some(child_position) = self.children.position(name) else {
            let inner = new_with_entry(alloc, rest, mode, id, null)?;
            add_directory(
                alloc,
                &mut self.entries,
                &mut self.children,
                name,
                null,
                inner,
            )?;
            return Ok(());
        };
        let child = self.children.at_mut(child_position);
        child.open.insert_recursively(alloc, rest, mode, id, null)
    }

    /// Removes the entry at a path as [`Open::take`] does, by a call for each name. Allocates nothing.
    pub(crate) fn take_recursively(&mut self, path: &[BString])
        ensures dirs { (at : Path) → dirs_of self.new at
            ≡ removed_dirs (names_of path.now) (dirs_of self.old) at }
        ensures bases { (at : Path) → bases_of self.new at
            ≡ edited_bases (dirs_of self.old) (dirs_of self.new) (bases_of self.old) at }
    {
        let Some((name, rest)) = path.split_first() else {
            return;
        };
        if rest.is_empty() {
            take_entry(&mut self.entries, name);
            self.children.remove(name);
            return;
        }
        if let Some(child_position) = self.children.position(name) {
            let child = self.children.at_mut(child_position);
            child.open.take_recursively(rest);
        }
    }
}

impl Drop for Open {
    /// Drops the directory, and all that is open in it, by loops. Allocates nothing.
    fn drop(self) {
        let Open {
            entries,
            base,
            children,
        } = self;
        close(Open {
            entries,
            base,
            children,
        });
    }
}

/// The parts of a directory.
impl Open {
    /// Takes the directory apart: its entries, its base, and the open directories in it.
    pub fn into_parts(self) -> (Entries, Tree, Children)
        ensures level { IsPiecedLevel result.0 result.2 }
        ensures all { opened result.0 result.1 (parts (child_list result.2)) ≡ self }
    {
        let Open {
            entries,
            base,
            children,
        } = self;
        (entries, base, children)
    }
}

/// Copies of open directories.
impl Open {
    /// Copies the directory and all that is open in it.
    ///
    /// Allocates the trees, the bases and the names of the copy, and a list as long as the path is deep.
    ///
    /// # Errors
    ///
    /// [`AllocError`] if an allocation fails.
    pub fn copy(&self, alloc: Global) -> Result<Open, AllocError>
        ensures { IfOk result (λ it. it ≡ self.now) }
    {
        copied(alloc, self)
    }
}

/// Copies a tree, with names of its own.
///
/// # Errors
///
/// [`AllocError`] if an allocation fails.
pub fn copy_tree(alloc: Global, tree: &Tree) -> Result<Tree, AllocError>
    ensures { IfOk result (λ it. it ≡ tree.now) }
{
    let entries = copies(alloc, &tree.entries)?;
    Ok(Tree { entries })
}

/// Returns the entries of the tree.
fn entries_of(tree: &Tree) -> &[Entry]
    ensures { result.now ≡ tree.now }
{
    &tree.entries
}

/// Returns the entries of the directory's base.
pub fn base_of(node: &Open) -> &[Entry]
    ensures { bases_of node.now [] ≡ Some result.now }
{
    entries_of(&node.base)
}

/// Removes the entry of a name, if there is one.
fn take_entry(entries: &mut Entries, name: &BString)
    ensures { entries.new ≡ without (bstring_bytes name.now) entries.old }
{
    entries.remove(name.as_bytes());
}

/// Returns `true` if there is an entry of tree mode with this name.
fn has_tree_named(entries: &Entries, name: &BString) -> bool
    ensures { result ≡ has_tree (bstring_bytes name.now) entries.now }
{
    entries.find_tree(name.as_bytes()).is_some()
}

/// Inserts an entry of kind tree with the null id, unless there is an entry of tree mode with that name.
fn make_directory(entries: &mut Entries, name: &BString, null: ObjectId) -> Result<(), AllocError>
    requires { IsEntryName (bstring_bytes name.now) }
    ensures tree { OnOk result (entries.new
        ≡ with_directory (bstring_bytes name.now) null entries.old) }
    ensures unchanged { OnErr result (entries.new ≡ entries.old) }
{
    if has_tree_named(entries, name) {
        return Ok(());
    }
    entries.insert(name, EntryKind::Tree.into(), null)
}

/// Inserts an open directory at the position of its entry, and ensures that it has an entry.
pub(crate) fn add_directory(
    alloc: Global,
    entries: &mut Entries,
    children: &mut Children,
    name: &BString,
    null: ObjectId,
    inner: Open,
) -> Result<(), AllocError>
    requires name { IsEntryName (bstring_bytes name.now) }
    requires ordered { AreOrdered (parts (child_list children.old)) }
    requires filled { AreFilled children.old }
    ensures inserted { OnOk result ((entries.new
        ≡ with_directory (bstring_bytes name.now) null entries.old)
        × (parts (child_list children.new) ≡ with_part (bstring_bytes name.now, inner)
        (parts (child_list children.old)))) }
    ensures filled { AreFilled children.new }
    ensures unchanged { OnErr result ((entries.new ≡ entries.old)
        × (child_list children.new ≡ child_list children.old)) }
{
    let (own_name, piece) = children.room_for(alloc, name)?;
    make_directory(entries, name, null)?;
    children.insert(piece, own_name, inner);
    Ok(())
}

/// Returns the entry of a name, if there is one.
fn find_entry<'a>(entries: &'a Entries, name: &BString) -> Option<&'a Entry>
    ensures { option_copied result ≡ find (λ e. same_name e.name (bstring_bytes name.now))
        entries.now }
{
    entries.find(name.as_bytes())
}
