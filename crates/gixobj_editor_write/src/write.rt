//! Writes of open directories: those in a directory are emitted before the directory itself.
ghost use Rattle.std.specs.Prelude.{◌≡◌, ◌≢◌, ◌↔◌, ◌+◌, ◌++◌, ◌∷◌, [], ℕ, All, IsFalse, IsTrue, Some, IfErr, IfOk};
ghost use Rattle.std.specs.Prelude.{List, None, Ok, OnErr, OnOk, ◌==◌, ◌<◌, length, vec_capacity, vec_len};
ghost use Rattle.std.specs.Fn.{CalledAt};
ghost use Rattle.std.specs.List.{FoldsTo};
ghost use Rattle.std.specs.Option.{option_copied};
ghost use Rattle.gixobj_tree_entries.specs.Entries.{EntryView, Pair};
ghost use Rattle.gixobj_tree.specs.WellFormed.{IsWellFormed};
ghost use Rattle.gixobj_editor_files.specs.Bases.{edited_bases};
ghost use Rattle.gixobj_editor_files.specs.Edits.{only_open, raised, with_path};
ghost use Rattle.gixobj_editor_files.specs.Files.{Path, is_null};
ghost use Rattle.gixobj_editor_files.specs.Emission.{EmitsSome, EmitsBelow, Saves};
ghost use Rattle.gixobj_editor_files.specs.Opening.{in_path};
ghost use Rattle.gixobj_editor_write.specs.Calls.{IsCallableOnTrees, IsStorable, names_of, answered, denied};
ghost use Rattle.gixobj_editor_write.specs.WriteErrors.{IsWriteError, EmitsEntry, child_side, entry_if_some};
ghost use Rattle.gixobj_editor_open.specs.Nested.{base_side, bases_of, dirs_of, entries_side, opened};
ghost use Rattle.gixobj_editor_files.specs.WrittenTrees.{SharesBase, so_far};
ghost use Rattle.gixobj_editor_files.specs.FilteredTrees.{IsFilteredTree};
ghost use Rattle.gixobj_editor_write.specs.TakenTrees.{Adds, child_leaf_trees};
ghost use Rattle.gixobj_editor_open.specs.LeafTrees.{inside_of, leaf_trees};

use crate::taken_trees::{fill, take_leaf_trees};
use crate::walk::emit_below;
use bstr::BString;
use gixobj_editor_files::entries::copies;
use gixobj_editor_files::open_entries::Entries;
use gixobj_editor_open::descent::MAX_RECURSIVE;
use gixobj_editor_open::open::{Children, Open};
use gixobj_hash::hash::ObjectId;
use gixobj_tree::Tree;
use std::alloc::{AllocError, AllocFailed, Global};
use std::fmt::Display;
use std::mem;

/// The number of levels below a written directory at which entries in pieces are made one piece, without a copy.
const SETTLED_LEVELS: u32 = 64;

/// What a write emitted: the changed trees, and the tree of the written directory. Writes of editors and cursors return
/// it.
#[derive(Debug, Drop)]
pub struct Written {
    /// The id that `out` returned for the tree of the written directory.
    pub id: ObjectId,
    /// Each emitted tree with its id, in the order of the calls of `out`. The last is that of the written
    /// directory.
    pub trees: Vec<(ObjectId, Tree)>,
    /// The number of unchanged open directories below the written one, which weren't emitted.
    ///
    /// The written tree of each has entries and is its base, and its entry keeps its id. The number saturates
    /// at the maximum of `usize`.
    pub saved: usize,
}

/// The error of writes of editors and cursors. The open directories are unchanged.
#[derive(Debug, Drop, thiserror::Error)]
#[error_bound(E: Display)]
pub enum WriteError<E> {
    /// `out` returned this error for a tree.
    #[error("a tree could not be written: {0}")]
    Out(E),
    /// An allocation failed.
    #[error("out of memory")]
    OutOfMemory,
}

impl<E> From<AllocError> for WriteError<E> {
    ghost use Rattle.gixobj_editor_write.specs.declared.write.WriteError.TheVariants.{OutOfMemory};

    ghost from_gives = { λ _ error. error ≡ OutOfMemory };

    fn from(_: AllocError) -> WriteError<E> {
        WriteError::OutOfMemory
    }
}

impl<E, T: Drop> From<AllocFailed<T>> for WriteError<E> {
    ghost use Rattle.gixobj_editor_write.specs.declared.write.WriteError.TheVariants.{OutOfMemory};

    ghost from_gives = { λ _ error. error ≡ OutOfMemory };

    fn from(_: AllocFailed<T>) -> WriteError<E> {
        WriteError::OutOfMemory
    }
}

/// Emits what is open in a directory, and returns a copy of its written tree, and whether that is its present
/// tree. A leaf tree is copied at once.
fn emit_below_copied<E, F: FnMut(&Tree) -> Result<ObjectId, E>>(
    alloc: Global,
    node: &Open,
    out: &mut F,
    pairs: &mut Vec<(ObjectId, Tree)>,
    saved: &mut usize,
) -> Result<(Tree, bool), WriteError<E>>
    requires callable { IsCallableOnTrees F.pre (answered F.FnMut) out.old }
    ensures emitted { IfOk result (λ it. (below : List Pair) × (count : ℕ)
        × EmitsBelow (dirs_of node.now) (bases_of node.now) below it.0 count
        × (saved.new ≡ raised saved.old count)
        × Adds pairs.old.items pairs.new.items (leaf_trees (inside_of node.now)) below
        × FoldsTo (answered F.FnMut) out.old below out.new) }
    ensures storable { IfOk result (λ it. IsStorable it.0) }
    ensures is_at { IfOk result (λ it. IsTrue it.1 → dirs_of node.now [] ≡ Some it.0) }
    ensures error { IfErr result (IsWriteError (answered F.FnMut) (denied F.FnMut)
        (λ ps. (written_tree : List EntryView) × (count : ℕ)
        × EmitsBelow (dirs_of node.now) (bases_of node.now) ps written_tree count) out.old out.new) }
{
    let mut slot = Tree::empty(alloc);
    let leaf = node.leaf_tree(alloc, &mut slot)?;
    if let Some(tree) = leaf {
        let entries = copies(alloc, &tree.entries)?;
        return Ok((Tree { entries }, true));
    }
    let tree = emit_below(alloc, node, out, pairs, saved)?;
    Ok((tree, false))
}

/// Emits a tree, and appends it with its id to the pairs.
pub(crate) fn emit_tree<E, F: FnMut(&Tree) -> Result<ObjectId, E>>(
    tree: Tree,
    out: &mut F,
    pairs: &mut Vec<(ObjectId, Tree)>,
) -> Result<ObjectId, WriteError<E>>
    requires callable { IsCallableOnTrees F.pre (answered F.FnMut) out.old }
    requires storable { IsStorable tree }
    ensures emitted { IfOk result (λ id. (pairs.new.items ≡ pairs.old.items ++ (id, tree) ∷ [])
        × CalledAt F.FnMut out.old tree (Ok id) out.new) }
    ensures error { IfErr result (IsWriteError (answered F.FnMut) (denied F.FnMut)
        (λ ps. (id : ObjectId) × (ps ≡ (id, tree) ∷ [])) out.old out.new) }
{
    let id = emit(&tree, out, pairs)?;
    let _ = pairs.push((id, tree));
    Ok(id)
}

/// Emits a tree without moving it, and appends its id to the pairs, with an empty tree.
pub(crate) fn emit_leaf_tree<E, F: FnMut(&Tree) -> Result<ObjectId, E>>(
    alloc: Global,
    tree: &Tree,
    out: &mut F,
    pairs: &mut Vec<(ObjectId, Tree)>,
) -> Result<ObjectId, WriteError<E>>
    requires callable { IsCallableOnTrees F.pre (answered F.FnMut) out.old }
    requires storable { IsStorable tree.now }
    ensures emitted { IfOk result (λ id. (pairs.new.items ≡ pairs.old.items ++ (id, []) ∷ [])
        × CalledAt F.FnMut out.old tree.now (Ok id) out.new) }
    ensures error { IfErr result (IsWriteError (answered F.FnMut) (denied F.FnMut)
        (λ ps. (id : ObjectId) × (ps ≡ (id, tree.now) ∷ [])) out.old out.new) }
{
    let id = emit(tree, out, pairs)?;
    let _ = pairs.push((id, Tree::empty(alloc)));
    Ok(id)
}

/// Emits a tree, and returns its id. The pairs have capacity for one more then.
fn emit<E, F: FnMut(&Tree) -> Result<ObjectId, E>>(
    tree: &Tree,
    out: &mut F,
    pairs: &mut Vec<(ObjectId, Tree)>,
) -> Result<ObjectId, WriteError<E>>
    requires callable { IsCallableOnTrees F.pre (answered F.FnMut) out.old }
    requires storable { IsStorable tree.now }
    ensures emitted { IfOk result (λ id. CalledAt F.FnMut out.old tree.now (Ok id) out.new) }
    ensures has_capacity { OnOk result (vec_len pairs.new < vec_capacity pairs.new) }
    ensures items { pairs.new.items ≡ pairs.old.items }
    ensures error { IfErr result (IsWriteError (answered F.FnMut) (denied F.FnMut)
        (λ ps. (id : ObjectId) × (ps ≡ (id, tree.now) ∷ [])) out.old out.new) }
{
    pairs.reserve(1)?;
    match out(tree) {
        Ok(id) => Ok(id),
        Err(error) => Err(WriteError::Out(error)),
    }
}

/// Writes a directory: emits the changed directories that are open in it, and then its written tree
/// (git-write-tree).
///
/// To emit a tree is to call `out` on it: `out` returns the tree's id. Each directory is emitted after those
/// in it.
///
/// The directory's written tree is emitted even if it is empty or unchanged. The directory keeps it, with no
/// directory open in it, and its base is unchanged.
///
/// The written tree has the entries of the directory, with the new ids of changed directories. Entries with
/// null ids are left out, and so are directories whose written trees are empty.
///
/// Any other open directory is changed if its written tree isn't its base. Its entry gets the id that `out`
/// returns for it. An unchanged directory isn't emitted: it keeps its id, and [`Written::saved`] counts it.
///
/// `out` must be callable on every well-formed tree without null ids, whatever it was called on before.
///
/// A changed directory below this one, in which no directory is open and no id is null, is emitted without a
/// copy. Its tree is moved after the last call of `out`. Allocates the other emitted trees, including that of
/// this directory, the list of all, a list of the moved ones, and a list as long as the path is deep; nothing
/// else. The directory keeps its written tree without a second copy. More than 64 levels below, entries in
/// pieces are copied too.
///
/// # Errors
///
/// The open directories are unchanged. `out` may have been called by then.
///
/// - [`WriteError::Out`] with the error that `out` returns for a tree. It isn't called again.
/// - [`WriteError::OutOfMemory`] if an allocation fails.
pub fn write_all<E, F: FnMut(&Tree) -> Result<ObjectId, E>>(
    alloc: Global,
    node: &mut Open,
    out: &mut F,
) -> Result<Written, WriteError<E>>
    requires { IsCallableOnTrees F.pre (answered F.FnMut) out.old }
    ensures written { IfOk result (λ it. (below : List Pair) × (written_tree : List EntryView)
        × Saves (dirs_of node.old) (bases_of node.old) below written_tree it.saved
        × (it.trees.items ≡ below ++ (it.id, written_tree) ∷ [])
        × FoldsTo (answered F.FnMut) out.old (below ++ (it.id, written_tree) ∷ []) out.new × IsStorable written_tree
        × ((base : List EntryView) × (node.new ≡ opened written_tree base []))) }
    ensures bases { OnOk result ((at : Path)
        → bases_of node.new at ≡ edited_bases (dirs_of node.old) (dirs_of node.new)
        (bases_of node.old) at) }
    ensures error { IfErr result (IsWriteError (answered F.FnMut) (denied F.FnMut)
        (EmitsSome (dirs_of node.old) (bases_of node.old)) out.old out.new) }
    ensures unchanged { OnErr result (node.new ≡ node.old) }
{
    node.settle(SETTLED_LEVELS);
    write_settled(alloc, node, out)
}

/// Writes a directory by the rules of [`write_all`]. Entries in pieces are copied into one.
fn write_settled<E, F: FnMut(&Tree) -> Result<ObjectId, E>>(
    alloc: Global,
    node: &mut Open,
    out: &mut F,
) -> Result<Written, WriteError<E>>
    requires { IsCallableOnTrees F.pre (answered F.FnMut) out.old }
    ensures written { IfOk result (λ it. (below : List Pair) × (written_tree : List EntryView)
        × Saves (dirs_of node.old) (bases_of node.old) below written_tree it.saved
        × (it.trees.items ≡ below ++ (it.id, written_tree) ∷ [])
        × FoldsTo (answered F.FnMut) out.old (below ++ (it.id, written_tree) ∷ []) out.new × IsStorable written_tree
        × ((base : List EntryView) × (node.new ≡ opened written_tree base []))) }
    ensures bases { OnOk result ((at : Path)
        → bases_of node.new at ≡ edited_bases (dirs_of node.old) (dirs_of node.new)
        (bases_of node.old) at) }
    ensures error { IfErr result (IsWriteError (answered F.FnMut) (denied F.FnMut)
        (EmitsSome (dirs_of node.old) (bases_of node.old)) out.old out.new) }
    ensures unchanged { OnErr result (node.new ≡ node.old) }
{
    let mut trees = Vec::new(alloc);
    let mut saved = 0;
    let (written_tree, is_written) = emit_below_copied(alloc, node, out, &mut trees, &mut saved)?;
    let mut complete_trees = Vec::with_capacity(alloc, trees.len())?;
    let id = emit(&written_tree, out, &mut trees)?;
    take_written_entries(&mut node.entries, &written_tree, is_written);
    let children = mem::replace(&mut node.children, Children::new(alloc));
    take_leaf_trees(children, &mut complete_trees);
    fill(&mut trees, complete_trees);
    let _ = trees.push((id, written_tree));
    Ok(Written { id, trees, saved })
}

/// Makes a directory's entries those of its written tree, which they already are if `is_written`.
fn take_written_entries(entries: &mut Entries, written_tree: &Tree, is_written: bool)
    requires well_formed { IsWellFormed written_tree.now }
    requires filtered { IsFilteredTree written_tree.now entries.old }
    requires non_null { All (λ e. IsFalse (is_null e.id)) written_tree.now }
    requires is_at { IsTrue is_written → written_tree.now ≡ entries.old }
    ensures { entries.new ≡ written_tree.now }
{
    if !is_written {
        entries.become_tree(written_tree);
    }
}

/// Writes the directory at a path, which must be open, by the rules of [`write_all`].
///
/// Directories outside of it are open as before, with the same entries: the entry of the directory itself
/// keeps its id. The base of each open directory is unchanged.
///
/// Allocates as [`write_all`] does for the directory.
///
/// # Errors
///
/// The open directories are unchanged. `out` may have been called by then.
///
/// - [`WriteError::Out`] with the error that `out` returns for a tree. It isn't called again.
/// - [`WriteError::OutOfMemory`] if an allocation fails.
pub fn write_at<E, F: FnMut(&Tree) -> Result<ObjectId, E>>(
    alloc: Global,
    node: &mut Open,
    path: &[BString],
    out: &mut F,
) -> Result<Written, WriteError<E>>
    requires callable { IsCallableOnTrees F.pre (answered F.FnMut) out.old }
    requires is_open { dirs_of node.old (names_of path.now) ≢ None }
    ensures written { IfOk result (λ it. (below : List Pair) × (written_tree : List EntryView)
        × Saves (in_path (names_of path.now) (dirs_of node.old))
        (in_path (names_of path.now) (bases_of node.old)) below written_tree it.saved
        × (it.trees.items ≡ below ++ (it.id, written_tree) ∷ [])
        × FoldsTo (answered F.FnMut) out.old (below ++ (it.id, written_tree) ∷ []) out.new × IsStorable written_tree
        × ((at : Path) → dirs_of node.new at
        ≡ with_path (names_of path.now) (only_open written_tree) (dirs_of node.old) at)) }
    ensures bases { OnOk result ((at : Path)
        → bases_of node.new at ≡ edited_bases (dirs_of node.old) (dirs_of node.new)
        (bases_of node.old) at) }
    ensures error { IfErr result (IsWriteError (answered F.FnMut) (denied F.FnMut)
        (EmitsSome (in_path (names_of path.now) (dirs_of node.old))
        (in_path (names_of path.now) (bases_of node.old))) out.old out.new) }
    ensures unchanged { OnErr result (node.new ≡ node.old) }
{
    if path.len() <= MAX_RECURSIVE {
        return write_recursively(alloc, node, path, out);
    }
    let descent = node.descend(path);
    let written = write_recursively(alloc, node, descent.rest, out);
    node.ascend(descent);
    written
}

/// Writes the directory at a path by the rules of [`write_at`], by a call for each name.
fn write_recursively<E, F: FnMut(&Tree) -> Result<ObjectId, E>>(
    alloc: Global,
    node: &mut Open,
    path: &[BString],
    out: &mut F,
) -> Result<Written, WriteError<E>>
    requires callable { IsCallableOnTrees F.pre (answered F.FnMut) out.old }
    requires is_open { dirs_of node.old (names_of path.now) ≢ None }
    ensures written { IfOk result (λ it. (below : List Pair) × (written_tree : List EntryView)
        × Saves (in_path (names_of path.now) (dirs_of node.old))
        (in_path (names_of path.now) (bases_of node.old)) below written_tree it.saved
        × (it.trees.items ≡ below ++ (it.id, written_tree) ∷ [])
        × FoldsTo (answered F.FnMut) out.old (below ++ (it.id, written_tree) ∷ []) out.new × IsStorable written_tree
        × ((at : Path) → dirs_of node.new at
        ≡ with_path (names_of path.now) (only_open written_tree) (dirs_of node.old) at)) }
    ensures bases { OnOk result ((at : Path)
        → bases_of node.new at ≡ edited_bases (dirs_of node.old) (dirs_of node.new)
        (bases_of node.old) at) }
    ensures error { IfErr result (IsWriteError (answered F.FnMut) (denied F.FnMut)
        (EmitsSome (in_path (names_of path.now) (dirs_of node.old))
        (in_path (names_of path.now) (bases_of node.old))) out.old out.new) }
    ensures unchanged { OnErr result (node.new ≡ node.old) }
{
    let Some((name, rest)) = path.split_first() else {
        return write_all(alloc, node, out);
    };
    let Some(child_position) = node.children.position(name) else {
        unreachable!()
    };
    let child = node.children.at_mut(child_position);
    write_recursively(alloc, &mut child.open, rest, out)
}
