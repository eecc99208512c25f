//! A planner of checkouts, which iterates over trees, and makes a tree of a stored one.
ghost use Rattle.std.specs.Prelude.{ℕ, IfErr, IfOk, IsFalse, List, MatchBool};
ghost use Rattle.gix_object.specs.Calls.{answered, denied, IsCallableOnTrees, names_of};
ghost use Rattle.gix_object.specs.Openings.{OfTrees, AreTreesOf};
ghost use Rattle.gix_object.specs.Entries.{EntryView};
ghost use Rattle.gix_object.specs.Files.{NamedFiles, SameFiles, Table, Trees, Upserted, is_null};
ghost use Rattle.gix_object.specs.Mode.{mode_of_kind};
ghost use Rattle.gix_object.specs.Tables.{AgreesWithPairs, AgreesWithStore};
ghost use Rattle.gix_object.specs.TreeDecoding.{IsMalformedTree, DecodesToTree};
ghost use Rattle.gixobj_examples_edits.specs.Plans.{IsPlanned, IsPlanError};
ghost use Rattle.gix_object.specs.Stores.{store_model};

use bstr::BString;
use gix_object::hash::{Kind, ObjectId};
use gix_object::laws::{consumed_entries_are_prefix, tree_readers_agree};
use gix_object::tree::EntryKind;
use gix_object::tree::editor::{Editor, Error, WriteError, Written};
use gix_object::{Find, Tree, TreeRefIter};
use gixobj_listings::laws::stored_root_has_files;
pub use gixobj_listings::roots::{RootError, root_in};
use std::alloc::Global;
use std::fmt::Display;

/// Tests if the bytes are the encoding of a tree, by iteration to their end. Allocates nothing.
pub fn is_tree(content: &[u8], kind: Kind) -> bool
    ensures { MatchBool result ((entries : List EntryView) × DecodesToTree kind content.now entries)
        (IsMalformedTree kind content.now) }
{
    tree_readers_agree();
    consumed_entries_are_prefix();
    for item in TreeRefIter::from_bytes(content, kind) {
        if let Err(_) = item {
            return false;
        }
    }
    true
}

/// The error of [`with_entry_in_stored`].
#[derive(Debug, Drop, thiserror::Error)]
#[error_bound(E: Display)]
pub enum PlanError<E> {
    /// The root isn't found, or is invalid. Nothing was edited.
    #[error("no root: {0}")]
    Root(RootError),
    /// The edit failed. Nothing was emitted.
    #[error("not edited: {0}")]
    Edit(Error),
    /// The write failed.
    #[error("not written: {0}")]
    Write(WriteError<E>),
}

/// Inserts an entry at a path of a stored root, and emits the changed trees to `out`.
///
/// The root is looked up by its id; that of the empty tree is found in every store. The named tree has, at
/// every depth, exactly the files that the edit makes of the root's. This holds in each table that agrees
/// with the store and the emitted trees, if the root's id isn't null. In a table the null id names no tree.
///
/// `out` must be callable on every well-formed tree without null ids, whatever it was called on before.
/// Allocates the root, and as the calls of [`Editor`]; drops the store at the end.
///
/// # Errors
///
/// - [`PlanError::Root`] with the error of [`root_in`], if the root isn't found, or is invalid;
/// - [`PlanError::Edit`] with the error of the edit, if it fails;
/// - [`PlanError::Write`] with the error of the write, if it fails.
pub fn with_entry_in_stored<S: Find + Drop, E: Drop, F: FnMut(&Tree) -> Result<ObjectId, E> + Drop>(
    alloc: Global,
    root: ObjectId,
    store: S,
    path: &[BString],
    kind: EntryKind,
    id: ObjectId,
    out: F,
) -> Result<Written, PlanError<E>>
    requires callable { IsCallableOnTrees F.pre (answered F.FnMut) out }
    ensures files { IfOk result (λ written. IsFalse (is_null root)
        → OfTrees (S.objects store) (λ trees. (T : Table) (n : ℕ) → AgreesWithStore T trees
        → AgreesWithPairs T written.trees.items
        → SameFiles (NamedFiles T n written.id)
        (Upserted T n (names_of path.now) (mode_of_kind kind) id (NamedFiles T n root)))) }
    // The root is found, the edit succeeds, and then the write; or the error reports which of them failed,
    // and why.
    ensures written { IfOk result (IsPlanned (store_model S.objects S.may_fail) store root
        (names_of path.now) (mode_of_kind kind) id (answered F.FnMut) out) }
    ensures error { IfErr result (IsPlanError (store_model S.objects S.may_fail) store root
        (names_of path.now) (mode_of_kind kind) id (answered F.FnMut) (denied F.FnMut) out) }
{
    stored_root_has_files();
    let tree = match root_in(alloc, &store, root) {
        Ok(tree) => tree,
        Err(error) => return Err(PlanError::Root(error)),
    };
    let mut editor = Editor::new(tree, store, root.kind());
    if let Err(error) = editor.try_upsert(path, kind, id) {
        return Err(PlanError::Edit(error));
    }
    match editor.write(out) {
        Ok(written) => Ok(written),
        Err(error) => Err(PlanError::Write(error)),
    }
}
