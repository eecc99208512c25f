//! A planner of checkouts that works in one directory of a root.
ghost use Rattle.std.specs.Prelude.{◌≡◌, ℕ, IfErr, IfOk, OnOk};
ghost use Rattle.gix_object.specs.Calls.{answered, denied, IsCallableOnTrees, names_of};
ghost use Rattle.gix_object.specs.Openings.{OfTrees, AreTreesOf};
ghost use Rattle.gix_object.specs.Cursors.{cursor_path};
ghost use Rattle.gix_object.specs.WellFormed.{IsWellFormed};
ghost use Rattle.gix_object.specs.Files.{Files, NamedFiles, SameFiles, Table, Trees};
ghost use Rattle.gix_object.specs.History.{FilesAfter};
ghost use Rattle.gix_object.specs.Tables.{AgreesWithPairs, AgreesWithStore};
ghost use Rattle.gixobj_examples_edits.specs.Checkouts.{AreNotInserted, AreInserted, IsCheckedOut, IsFilled};
ghost use Rattle.gixobj_examples_edits.specs.Checkouts.{IsNotFilled, IsCheckoutError, steps_of_checkout};
ghost use Rattle.gix_object.specs.State.{new_state};
ghost use Rattle.gix_object.specs.Stores.{store_model};

use bstr::BString;
use gix_object::hash::{Kind, ObjectId};
use gix_object::tree::EntryKind;
use gix_object::tree::editor::{Cursor, Editor, Error, WriteError, Written};
use gix_object::{Find, Tree};
use std::fmt::Display;

/// An entry to insert, at a path from the directory of the checkout.
#[derive(Debug, Drop)]
pub struct Planned {
    /// The path of the entry: the names of its parent directories, and its own.
    pub path: Vec<BString>,
    /// The kind of the entry.
    pub kind: EntryKind,
    /// The id of the entry.
    pub id: ObjectId,
}

/// The error of [`with_entries_at`].
#[derive(Debug, Drop, thiserror::Error)]
#[error_bound(E: Display)]
pub enum CheckoutError<E> {
    /// The directory wasn't made, or an entry wasn't inserted. Nothing was emitted.
    #[error("not edited: {0}")]
    Edit(Error),
    /// The write failed.
    #[error("not written: {0}")]
    Write(WriteError<E>),
}

/// Inserts entries into the directory at a prefix of a root, and emits the changed trees to `out`.
///
/// The directory is made if it is missing, also in place of a file; an existing one keeps its entries. The
/// named tree has, at every depth, exactly the files that these steps make of the root's. This holds in each
/// table that agrees with the store and the emitted trees.
///
/// The root must be well-formed. `out` must be callable on every well-formed tree without null ids, whatever
/// it was called on before. Allocates as the calls of [`Editor`], and drops the store at the end.
///
/// # Errors
///
/// - [`CheckoutError::Edit`] with the error of the edit, if the directory isn't made, or an entry isn't
///   inserted;
/// - [`CheckoutError::Write`] with the error of the write, if it fails.
pub fn with_entries_at<S: Find + Drop, E: Drop, F: FnMut(&Tree) -> Result<ObjectId, E> + Drop>(
    root: Tree,
    store: S,
    object_hash: Kind,
    prefix: &[BString],
    entries: &[Planned],
    out: F,
) -> Result<Written, CheckoutError<E>>
    requires well_formed { IsWellFormed root }
    requires callable { IsCallableOnTrees F.pre (answered F.FnMut) out }
    ensures files { IfOk result (λ written.
        OfTrees (S.objects store) (λ trees. (T : Table) (n : ℕ) → AgreesWithStore T trees
        → AgreesWithPairs T written.trees.items
        → SameFiles (NamedFiles T n written.id)
        (FilesAfter T n (steps_of_checkout (cursor_path (names_of prefix.now)) entries.now)
        (Files T n root)))) }
    // The directory is filled, and then the write succeeds; or the error reports which of them failed, and
    // why.
    ensures written { IfOk result (IsCheckedOut (store_model S.objects S.may_fail)
        (new_state root store object_hash) (cursor_path (names_of prefix.now)) entries.now
        (answered F.FnMut) out) }
    ensures error { IfErr result (IsCheckoutError (store_model S.objects S.may_fail)
        (new_state root store object_hash) (cursor_path (names_of prefix.now)) entries.now
        (answered F.FnMut) (denied F.FnMut) out) }
{
    let mut editor = Editor::new(root, store, object_hash);
    if let Err(error) = insert_entries_at(&mut editor, prefix, entries) {
        return Err(CheckoutError::Edit(error));
    }
    match editor.write(out) {
        Ok(written) => Ok(written),
        Err(error) => Err(CheckoutError::Write(error)),
    }
}

/// Makes the directory at a prefix, and inserts the entries into it.
fn insert_entries_at<S: Find>(
    editor: &mut Editor<S>,
    prefix: &[BString],
    entries: &[Planned],
) -> Result<(), Error>
    ensures inserted { OnOk result (IsFilled (store_model S.objects S.may_fail) editor.old
        (cursor_path (names_of prefix.now)) entries.now editor.new) }
    ensures error { IfErr result (IsNotFilled (store_model S.objects S.may_fail) editor.old
        (cursor_path (names_of prefix.now)) entries.now) }
{
    let mut cursor = editor.cursor_at(prefix)?;
    insert_entries(&mut cursor, entries)
}

/// Inserts the entries into the directory of a cursor.
fn insert_entries<S: Find>(cursor: &mut Cursor<'_, S>, entries: &[Planned]) -> Result<(), Error>
    ensures same_reference { cursor.new.editor.ghost_name ≡ cursor.old.editor.ghost_name }
    ensures inserted { OnOk result (AreInserted (store_model S.objects S.may_fail)
        cursor.old.editor.now.prefix cursor.old.editor.now entries.now cursor.new.editor.now) }
    ensures error { IfErr result (AreNotInserted (store_model S.objects S.may_fail)
        cursor.old.editor.now.prefix cursor.old.editor.now entries.now) }
{
    for entry in entries {
        cursor.try_upsert(&entry.path, entry.kind, entry.id)?;
    }
    Ok(())
}
