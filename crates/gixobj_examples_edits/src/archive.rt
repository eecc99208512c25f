//! An archive, which imports a history into an object store: all its commits, or the last one.
ghost use Rattle.std.specs.Prelude.{◌≡◌, ◌↔◌, [], IfErr, IfOk, IfSome, IsNone};
ghost use Rattle.gixobj_examples_edits.specs.Archives.{HasArchiveCause, IsArchiveError, IsArchived, IsTip};
ghost use Rattle.gix_object.specs.Imports.{IsNewImporter, before};
ghost use Rattle.gix_object.specs.StepCauses.{HasImportCause};
ghost use Rattle.gix_object.specs.Steps.{Stops};
ghost use Rattle.gix_object.specs.Stores.{store_model};

use gix_object::hash::Kind;
use gix_object::import::{ImportError, Imported, Importer, Step, Stopped, import_all};
use gix_object::laws::consistent_import_has_table;
use gix_object::{Keep, KeepCommit};
use std::alloc::Global;

/// Imports the steps of a history by a new importer, and returns the imports, one for each step.
///
/// The store then names each commit by its id, or another object with the same digest.
///
/// Let the emitted trees be consistent with the trees of the store before the import, and let each decode to
/// itself. Then some table agrees with the import. In it, the tree of each commit has, at every depth,
/// exactly the files that the edits of the steps so far make of none.
///
/// Trees are consistent if no id is null, no id names two trees, the store's included, and the empty tree's
/// id names it alone.
///
/// Allocates as [`import_all`].
///
/// # Errors
///
/// [`Stopped`] at the first step that fails, as [`import_all`]. The steps before it are imported as after a success.
pub fn archive<S: Keep + KeepCommit>(
    importer: &mut Importer<S>,
    steps: &[Step],
) -> Result<Vec<Imported>, Stopped>
    requires new { IsNewImporter importer.old }
    ensures archived { IfOk result (λ all. IsArchived importer.old.hash
        (S.objects importer.old.editor.store) steps.now all.items
        (S.objects importer.new.editor.store)) }
    ensures archived_before { IfErr result (λ it. IsArchived importer.old.hash
        (S.objects importer.old.editor.store) (before it.done.items steps.now) it.done.items
        (S.objects importer.new.editor.store)) }
    ensures error { IfErr result (λ it. Stops (store_model S.objects S.may_fail)
        importer.old steps.now
        it.done.items it.error importer.new) }
    ensures cause { IfErr result (λ it. HasImportCause
        (store_model S.objects S.may_fail) S.keep_errors
        S.keep_commit_errors importer.old steps.now it.done.items it.error importer.new) }
{
    match import_all(importer, steps) {
        Ok(imported) => {
            consistent_import_has_table(steps, &imported);
            Ok(imported)
        }
        Err(stopped) => {
            let before = &steps[..stopped.done.len()];
            consistent_import_has_table(before, &stopped.done);
            Err(stopped)
        }
    }
}

/// Imports the steps of a history into a store, and returns the last import: its commit and the written root.
///
/// The result is `None` if and only if there are no steps. The commit's tree has, at every depth, exactly the
/// files that the edits of all steps make of none. This holds in each table that agrees with the store and
/// the imports.
///
/// Allocates as [`import_all`], and drops the store at the end.
///
/// # Errors
///
/// - [`ImportError`] of the first step that fails, which ends the import.
/// - [`ImportError::OutOfMemory`] also if the allocation of the list of imports fails.
pub fn tip_of<S: Keep + KeepCommit + Drop>(
    alloc: Global,
    store: S,
    hash: Kind,
    steps: &[Step],
) -> Result<Option<Imported>, ImportError>
    ensures none { IfOk result (λ tip. IsNone tip ↔ (steps.now ≡ [])) }
    ensures tip { IfOk result (λ tip. IfSome tip (IsTip (S.objects store) hash steps.now)) }
    ensures error { IfErr result (IsArchiveError (store_model S.objects S.may_fail) store
        hash steps.now) }
    ensures cause { IfErr result (HasArchiveCause (store_model S.objects S.may_fail) S.keep_errors
        S.keep_commit_errors store hash steps.now) }
{
    let mut importer = Importer::new(alloc, store, hash);
    match import_all(&mut importer, steps) {
        Ok(mut imported) => Ok(imported.pop()),
        Err(stopped) => Err(stopped.error),
    }
}
