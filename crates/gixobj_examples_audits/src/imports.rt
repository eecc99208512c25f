//! Imports of a history: two of the same steps, and the entry at a path after one.
ghost use Rattle.std.specs.Prelude.{◌≡◌, ◌⊎◌, IfErr, IfOk, map};
ghost use Rattle.bstr.specs.Owned.{bstring_bytes};
ghost use Rattle.gix_object.specs.Stores.{store_model};
ghost use Rattle.gixobj_examples_audits.specs.Imports.{AreSameImports, IsEntryAfterImport, IsFoundIn, IsFoundInError};
ghost use Rattle.gixobj_examples_audits.specs.Imports.{IsImportOf, IsLookupError, IsStoppedImport};

use crate::laws::{file_is_looked_up, path_leads_to_one_entry};
use bstr::BString;
use gix_object::find::{self, existing_iter};
use gix_object::hash::{Kind, ObjectId};
use gix_object::import::{ImportError, Imported, Importer, Step, import_all};
use gix_object::laws::store_has_tree_map;
use gix_object::tree::Entry;
use gix_object::{Find, FindExt, Keep, KeepCommit};
use std::alloc::Global;

/// The error of [`entry_after_import`].
#[derive(Debug, Drop, thiserror::Error)]
pub enum LookupError {
    /// The import stopped, with the error of a step.
    #[error("not imported: {0}")]
    Import(ImportError),
    /// The tree of the last commit isn't found, for this cause.
    #[error("{0}")]
    Tree(existing_iter::Error),
    /// A lookup on the path failed, for this cause.
    #[error("{0}")]
    Path(find::Error),
}

impl From<existing_iter::Error> for LookupError {
    ghost use Rattle.std.specs.Prelude.{◌≡◌};
    ghost use Rattle.gixobj_examples_audits.specs.declared.imports.LookupError.TheVariants as lookup;

    ghost from_gives = { λ cause error. error ≡ lookup.Tree cause };

    fn from(error: existing_iter::Error) -> LookupError {
        LookupError::Tree(error)
    }
}

impl From<find::Error> for LookupError {
    ghost use Rattle.std.specs.Prelude.{◌≡◌};
    ghost use Rattle.gixobj_examples_audits.specs.declared.imports.LookupError.TheVariants as lookup;

    ghost from_gives = { λ cause error. error ≡ lookup.Path cause };

    fn from(error: find::Error) -> LookupError {
        LookupError::Path(error)
    }
}

/// Imports the steps of a history into two stores, and returns the imports of each.
///
/// If both stores have the same objects before, the imports are the same: the ids of their commits, of their
/// roots, and the emitted trees. Allocates as [`import_all`], and drops the stores at the end.
///
/// # Errors
///
/// [`ImportError`] of the first step that fails, in one of the stores.
pub fn import_twice<S: Keep + KeepCommit + Drop, R: Keep + KeepCommit + Drop>(
    alloc: Global,
    store: S,
    other: R,
    hash: Kind,
    steps: &[Step],
) -> Result<(Vec<Imported>, Vec<Imported>), ImportError>
    ensures imported { IfOk result (λ it.
        IsImportOf (store_model S.objects S.may_fail) store hash steps.now it.0.items
        × IsImportOf (store_model R.objects R.may_fail) other hash steps.now it.1.items) }
    ensures same { S.objects store ≡ R.objects other
        → IfOk result (λ it. AreSameImports it.0.items it.1.items) }
    ensures error { IfErr result (λ error.
        IsStoppedImport (store_model S.objects S.may_fail) store hash steps.now error
        ⊎ IsStoppedImport (store_model R.objects R.may_fail) other hash steps.now error) }
{
    store_has_tree_map();
    let imported = match import_into(alloc, store, hash, steps) {
        Ok(imported) => imported,
        Err(error) => return Err(error),
    };
    match import_into(alloc, other, hash, steps) {
        Ok(again) => Ok((imported, again)),
        Err(error) => Err(error),
    }
}

/// Imports the steps of a history by a new importer, and drops it.
fn import_into<S: Keep + KeepCommit + Drop>(
    alloc: Global,
    store: S,
    hash: Kind,
    steps: &[Step],
) -> Result<Vec<Imported>, ImportError>
    ensures imported { IfOk result (λ all.
        IsImportOf (store_model S.objects S.may_fail) store hash steps.now all.items) }
    ensures error { IfErr result (IsStoppedImport (store_model S.objects S.may_fail) store hash
        steps.now) }
{
    let mut importer = Importer::new(alloc, store, hash);
    match import_all(&mut importer, steps) {
        Ok(imported) => Ok(imported),
        Err(stopped) => Err(stopped.error),
    }
}

/// Imports the steps of a history into a store, and looks up a path in the tree of the last commit.
///
/// If the edits of the steps make a file at the path, the entry is that file: it has its mode and its id. This
/// holds in each table that has the trees of the store and no other, and agrees with the import. The result is
/// `None` if nothing is at the path, or there are no steps.
///
/// Allocates as [`import_all`], two buffers and a copy of the entry's name; drops the store at the end.
///
/// # Errors
///
/// - [`LookupError::Import`] with the error of the first step that fails;
/// - [`LookupError::Tree`] with the lookup's error, if the tree of the last commit isn't found;
/// - [`LookupError::Path`] with the lookup's error, if a lookup on the path fails.
pub fn entry_after_import<S: Keep + KeepCommit + Drop>(
    alloc: Global,
    store: S,
    hash: Kind,
    steps: &[Step],
    path: &[BString],
) -> Result<Option<Entry>, LookupError>
    ensures found { IfOk result (IsEntryAfterImport (store_model S.objects S.may_fail) store hash
        steps.now (map bstring_bytes path.now)) }
    ensures error { IfErr result (IsLookupError (store_model S.objects S.may_fail) store hash
        steps.now (map bstring_bytes path.now)) }
{
    file_is_looked_up();
    path_leads_to_one_entry();
    let mut importer = Importer::new(alloc, store, hash);
    let mut imported = match import_all(&mut importer, steps) {
        Ok(imported) => imported,
        Err(stopped) => return Err(LookupError::Import(stopped.error)),
    };
    match imported.pop() {
        Some(last) => entry_in(alloc, importer.store_mut(), last.written.id, path),
        None => Ok(None),
    }
}

/// Looks up a path in the tree with this id.
fn entry_in<S: Find>(
    alloc: Global,
    store: &S,
    root: ObjectId,
    path: &[BString],
) -> Result<Option<Entry>, LookupError>
    ensures found { IfOk result (IsFoundIn (S.objects store.now) root
        (map bstring_bytes path.now)) }
    ensures error { IfErr result (IsFoundInError (S.objects store.now) (S.may_fail store.now) root
        (map bstring_bytes path.now)) }
{
    let mut bytes = Vec::new(alloc);
    let mut buffer = Vec::new(alloc);
    let tree = store.find_tree_iter(root.as_oid(), &mut bytes)?;
    Ok(tree.lookup_entry(alloc, store, &mut buffer, path)?)
}
