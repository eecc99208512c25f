//! The importer: it edits a tree step by step, and makes each step a commit (gitdatamodel, "commits").
ghost use Rattle.std.specs.Prelude.{◌≡◌, [], ℕ, IfErr, IfOk, List, None};
ghost use Rattle.std.specs.Borrow.{Lends, sem};
ghost use Rattle.gixobj_editor_files.specs.Bases.{HasBases};
ghost use Rattle.gixobj_editor_files.specs.Files.{Table};
ghost use Rattle.gixobj_editor_files.specs.State.{open_bases, open_dirs};
ghost use Rattle.gixobj_editor_import.specs.ByDigest.{AddsByDigest};
ghost use Rattle.gixobj_editor_import.specs.StepCauses.{HasEncodingCause, HasImportCause, HasStepCause};
ghost use Rattle.gixobj_editor_import.specs.Imports.{AgreesWithStep, AreCommitsOf, HasFilesOf, HaveFilesOfNothing};
ghost use Rattle.gixobj_editor_import.specs.Imports.{IsNewImporter, before, with_imports};
ghost use Rattle.gixobj_editor_import.specs.Steps.{AreImported, IsImported, IsStepError, Stops, over_store};
ghost use Rattle.gixobj_editor_import.specs.contracts.import.Importer.{the_row};
ghost use Rattle.gixobj_store_keep.specs.Keeping.{with_trees};
ghost use Rattle.gixobj_store.specs.Stores.{store_model};
ghost use Rattle.gixobj_tree_entries.specs.Entries.{Pair};

use crate::commits::keep_commit_of;
use crate::edits::hold_a_write;
use crate::written::write_by_digests;
use bstr::BString;
use gixobj_actor::actor::Signature;
use gixobj_editor::Edit;
use gixobj_editor::editor::{Editor, Error, WriteError, Written};
use gixobj_editor::edits::push_reserved;
use gixobj_editor_lookups::laws::store_has_tree_map;
use gixobj_encode::encode;
use gixobj_hash::OutOfMemory;
use gixobj_hash::hash::{self, ObjectId};
use gixobj_store::laws::{id_equality_is_decidable, object_map_insert};
pub use gixobj_store_keep::KeepCommit;
use gixobj_store_keep::{Keep, KeepError};
use gixobj_tree::Tree;
use std::alloc::Global;

/// A step of an import: edits of the files so far, and the actors and the message of their commit.
#[derive(Debug, Drop)]
pub struct Step {
    /// The edits, in order. None of them may be a write.
    pub edits: Vec<Edit>,
    /// The author, who made the change. It may have no `<`, `>` or newline in its name or email.
    pub author: Signature,
    /// The committer, who made the commit. It may have no `<`, `>` or newline in its name or email.
    pub committer: Signature,
    /// The commit message.
    pub message: BString,
}

/// A step that was imported. [`Importer::step`] returns it.
#[derive(Debug, Drop)]
pub struct Imported {
    /// The id of the step's commit.
    pub commit: ObjectId,
    /// What was written for the commit: the id of the root, and the emitted trees.
    pub written: Written,
}

/// The error of [`Importer::step`]: why the step isn't imported.
#[derive(Debug, Drop, thiserror::Error)]
pub enum ImportError {
    /// One of the edits is a write. Nothing was done.
    #[error("a write among the edits")]
    WriteInStep,
    /// An edit failed.
    #[error("edit {index} failed: {error}")]
    Edit {
        /// The index of the edit, from 0.
        index: usize,
        /// The error of the edit.
        error: Error,
    },
    /// The trees weren't written, with this error: one has a name with a zero byte, or an allocation failed.
    #[error("not written: {0}")]
    Write(WriteError<encode::Error>),
    /// The store didn't keep a tree or the commit. The payload is the error that [`Keep::keep`] or
    /// [`KeepCommit::keep_commit`] returned for it.
    #[error("not kept: {0}")]
    NotKept(KeepError),
    /// The commit can't be encoded, since no commit may have its author or committer. The payload is
    /// `IllegalActor`.
    #[error("the commit can't be written: {0}")]
    Commit(encode::Error),
    /// An allocation failed, for the commit or for the list of [`import_all`].
    #[error("out of memory")]
    OutOfMemory,
    /// An earlier step failed with another error than [`ImportError::WriteInStep`]. Nothing was done.
    #[error("an earlier step failed")]
    Failed,
}

impl From<OutOfMemory> for ImportError {
    ghost use Rattle.std.specs.Prelude.{◌≡◌};
    ghost use Rattle.gixobj_editor_import.specs.declared.import.ImportError.TheVariants as import;

    ghost from_gives = { λ _ error. error ≡ import.OutOfMemory };

    fn from(_: OutOfMemory) -> ImportError {
        ImportError::OutOfMemory
    }
}

/// An import that stopped. [`import_all`] returns it as its error.
#[derive(Debug, Drop)]
pub struct Stopped {
    /// What was imported before, one for each step.
    pub done: Vec<Imported>,
    /// The error that stopped the import.
    pub error: ImportError,
}

/// An importer: an editor over a store, and the id of the last imported commit. [`Importer::new`] makes one.
#[derive(Drop)]
pub struct Importer<S> {
    alloc: Global,
    editor: Editor<S>,
    hash: hash::Kind,
    last: Option<ObjectId>,
    failed: bool,
}

impl<S> Importer<S> {
    /// Makes an importer without files and commits, over a store, with ids of this kind of digest.
    ///
    /// Allocates nothing: `alloc` is kept for later.
    pub fn new(alloc: Global, store: S, hash: hash::Kind) -> Importer<S>
        ensures new { IsNewImporter result }
        ensures store { result.editor.store ≡ store }
        ensures hash { result.hash ≡ hash }
        ensures bases { (T : Table) → HasBases T (open_dirs result.editor)
            (open_bases result.editor) }
    {
        Importer {
            alloc,
            editor: Editor::new(Tree::empty(alloc), store, hash),
            hash,
            last: None,
            failed: false,
        }
    }

    /// Returns the store of the importer. The rest of the importer is unchanged. Allocates nothing.
    pub fn store_mut(&mut self) -> &mut S
        ensures* writes_back { sem 𝓛 (Lends (the_row S.row) S.row self.entry result
            (over_store self.old)) }
        ensures value { result.now ≡ self.old.editor.store }
    {
        self.editor.store_mut()
    }
}

impl<S: Keep + KeepCommit> Importer<S> {
    /// Imports a step: does its edits, writes the changed trees, and makes its commit (git-commit-tree).
    ///
    /// The store keeps the trees, and then the commit. The id of each is the digest of its encoding. The only
    /// parent of the commit is the last imported commit, if there is one.
    ///
    /// The commit's tree has, at every depth, exactly the files that the edits make of the importer's. The
    /// importer has these files then. This holds in each table that agrees with the store and the emitted
    /// trees, and has the bases of the open directories.
    ///
    /// Each id afterwards names in the store what it named before, or an object whose digest it is. That
    /// holds after an error too.
    ///
    /// Allocates the directories that the edits open, the emitted trees and the bytes of each. For the commit
    /// it allocates a copy of the step's actors and message, and its bytes. The store allocates what it
    /// keeps.
    ///
    /// # Errors
    ///
    /// Nothing is changed after the first two. After any other the importer has failed, and each further step
    /// fails with [`ImportError::Failed`]. The edits before the error are done, and kept trees stay in the
    /// store.
    ///
    /// - [`ImportError::Failed`] if an earlier step failed, except with [`ImportError::WriteInStep`].
    /// - [`ImportError::WriteInStep`] if one of the edits is a write.
    /// - [`ImportError::Edit`] with the number and the error of the first edit that fails.
    /// - [`ImportError::Write`] with the write's error, if a tree has a name with a zero byte, or an
    ///   allocation fails for the trees or their bytes.
    /// - [`ImportError::NotKept`] with the error that [`Keep::keep`] or [`KeepCommit::keep_commit`] returned,
    ///   if the store doesn't keep a tree or the commit.
    /// - [`ImportError::Commit`] with `IllegalActor`, if no commit may have the author or the committer.
    /// - [`ImportError::OutOfMemory`] if an allocation fails for the commit.
    pub fn step(&mut self, step: &Step) -> Result<Imported, ImportError>
        ensures imported { IfOk result (λ it.
            IsImported (store_model S.objects S.may_fail) self.old step.now it self.new) }
        ensures after_error { IfErr result (λ error.
            IsStepError (store_model S.objects S.may_fail) self.old step.now error self.new) }
        ensures cause { IfErr result (λ error. HasStepCause (store_model S.objects S.may_fail)
            S.keep_errors S.keep_commit_errors self.old step.now error self.new) }
        ensures encoding { IfErr result (HasEncodingCause self.old.hash) }
        ensures added { AddsByDigest (S.objects self.old.editor.store)
            (S.objects self.new.editor.store) }
        // The files, in each table that agrees with the store and with the emitted trees.
        ensures files { IfOk result (λ it. (T : Table) (n : ℕ)
            → AgreesWithStep T (S.objects self.old.editor.store) self.old.editor it
            → HasFilesOf T n self.old.editor step.now it self.new.editor) }
        ensures bases { IfOk result (λ it. (T : Table)
            → HasBases T (open_dirs self.new.editor) (open_bases self.new.editor)) }
    {
        store_has_tree_map();
        object_map_insert();
        id_equality_is_decidable();
        if self.failed {
            return Err(ImportError::Failed);
        }
        if hold_a_write(&step.edits) {
            return Err(ImportError::WriteInStep);
        }
        self.failed = true;
        let written = match write_by_digests(self.alloc, &mut self.editor, self.hash, &step.edits) {
            Ok(written) => written,
            Err(error) => return Err(error),
        };
        let (tree, parent) = (written.id, self.last);
        let kept = keep_commit_of(self.alloc, &mut self.editor, self.hash, step, tree, parent);
        let commit = match kept {
            Ok(commit) => commit,
            Err(error) => return Err(error),
        };
        self.last = Some(commit);
        self.failed = false;
        Ok(Imported { commit, written })
    }
}

/// Imports the steps in order, and returns what was imported, one for each step.
///
/// Allocates the list before the first step, and then what each step allocates.
///
/// At the end the store has its former objects, with the trees and the commit of each step inserted in order.
///
/// With a new importer, the id of each commit is the digest of an encoding with the step's author, committer
/// and message. The only parent is the commit before it. The store then names this commit by the id, or
/// another object with the same digest. The commit's tree has, at every depth, exactly the files that the
/// edits of the steps so far make of none. This holds in each table that agrees with the store and the
/// emitted trees.
///
/// # Errors
///
/// - [`Stopped`] at the first step that fails, with the error of [`Importer::step`] and with what was
///   imported before. These steps and their commits are as after a success; the store may also have trees of
///   the step that failed.
/// - [`Stopped`] with [`ImportError::OutOfMemory`] and an empty list, if the allocation of the list fails.
///   Nothing was done then.
///
/// # Examples
///
/// ```rust
/// pub fn tip(alloc: Global, steps: &[Step]) -> Result<Option<ObjectId>, ImportError> {
///     let mut importer = Importer::new(alloc, Memory::new(alloc), HashKind::Sha1);
///     match import_all(&mut importer, steps) {
///         Ok(mut imported) => Ok(imported.pop().map(|last| last.commit)),
///         Err(stopped) => Err(stopped.error),
///     }
/// }
/// ```
pub fn import_all<S: Keep + KeepCommit>(
    importer: &mut Importer<S>,
    steps: &[Step],
) -> Result<Vec<Imported>, Stopped>
    ensures imported { IfOk result (λ all.
        AreImported (store_model S.objects S.may_fail) importer.old steps.now all.items importer.new) }
    ensures error { IfErr result (λ it.
        Stops (store_model S.objects S.may_fail) importer.old steps.now it.done.items it.error
        importer.new) }
    ensures cause { IfErr result (λ it. HasImportCause
        (store_model S.objects S.may_fail) S.keep_errors
        S.keep_commit_errors importer.old steps.now it.done.items it.error importer.new) }
    ensures encoding { IfErr result (λ it. HasEncodingCause importer.old.hash it.error) }
    ensures added { AddsByDigest (S.objects importer.old.editor.store)
        (S.objects importer.new.editor.store) }
    // The store has its former objects, with the trees and commits of the imported steps inserted in order.
    ensures stored { IfOk result (λ all. S.objects importer.new.editor.store
        ≡ with_imports importer.old.last steps.now all.items (S.objects importer.old.editor.store)) }
    // After an error it also has trees of the step that failed, if some were kept.
    ensures stored_done { IfErr result (λ it. (kept : List Pair)
        × (S.objects importer.new.editor.store ≡ with_trees kept
        (with_imports importer.old.last (before it.done.items steps.now) it.done.items
        (S.objects importer.old.editor.store)))) }
    // The commits and files of a new importer, if all steps are imported.
    ensures commits { IfOk result (λ all. IsNewImporter importer.old
        → AreCommitsOf importer.old.hash None steps.now all.items
        (S.objects importer.new.editor.store)) }
    ensures files { IfOk result (λ all. IsNewImporter importer.old
        → HaveFilesOfNothing (S.objects importer.old.editor.store) steps.now all.items) }
    // The commits and files of a new importer, for the steps before the one that failed.
    ensures commits_done { IfErr result (λ it. IsNewImporter importer.old
        → AreCommitsOf importer.old.hash None (before it.done.items steps.now) it.done.items
        (S.objects importer.new.editor.store)) }
    ensures files_done { IfErr result (λ it. IsNewImporter importer.old
        → HaveFilesOfNothing (S.objects importer.old.editor.store) (before it.done.items steps.now)
        it.done.items) }
{
    store_has_tree_map();
    object_map_insert();
    id_equality_is_decidable();
    let mut imported = match Vec::with_capacity(importer.alloc, steps.len()) {
        Ok(imported) => imported,
        Err(_) => return Err(no_list(importer.alloc)),
    };
    for step in steps {
        match importer.step(step) {
            Ok(it) => push_reserved(&mut imported, it),
            Err(error) => {
                return Err(Stopped {
                    done: imported,
                    error,
                });
            }
        }
    }
    Ok(imported)
}

/// Returns the error of an import for whose list an allocation failed.
fn no_list(alloc: Global) -> Stopped
    ensures done { result.done.items ≡ [] }
    ensures error { result.error ≡ ImportError.OutOfMemory }
{
    Stopped {
        done: Vec::new(alloc),
        error: ImportError::OutOfMemory,
    }
}
