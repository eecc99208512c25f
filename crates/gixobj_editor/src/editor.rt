//! Edits of nested trees by paths, and writes of the changed trees (gitdatamodel, "trees").
//!
//! A directory is opened only if an edit needs it: by a lookup, or as empty if its id is null or the empty tree's.
ghost use Rattle.std.specs.Prelude.{◌≡◌, [], IfErr, IfOk, IsOk, OnErr, OnOk, ℕ};
ghost use Rattle.std.specs.Borrow.{Lends, sem};
ghost use Rattle.std.specs.Option.{option_copied};
ghost use Rattle.gixobj_store.specs.Stores.{store_model};
ghost use Rattle.gixobj_tree.specs.WellFormed.{IsWellFormed};
ghost use Rattle.gixobj_tree_entries.specs.Mode.{mode_of_kind};
ghost use Rattle.gixobj_editor_files.specs.Edits.{IsNoTree, IsNotLookedUp, entry_at};
ghost use Rattle.gixobj_editor_files.specs.Files.{Files, SameFiles, Table};
ghost use Rattle.gixobj_editor_files.specs.Opening.{IsOpened};
ghost use Rattle.gixobj_editor_files.specs.Bases.{HasBases};
ghost use Rattle.gixobj_editor_files.specs.State.{EditorFiles, new_state, open_bases, open_dirs, root_alone};
ghost use Rattle.gixobj_editor_files.specs.State.{with_store};
ghost use Rattle.gixobj_editor_files.specs.Emission.{EmitsSome};
ghost use Rattle.gixobj_editor_write.specs.Calls.{IsCallableOnTrees, answered, denied, names_of};
ghost use Rattle.gixobj_editor_write.specs.WriteErrors.{IsWriteError};
ghost use Rattle.gixobj_editor.specs.Writes.{IsWrittenEditor};
ghost use Rattle.gixobj_editor_lookups.specs.Openings.{OfTrees};
ghost use Rattle.gixobj_editor_lookups.specs.EditNames.{StartsInvalid};
ghost use Rattle.gixobj_editor.specs.Upserts.{IsNameError, IsUpserted, IsErrorIn, IsUpsertError};
ghost use Rattle.gixobj_editor.specs.FailedEdits.{HasCountedIn, IsFailedEditIn};
ghost use Rattle.gixobj_editor.specs.Removals.{IsLeafRemoved, IsRemoved, IsLeafRemovalError, IsRemovalError};
ghost use Rattle.gixobj_editor.specs.contracts.editor.Editor.{the_row};

mod cursor;

use bstr::BString;
pub use cursor::Cursor;
pub use gixobj_editor_lookups::error::Error;
use gixobj_editor_lookups::names::{copy_names, validate_names};
use gixobj_editor_lookups::opening::{NotLookedUp, open_along};
use gixobj_editor_lookups::removal::{check_leaf, open_for_removal};
use gixobj_editor_open::open::Open;
use gixobj_editor_write::write::write_all;
pub use gixobj_editor_write::write::{WriteError, Written};
use gixobj_hash::OutOfMemory;
use gixobj_hash::hash::{self, ObjectId};
use gixobj_store::Find;
use gixobj_tree::Tree;
use gixobj_tree::tree::{Entry, EntryKind};
use std::marker::Model;

/// An editor of a tree and of the trees below it, over an object store. [`Editor::new`] makes one.
///
/// In contracts it has the entries of each open directory and its base, both by the directory's path. The base is
/// the store's tree that the directory was opened with. It is empty if an edit made the directory, and at the root.
/// The editor also has the store, the number of lookups, the kind of the ids, and the path of the newest cursor.
/// An entry with a null id is a placeholder, which a write leaves out.
#[derive(Drop)]
pub struct Editor<S> {
    root: Open,
    store: S,
    object_hash: hash::Kind,
    lookups: u64,
    prefix: Vec<BString>,
}

impl<S> Model for Editor<S> {
    ghost use Rattle.std.specs.FinMap as map;
    ghost use Rattle.gixobj_editor_open.specs.Paths.{names_of};
    ghost use Rattle.gixobj_editor_open.specs.Nested.{base_side, bases_of, dirs_of, entries_side, side_list};
    ghost use Rattle.gixobj_editor_files.specs.Bases.{AreOpenedOn};
    ghost use Rattle.gixobj_editor_files.specs.State.{State};
    ghost use Rattle.gixobj_editor_files.specs.State.Codes.{state_code};

    ghost Value = { State S };

    ghost coded = { state_code S.code };

    ghost view = { λ e. record {
      dirs = map.from_entries (side_list entries_side e.root);
      bases = map.from_entries (side_list base_side e.root);
      store = e.store;
      lookups = e.lookups;
      object_hash = e.object_hash;
      prefix = names_of e.prefix.items;
    } };

    ghost invariant = { λ e. AreOpenedOn (dirs_of e.root) (bases_of e.root) };
}

/// Lifecycle
impl<S> Editor<S> {
    /// Makes an editor of this tree over an object store, with ids of this hash kind.
    ///
    /// The root must be well-formed, as [`Tree::is_well_formed`] reports. A directory that an edit makes has the
    /// null id of `object_hash` until a write. Ids of the other kind are accepted unchanged. Allocates nothing.
    ///
    /// # Examples
    ///
    /// ```rust
    /// match root {
    ///     Ok(root) if root.is_well_formed() => Ok(Editor::new(root, store, id.kind())),
    ///     Ok(_) => Err(Error::MalformedTree),
    ///     Err(_) => Err(Error::OutOfMemory),
    /// }
    /// ```
    pub fn new(root: Tree, store: S, object_hash: hash::Kind) -> Editor<S>
        requires { IsWellFormed root }
        ensures state { result ≡ new_state root store object_hash }
        ensures has_bases { (T : Table) → HasBases T (open_dirs result) (open_bases result) }
        ensures is_opened { IsOpened (open_dirs result) }
        ensures files { (T : Table) (n : ℕ) → SameFiles (EditorFiles T n result) (Files T n root) }
    {
        let alloc = *root.entries.allocator();
        Editor {
            root: Open::new(alloc, root),
            store,
            object_hash,
            lookups: 0,
            prefix: Vec::new(alloc),
        }
    }

    /// Replaces the root by this tree, which must be well-formed, as [`Tree::is_well_formed`] reports.
    ///
    /// Only the root is open then, without earlier edits and bases. The next write emits it even if nothing
    /// is edited in it. The store, the ids' kind and the number of lookups are unchanged. Allocates nothing.
    pub fn set_root(&mut self, root: Tree) -> &mut Editor<S>
        requires { IsWellFormed root }
        ensures same_reference { result.ghost_name ≡ self.entry.ghost_name }
        ensures state { result.now
            ≡ record self.old { dirs = root_alone root; bases = root_alone [] } }
        ensures has_bases { (T : Table) → HasBases T (open_dirs result.now)
            (open_bases result.now) }
        ensures is_opened { IsOpened (open_dirs result.now) }
        ensures files { (T : Table) (n : ℕ)
            → SameFiles (EditorFiles T n result.now) (Files T n root) }
    {
        let alloc = *root.entries.allocator();
        self.root = Open::new(alloc, root);
        self
    }
}

/// Access
impl<S> Editor<S> {
    /// Returns the store, for example to keep emitted trees in it. The rest of the editor is unchanged.
    /// Allocates nothing.
    pub fn store_mut(&mut self) -> &mut S
        ensures* writes_back { sem 𝓛 (Lends (the_row S.row) S.row self.entry result
            (with_store self.old)) }
        ensures value { result.now ≡ self.old.store }
    {
        &mut self.store
    }

    /// Returns the number of trees looked up in the store since the editor was made. It saturates at `u64::MAX`.
    ///
    /// A failed lookup is counted too, also one that runs out of memory. Contracts say so of `cursor_at`, and of
    /// `try_upsert`, `try_remove` and `try_remove_leaf` of editors and cursors. Allocates nothing.
    pub fn lookups(&self) -> u64
        ensures { result ≡ self.now.lookups }
    {
        self.lookups
    }
}

/// Editing
impl<S: Find> Editor<S> {
    /// Inserts or replaces an entry like [`Editor::try_upsert`], and returns the editor, so that calls chain.
    ///
    /// The contract states the effect on the returned editor, and nothing of what an error leaves. Callers
    /// with proofs use [`Editor::try_upsert`], which allocates the same.
    ///
    /// # Errors
    ///
    /// Those of [`Editor::try_upsert`], with the same effect on the editor.
    ///
    /// # Examples
    ///
    /// ```rust
    /// let mut editor = Editor::new(Tree::empty(alloc), Never, HashKind::Sha1);
    /// editor.upsert(&path_names(alloc, path)?, EntryKind::Blob, blob)?;
    /// ```
    pub fn upsert(
        &mut self,
        path: &[BString],
        kind: EntryKind,
        id: ObjectId,
    ) -> Result<&mut Editor<S>, Error>
        ensures same_reference { IfOk result (λ it. it.ghost_name ≡ self.entry.ghost_name) }
        ensures upserted { IfOk result (λ it.
            OfTrees (S.objects self.old.store)
            (λ trees. IsUpserted trees self.old (names_of path.now) (mode_of_kind kind) id
            it.now)) }
        ensures error { IfErr result (IsErrorIn (store_model S.objects S.may_fail) self.old
            IsUpsertError (names_of path.now)) }
    {
        self.try_upsert(path, kind, id)?;
        Ok(self)
    }

    /// Removes an entry like [`Editor::try_remove`], and returns the editor, so that calls chain.
    ///
    /// The contract states the effect on the returned editor, and nothing of what an error leaves. Callers
    /// with proofs use [`Editor::try_remove`], which allocates the same.
    ///
    /// # Errors
    ///
    /// Those of [`Editor::try_remove`], with the same effect on the editor.
    pub fn remove(&mut self, path: &[BString]) -> Result<&mut Editor<S>, Error>
        ensures same_reference { IfOk result (λ it. it.ghost_name ≡ self.entry.ghost_name) }
        ensures removed { IfOk result (λ it.
            OfTrees (S.objects self.old.store)
            (λ trees. IsRemoved trees self.old (names_of path.now) it.now)) }
        ensures error { IfErr result (IsErrorIn (store_model S.objects S.may_fail) self.old
            IsRemovalError (names_of path.now)) }
    {
        self.try_remove(path)?;
        Ok(self)
    }

    /// Removes an entry like [`Editor::try_remove_leaf`], and returns the editor, so that calls chain.
    ///
    /// The contract states the effect on the returned editor, and nothing of what an error leaves. Callers
    /// with proofs use [`Editor::try_remove_leaf`], which allocates the same.
    ///
    /// # Errors
    ///
    /// Those of [`Editor::try_remove_leaf`], with the same effect on the editor.
    pub fn remove_leaf(&mut self, path: &[BString]) -> Result<&mut Editor<S>, Error>
        ensures same_reference { IfOk result (λ it. it.ghost_name ≡ self.entry.ghost_name) }
        ensures removed { IfOk result (λ it.
            OfTrees (S.objects self.old.store)
            (λ trees. IsLeafRemoved trees self.old (names_of path.now) it.now)) }
        ensures error { IfErr result (IsErrorIn (store_model S.objects S.may_fail) self.old
            IsLeafRemovalError (names_of path.now)) }
    {
        self.try_remove_leaf(path)?;
        Ok(self)
    }

    /// Inserts an entry of this kind and id at the path (git-update-index, `--cacheinfo`).
    ///
    /// It replaces any entry of that name and everything below it. Each parent directory on the path becomes
    /// an open directory. One that isn't open is looked up, a missing one is made, and an entry that isn't a
    /// tree is replaced. A directory at the path itself is no longer open. An empty path changes nothing.
    ///
    /// A directory with the null id or the empty tree's id is opened as empty, without a lookup.
    ///
    /// A name is bytes without `/`. A name with a zero byte is accepted, but its tree can't be encoded.
    ///
    /// Allocates for each directory that it opens, twice for one that is looked up, and for the inserted
    /// entries. The second copy is the base, by which a write detects a change.
    ///
    /// # Errors
    ///
    /// - [`Error::EmptyPathComponent`] if the first invalid name is empty, before any lookup;
    /// - [`Error::SlashInPathComponent`] if the first invalid name contains a `/`, before any lookup;
    /// - [`Error::FindExistingObject`] with the lookup's error, for the first directory not found as a tree;
    /// - [`Error::MalformedTree`] for the first directory whose tree isn't well-formed;
    /// - [`Error::OutOfMemory`] if allocation fails, only for a path with names.
    ///
    /// The editor is unchanged after an invalid name. After any other error its files are unchanged, and
    /// directories that were opened on the way are still open.
    pub fn try_upsert(
        &mut self,
        path: &[BString],
        kind: EntryKind,
        id: ObjectId,
    ) -> Result<(), Error>
        ensures upserted { OnOk result (OfTrees (S.objects self.old.store)
            (λ trees. IsUpserted trees self.old (names_of path.now) (mode_of_kind kind) id
            self.new)) }
        ensures after_error { IfErr result (IsFailedEditIn (store_model S.objects S.may_fail)
            self.old (names_of path.now) self.new) }
        ensures error { IfErr result (IsErrorIn (store_model S.objects S.may_fail) self.old
            IsUpsertError (names_of path.now)) }
        ensures lookups { IfErr result (HasCountedIn S.objects IsNoTree self.old
            (names_of path.now) self.new) }
        ensures unchanged { IfErr result (λ error. IsNameError error → self.new ≡ self.old) }
    {
        let alloc = *self.prefix.allocator();
        validate_names(path)?;
        let Some((_last, directory)) = path.split_last() else {
            return Ok(());
        };
        let null = ObjectId::null(self.object_hash);
        open_along(
            alloc,
            &mut self.root,
            directory,
            NotLookedUp::Opened,
            &self.store,
            &mut self.lookups,
        )?;
        self.root.insert_entry(alloc, path, kind.into(), id, null)?;
        Ok(())
    }

    /// Removes the entry at the path and everything below it (git-update-index, `--force-remove`).
    ///
    /// The directories above it are looked up unless they are open. If one is missing or isn't a directory,
    /// there is nothing to remove, and the names after it aren't validated. An empty path changes nothing.
    ///
    /// A directory with the null id or the empty tree's id is opened as empty, without a lookup. Allocates
    /// only for directories that it opens, twice for one that is looked up.
    ///
    /// # Errors
    ///
    /// The first of these on the way from the root:
    ///
    /// - [`Error::EmptyPathComponent`] if a name is empty;
    /// - [`Error::SlashInPathComponent`] if a name contains a `/`;
    /// - [`Error::FindExistingObject`] with the lookup's error, if a directory isn't found as a tree;
    /// - [`Error::MalformedTree`] if a directory's tree isn't well-formed;
    /// - [`Error::OutOfMemory`] if allocation fails, only if a directory above the entry isn't open.
    ///
    /// The editor is unchanged if the first name is invalid. After any other error its files are unchanged,
    /// and directories that were opened on the way are still open.
    ///
    /// # Examples
    ///
    /// ```rust
    /// editor.try_upsert(first, EntryKind::Blob, id)?;
    /// editor.try_remove(second)?;
    /// ```
    pub fn try_remove(&mut self, path: &[BString]) -> Result<(), Error>
        ensures removed { OnOk result (OfTrees (S.objects self.old.store)
            (λ trees. IsRemoved trees self.old (names_of path.now) self.new)) }
        ensures after_error { IfErr result (IsFailedEditIn (store_model S.objects S.may_fail)
            self.old (names_of path.now) self.new) }
        ensures error { IfErr result (IsErrorIn (store_model S.objects S.may_fail) self.old
            IsRemovalError (names_of path.now)) }
        ensures lookups { IfErr result (HasCountedIn S.objects IsNoTree self.old
            (names_of path.now) self.new) }
        ensures unchanged { OnErr result (StartsInvalid (names_of path.now) → self.new ≡ self.old) }
    {
        let alloc = *self.prefix.allocator();
        open_for_removal(
            alloc,
            &mut self.root,
            path,
            NotLookedUp::Opened,
            &self.store,
            &mut self.lookups,
        )?;
        self.root.take(path);
        Ok(())
    }

    /// Removes the entry at the path like [`Editor::try_remove`], unless it is a directory.
    ///
    /// A directory above it with the null id or the empty tree's id isn't opened: it has nothing to remove.
    /// Allocates as [`Editor::try_remove`] does, and the path of [`Error::CannotRemoveNonLeaf`].
    ///
    /// # Errors
    ///
    /// Those of [`Editor::try_remove`], with the same effect on the editor, and
    ///
    /// - [`Error::CannotRemoveNonLeaf`] with the path from the root, if a directory is at the path;
    /// - [`Error::OutOfMemory`] also if a directory is at the path, and the allocation of that path fails.
    pub fn try_remove_leaf(&mut self, path: &[BString]) -> Result<(), Error>
        ensures removed { OnOk result (OfTrees (S.objects self.old.store)
            (λ trees. IsLeafRemoved trees self.old (names_of path.now) self.new)) }
        ensures after_error { IfErr result (IsFailedEditIn (store_model S.objects S.may_fail)
            self.old (names_of path.now) self.new) }
        ensures error { IfErr result (IsErrorIn (store_model S.objects S.may_fail) self.old
            IsLeafRemovalError (names_of path.now)) }
        ensures lookups { IfErr result (HasCountedIn S.objects IsNotLookedUp self.old
            (names_of path.now) self.new) }
        ensures unchanged { OnErr result (StartsInvalid (names_of path.now) → self.new ≡ self.old) }
    {
        let alloc = *self.prefix.allocator();
        open_for_removal(
            alloc,
            &mut self.root,
            path,
            NotLookedUp::Unopened,
            &self.store,
            &mut self.lookups,
        )?;
        check_leaf(alloc, &self.root, path)?;
        self.root.take(path);
        Ok(())
    }
}

/// Lookup
impl<S> Editor<S> {
    /// Returns the entry at the path, or `None`, by open directories alone.
    ///
    /// An open directory's id may be out of date. Looks nothing up, allocates nothing, always returns `Ok`.
    pub fn get(&self, path: &[BString]) -> Result<Option<&Entry>, OutOfMemory>
        ensures no_error { IsOk result }
        ensures found { IfOk result (λ entry. option_copied entry
            ≡ entry_at (names_of path.now) (open_dirs self.now)) }
    {
        Ok(self.root.get(path))
    }
}

/// Copying
impl<S: Clone> Editor<S> {
    /// Copies the editor, with a clone of its store, which must equal the store.
    ///
    /// The copy has the same open directories with their bases, and the same number of lookups. Both editors emit
    /// the same trees in the next write, if `out` returns the same ids. Allocates for each open directory, its
    /// entries and its base, a list as long as the path is deep, and the names of the newest cursor's path.
    ///
    /// # Errors
    ///
    /// [`OutOfMemory`] if allocation fails, in the store's clone too.
    pub fn clone(&self) -> Result<Editor<S>, OutOfMemory>
        requires { (copied : S) → S.is_clone self.now.store copied → copied ≡ self.now.store }
        ensures { IfOk result (λ it. it ≡ self.now) }
    {
        let alloc = *self.prefix.allocator();
        let root = self.root.copy(alloc)?;
        let store = self.store.clone()?;
        let prefix = copy_names(alloc, &self.prefix)?;
        Ok(Editor {
            root,
            store,
            object_hash: self.object_hash,
            lookups: self.lookups,
            prefix,
        })
    }
}

/// Writing
impl<S> Editor<S> {
    /// Emits the changed open directories to `out`, and last the root, as gix-object documents its
    /// `Editor::write`.
    ///
    /// It is [`Editor::try_write`] with an owned closure, which must be callable as is said there. It allocates
    /// what that call allocates.
    ///
    /// # Errors
    ///
    /// Those of [`Editor::try_write`].
    ///
    /// # Examples
    ///
    /// ```rust
    /// let out = |tree: &Tree| tree.compute_id(alloc, HashKind::Sha1);
    /// let Written { id, trees, .. } = editor.write(out)?;
    /// Ok((id, trees.len()))
    /// ```
    pub fn write<E, F: FnMut(&Tree) -> Result<ObjectId, E> + Drop>(
        &mut self,
        out: F,
    ) -> Result<Written, WriteError<E>>
        requires { IsCallableOnTrees F.pre (answered F.FnMut) out }
        ensures written { IfOk result (λ it. (last : F)
            × IsWrittenEditor (answered F.FnMut) out self.old it self.new last) }
        ensures error { IfErr result (λ error. (last : F)
            × IsWriteError (answered F.FnMut) (denied F.FnMut)
            (EmitsSome (open_dirs self.old) (open_bases self.old)) out last error) }
        ensures unchanged { OnErr result (self.new ≡ self.old) }
    {
        let mut out = out;
        self.try_write(&mut out)
    }

    /// Emits the changed open directories to `out`, and last the root, changed or not (git-write-tree).
    ///
    /// Directories come in the order of their entries, each after those in it. Then only the root is open,
    /// with the emitted tree.
    ///
    /// A directory is changed if its written tree differs from its base. That is the tree that it was opened with,
    /// or the empty tree if an edit made it. An unchanged one that has entries isn't emitted: it keeps its id, and
    /// [`Written::saved`] counts it. A directory that is empty then is left out, as are entries with null ids. The
    /// id that `out` returns for a tree becomes its id in the tree above; a null id leaves it out.
    ///
    /// Whenever the call returns an id, that tree has exactly the editor's files, which are unchanged. This
    /// holds in each table that has the emitted trees and the bases of the open directories.
    ///
    /// `out` must be callable on every well-formed tree without null ids, whatever it was called on before.
    ///
    /// Allocates the root's tree, two lists of emitted trees, a list as long as the path is deep, and each
    /// emitted tree whose directory has an open directory or a null id in it. The other trees are emitted
    /// without a copy. It looks nothing up.
    ///
    /// # Errors
    ///
    /// - [`WriteError::Out`] with the error that `out` returns for a tree;
    /// - [`WriteError::OutOfMemory`] if allocation fails.
    ///
    /// The editor is unchanged after an error; earlier calls of `out` aren't undone.
    pub fn try_write<E, F: FnMut(&Tree) -> Result<ObjectId, E>>(
        &mut self,
        out: &mut F,
    ) -> Result<Written, WriteError<E>>
        requires { IsCallableOnTrees F.pre (answered F.FnMut) out.old }
        ensures written { IfOk result (λ it.
            IsWrittenEditor (answered F.FnMut) out.old self.old it self.new out.new) }
        ensures error { IfErr result (IsWriteError (answered F.FnMut) (denied F.FnMut)
            (EmitsSome (open_dirs self.old) (open_bases self.old)) out.old out.new) }
        ensures unchanged { OnErr result (self.new ≡ self.old) }
    {
        let alloc = *self.prefix.allocator();
        write_all(alloc, &mut self.root, out)
    }
}
