//! Cursors of an editor, with edits and writes at paths from one directory.
//!
//! An edit opens the directories above its path before it allocates the path from the root: so each lookup is
//! counted, also one that runs out of memory.
ghost use Rattle.std.specs.Prelude.{◌≡◌, ◌≢◌, [], IfErr, IfOk, IsOk, None, OnErr, OnOk};
ghost use Rattle.std.specs.Borrow.{RestsIfErr, sem};
ghost use Rattle.std.specs.Option.{option_copied};
ghost use Rattle.gixobj_editor_write.specs.Calls.{IsCallableOnTrees, answered, denied, names_of};
ghost use Rattle.gixobj_editor_write.specs.WriteErrors.{IsWriteError};
ghost use Rattle.gixobj_editor_lookups.specs.Openings.{OfTrees};
ghost use Rattle.gixobj_editor_lookups.specs.EditNames.{from_root, StartsInvalid};
ghost use Rattle.gixobj_editor.specs.Cursors.{IsEnsured, IsFailedCursorIn, IsWrittenBelow, IsErrorBelow, IsCursorError};
ghost use Rattle.gixobj_editor.specs.Cursors.{cursor_path};
ghost use Rattle.gixobj_editor.specs.Removals.{IsLeafRemoved, IsRemoved, IsLeafRemovalError, IsRemovalError};
ghost use Rattle.gixobj_editor.specs.Upserts.{IsNameError, IsUpserted, IsErrorIn, IsUpsertError};
ghost use Rattle.gixobj_editor.specs.FailedEdits.{HasCountedIn, IsFailedEditIn};
ghost use Rattle.gixobj_editor.specs.contracts.editor.Editor.{the_row};
ghost use Rattle.gixobj_editor_files.specs.Edits.{IsNoTree, IsNotLookedUp, entry_at};
ghost use Rattle.gixobj_editor_files.specs.Emission.{EmitsSome};
ghost use Rattle.gixobj_editor_files.specs.Opening.{in_path};
ghost use Rattle.gixobj_editor_files.specs.State.{open_bases, open_dirs};
ghost use Rattle.gixobj_editor_files.specs.Unopened.{with_empty_name};
ghost use Rattle.gixobj_store.specs.Stores.{store_model};
ghost use Rattle.gixobj_tree_entries.specs.Mode.{mode_of_kind};

mod writing;

use super::{Editor, Error, WriteError, Written};
use bstr::BString;
use gixobj_editor_lookups::below::{open_for_removal_below, open_for_upsert_below};
use gixobj_editor_lookups::names::{copy_names, validate_names};
use gixobj_editor_lookups::opening::{NotLookedUp, open_along};
use gixobj_editor_lookups::removal::check_leaf;
use gixobj_editor_write::write::write_at;
use gixobj_hash::OutOfMemory;
use gixobj_hash::hash::ObjectId;
use gixobj_store::Find;
use gixobj_tree::Tree;
use gixobj_tree::tree::{Entry, EntryKind};
use std::marker::Model;

/// A zero-sized field next to the reference to the editor. It makes a cursor a value of its own: only then does the
/// checker cover the result of a call such as [`Cursor::upsert`], which returns its receiver.
#[derive(Drop)]
struct LentBack {}

impl Model for LentBack {
    ghost Value = { Unit {0} };

    ghost view = { λ _. tt };
}

/// A cursor of an editor: its calls take paths from the open directory at the editor's prefix.
/// [`Editor::cursor_at`] and [`Editor::to_cursor`] make one.
///
/// In contracts `editor.now` is the present state of the editor. A dropped cursor leaves the editor as its
/// last call did.
pub struct Cursor<'a, S> {
    editor: &'a mut Editor<S>,
    lent_back: LentBack,
    ghost is_open: { open_dirs editor.now editor.now.prefix ≢ None },
}

impl<S> Drop for Cursor<'_, S> {
    fn drop(self)
        ensures { self.exit.0.now ≡ self.entry.editor.now }
    {
        let Cursor {
            editor: _,
            lent_back: _,
        } = self;
    }
}

/// Cursors
impl<S> Editor<S> {
    /// Makes a cursor at the root. Allocates nothing.
    pub fn to_cursor(&mut self) -> Cursor<'_, S>
        ensures same_reference { result.editor.ghost_name ≡ self.entry.ghost_name }
        ensures editor { result.editor.now ≡ record self.old { prefix = [] } }
    {
        self.prefix.clear();
        Cursor {
            editor: self,
            lent_back: LentBack {},
        }
    }
}

impl<S: Find> Editor<S> {
    /// Makes a cursor at the directory of a path, which is opened with each directory above it.
    ///
    /// An empty path and a single empty name mean the root. A directory that isn't open is looked up, and its
    /// entries are kept. A missing one is made, and an entry that isn't a tree is replaced. Each opened
    /// directory has a base, by which a write detects a change. It is empty for a directory that is made.
    ///
    /// A directory with the null id or the empty tree's id is opened as empty, without a lookup.
    ///
    /// Allocates for each directory that isn't open, twice for one that is looked up, and a copy of the names.
    ///
    /// # Errors
    ///
    /// - [`Error::EmptyPathComponent`] if the first invalid name is empty, before any lookup;
    /// - [`Error::SlashInPathComponent`] if the first invalid name contains a `/`, before any lookup;
    /// - [`Error::FindExistingObject`] with the lookup's error, for the first directory not found as a tree;
    /// - [`Error::MalformedTree`] for the first directory whose tree isn't well-formed;
    /// - [`Error::OutOfMemory`] if allocation fails, only for a path other than the root's.
    ///
    /// The editor is unchanged after an invalid name. After any other error its files and its prefix are
    /// unchanged, and directories that were opened on the way are still open.
    ///
    /// # Examples
    ///
    /// ```rust
    /// let mut cursor = editor.cursor_at(directory)?;
    /// for (path, blob) in files {
    ///     cursor.try_upsert(path, EntryKind::Blob, *blob)?;
    /// }
    /// Ok(())
    /// ```
    pub fn cursor_at(&mut self, path: &[BString]) -> Result<Cursor<'_, S>, Error>
        // Starred, since a cursor borrows the editor: the clause says what remains of the editor after an
        // error, when nothing borrows it.
        ensures* after_error { sem 𝓛 (RestsIfErr (the_row S.row) self.entry
            (λ c. c.editor.ghost_name) result (λ remaining. IfErr result
            (IsFailedCursorIn (store_model S.objects S.may_fail) self.old
            (cursor_path (names_of path.now)) remaining))) }
        ensures same_reference { IfOk result (λ c. c.editor.ghost_name ≡ self.entry.ghost_name) }
        ensures prefix { IfOk result (λ c. c.editor.now.prefix ≡ cursor_path (names_of path.now)) }
        ensures ensured { IfOk result (λ c.
            OfTrees (S.objects self.old.store)
            (λ trees. IsEnsured trees self.old (cursor_path (names_of path.now)) c.editor.now)) }
        ensures error { IfErr result (IsErrorIn (store_model S.objects S.may_fail) self.old
            IsCursorError (cursor_path (names_of path.now))) }
    {
        self.open_prefix(path)?;
        Ok(Cursor {
            editor: self,
            lent_back: LentBack {},
        })
    }

    /// Opens the directory of a cursor's path, and makes that path the prefix.
    fn open_prefix(&mut self, path: &[BString]) -> Result<(), Error>
        ensures prefix { OnOk result (self.new.prefix ≡ cursor_path (names_of path.now)) }
        ensures is_open { OnOk result (open_dirs self.new self.new.prefix ≢ None) }
        ensures ensured { OnOk result (OfTrees (S.objects self.old.store)
            (λ trees. IsEnsured trees self.old (cursor_path (names_of path.now)) self.new)) }
        ensures after_error { IfErr result (IsFailedEditIn (store_model S.objects S.may_fail)
            self.old (with_empty_name (cursor_path (names_of path.now))) self.new) }
        ensures error { IfErr result (IsErrorIn (store_model S.objects S.may_fail) self.old
            IsCursorError (cursor_path (names_of path.now))) }
        ensures lookups { IfErr result (HasCountedIn S.objects IsNoTree self.old
            (with_empty_name (cursor_path (names_of path.now))) self.new) }
        ensures unchanged { IfErr result (λ error. IsNameError error → self.new ≡ self.old) }
    {
        self.ensure_directory(cursor_path_of(path))
    }

    /// Opens or makes the directory at a path and each one above it, and makes the path the prefix.
    fn ensure_directory(&mut self, path: &[BString]) -> Result<(), Error>
        ensures ensured { OnOk result (OfTrees (S.objects self.old.store)
            (λ trees. IsEnsured trees self.old (names_of path.now) self.new)) }
        ensures prefix { OnOk result (self.new.prefix ≡ names_of path.now) }
        ensures is_open { OnOk result (open_dirs self.new self.new.prefix ≢ None) }
        ensures after_error { IfErr result (IsFailedEditIn (store_model S.objects S.may_fail)
            self.old (with_empty_name (names_of path.now)) self.new) }
        ensures error { IfErr result (IsErrorIn (store_model S.objects S.may_fail) self.old
            IsCursorError (names_of path.now)) }
        ensures lookups { IfErr result (HasCountedIn S.objects IsNoTree self.old
            (with_empty_name (names_of path.now)) self.new) }
        ensures unchanged { IfErr result (λ error. IsNameError error → self.new ≡ self.old) }
    {
        let alloc = *self.prefix.allocator();
        validate_names(path)?;
        let null = ObjectId::null(self.object_hash);
        open_along(
            alloc,
            &mut self.root,
            path,
            NotLookedUp::Opened,
            &self.store,
            &mut self.lookups,
        )?;
        let prefix = copy_names(alloc, path)?;
        self.root.ensure_directory(alloc, path, null)?;
        self.prefix = prefix;
        Ok(())
    }
}

impl<S> Editor<S> {
    /// Returns the entry at a path from the prefix.
    fn get_below(&self, path: &[BString]) -> Option<&Entry>
        ensures { option_copied result ≡ entry_at (from_root self.now.prefix (names_of path.now))
            (open_dirs self.now) }
    {
        let Some(directory) = self.root.directory(&self.prefix) else {
            return None;
        };
        directory.get(path)
    }

    /// Emits the changed open directories below the prefix, and last the directory at the prefix.
    fn write_below<E, F: FnMut(&Tree) -> Result<ObjectId, E>>(
        &mut self,
        out: &mut F,
    ) -> Result<Written, WriteError<E>>
        requires callable { IsCallableOnTrees F.pre (answered F.FnMut) out.old }
        requires is_open { open_dirs self.old self.old.prefix ≢ None }
        ensures written { IfOk result (λ it.
            IsWrittenBelow (answered F.FnMut) out.old self.old self.old.prefix it self.new
            out.new) }
        ensures error { IfErr result (IsWriteError (answered F.FnMut) (denied F.FnMut)
            (EmitsSome (in_path self.old.prefix (open_dirs self.old))
            (in_path self.old.prefix (open_bases self.old))) out.old out.new) }
        ensures unchanged { OnErr result (self.new ≡ self.old) }
    {
        let alloc = *self.prefix.allocator();
        write_at(alloc, &mut self.root, &self.prefix, out)
    }
}

/// Returns the path, or the empty path for a single empty name.
fn cursor_path_of(path: &[BString]) -> &[BString]
    ensures { names_of result.now ≡ cursor_path (names_of path.now) }
{
    match path {
        [name] if name.is_empty() => &[],
        _ => path,
    }
}

/// Editing
impl<S: Find> Cursor<'_, S> {
    /// Inserts or replaces an entry like [`Cursor::try_upsert`], and returns the cursor, so that calls chain.
    ///
    /// The contract states the effect on the returned cursor, and nothing of what an error leaves. Callers
    /// with proofs use [`Cursor::try_upsert`], which allocates the same.
    ///
    /// # Errors
    ///
    /// Those of [`Cursor::try_upsert`], with the same effect on the editor.
    pub fn upsert(
        &mut self,
        path: &[BString],
        kind: EntryKind,
        id: ObjectId,
    ) -> Result<&mut Self, Error>
        ensures same_reference { IfOk result (λ it. it.ghost_name ≡ self.entry.ghost_name) }
        ensures same_editor { IfOk result
            (λ it. it.now.editor.ghost_name ≡ self.old.editor.ghost_name) }
        ensures prefix { IfOk result (λ it. it.now.editor.now.prefix ≡ self.old.editor.now.prefix) }
        ensures upserted { IfOk result (λ it.
            OfTrees (S.objects self.old.editor.now.store)
            (λ trees. IsUpserted trees self.old.editor.now
            (from_root self.old.editor.now.prefix (names_of path.now)) (mode_of_kind kind) id
            it.now.editor.now)) }
        ensures error { IfErr result (IsErrorBelow (store_model S.objects S.may_fail)
            self.old.editor.now IsUpsertError (names_of path.now)) }
    {
        self.try_upsert(path, kind, id)?;
        Ok(self)
    }

    /// Inserts or replaces an entry like [`Editor::try_upsert`], at a path from the prefix.
    ///
    /// An empty path changes nothing. The prefix is unchanged. Allocates the path from the root too.
    ///
    /// # Errors
    ///
    /// Those of [`Editor::try_upsert`], with the same effect on the editor. [`Error::OutOfMemory`] also if
    /// the allocation of the path from the root fails.
    pub fn try_upsert(
        &mut self,
        path: &[BString],
        kind: EntryKind,
        id: ObjectId,
    ) -> Result<(), Error>
        ensures same_reference { self.new.editor.ghost_name ≡ self.old.editor.ghost_name }
        ensures prefix { self.new.editor.now.prefix ≡ self.old.editor.now.prefix }
        ensures upserted { OnOk result (OfTrees (S.objects self.old.editor.now.store)
            (λ trees. IsUpserted trees self.old.editor.now
            (from_root self.old.editor.now.prefix (names_of path.now)) (mode_of_kind kind) id
            self.new.editor.now)) }
        ensures after_error { IfErr result (IsFailedEditIn (store_model S.objects S.may_fail)
            self.old.editor.now (from_root self.old.editor.now.prefix (names_of path.now)) self.new.editor.now) }
        ensures error { IfErr result (IsErrorBelow (store_model S.objects S.may_fail)
            self.old.editor.now IsUpsertError (names_of path.now)) }
        ensures lookups { IfErr result (HasCountedIn S.objects IsNoTree self.old.editor.now
            (from_root self.old.editor.now.prefix (names_of path.now)) self.new.editor.now) }
        ensures unchanged { IfErr result (λ error. IsNameError error
            → self.new.editor.now ≡ self.old.editor.now) }
    {
        let editor = &mut *self.editor;
        let alloc = *editor.prefix.allocator();
        if path.is_empty() {
            return Ok(());
        }
        let null = ObjectId::null(editor.object_hash);
        let path = open_for_upsert_below(
            alloc,
            &mut editor.root,
            &editor.prefix,
            path,
            &editor.store,
            &mut editor.lookups,
        )?;
        editor
            .root
            .insert_entry(alloc, &path, kind.into(), id, null)?;
        Ok(())
    }

    /// Removes an entry like [`Cursor::try_remove`], and returns the cursor, so that calls chain.
    ///
    /// The contract states the effect on the returned cursor, and nothing of what an error leaves. Callers
    /// with proofs use [`Cursor::try_remove`], which allocates the same.
    ///
    /// # Errors
    ///
    /// Those of [`Cursor::try_remove`], with the same effect on the editor.
    pub fn remove(&mut self, path: &[BString]) -> Result<&mut Self, Error>
        ensures same_reference { IfOk result (λ it. it.ghost_name ≡ self.entry.ghost_name) }
        ensures same_editor { IfOk result
            (λ it. it.now.editor.ghost_name ≡ self.old.editor.ghost_name) }
        ensures prefix { IfOk result (λ it. it.now.editor.now.prefix ≡ self.old.editor.now.prefix) }
        ensures removed { IfOk result (λ it.
            OfTrees (S.objects self.old.editor.now.store)
            (λ trees. IsRemoved trees self.old.editor.now
            (from_root self.old.editor.now.prefix (names_of path.now)) it.now.editor.now)) }
        ensures error { IfErr result (IsErrorBelow (store_model S.objects S.may_fail)
            self.old.editor.now IsRemovalError (names_of path.now)) }
    {
        self.try_remove(path)?;
        Ok(self)
    }

    /// Removes an entry like [`Editor::try_remove`], at a path from the prefix.
    ///
    /// An empty path changes nothing. The prefix is unchanged. Allocates the path from the root too.
    ///
    /// # Errors
    ///
    /// Those of [`Editor::try_remove`], with the same effect on the editor. [`Error::OutOfMemory`] also if
    /// the allocation of the path from the root fails.
    pub fn try_remove(&mut self, path: &[BString]) -> Result<(), Error>
        ensures same_reference { self.new.editor.ghost_name ≡ self.old.editor.ghost_name }
        ensures prefix { self.new.editor.now.prefix ≡ self.old.editor.now.prefix }
        ensures removed { OnOk result (OfTrees (S.objects self.old.editor.now.store)
            (λ trees. IsRemoved trees self.old.editor.now
            (from_root self.old.editor.now.prefix (names_of path.now)) self.new.editor.now)) }
        ensures after_error { IfErr result (IsFailedEditIn (store_model S.objects S.may_fail)
            self.old.editor.now (from_root self.old.editor.now.prefix (names_of path.now)) self.new.editor.now) }
        ensures error { IfErr result (IsErrorBelow (store_model S.objects S.may_fail)
            self.old.editor.now IsRemovalError (names_of path.now)) }
        ensures lookups { IfErr result (HasCountedIn S.objects IsNoTree self.old.editor.now
            (from_root self.old.editor.now.prefix (names_of path.now)) self.new.editor.now) }
        ensures unchanged { OnErr result (StartsInvalid (from_root self.old.editor.now.prefix
            (names_of path.now)) → self.new.editor.now ≡ self.old.editor.now) }
    {
        let editor = &mut *self.editor;
        let alloc = *editor.prefix.allocator();
        let path = open_for_removal_below(
            alloc,
            &mut editor.root,
            &editor.prefix,
            path,
            NotLookedUp::Opened,
            &editor.store,
            &mut editor.lookups,
        )?;
        editor.root.take(&path);
        Ok(())
    }

    /// Removes an entry like [`Cursor::try_remove_leaf`], and returns the cursor, so that calls chain.
    ///
    /// The contract states the effect on the returned cursor, and nothing of what an error leaves. Callers
    /// with proofs use [`Cursor::try_remove_leaf`], which allocates the same.
    ///
    /// # Errors
    ///
    /// Those of [`Cursor::try_remove_leaf`], with the same effect on the editor.
    pub fn remove_leaf(&mut self, path: &[BString]) -> Result<&mut Self, Error>
        ensures same_reference { IfOk result (λ it. it.ghost_name ≡ self.entry.ghost_name) }
        ensures same_editor { IfOk result
            (λ it. it.now.editor.ghost_name ≡ self.old.editor.ghost_name) }
        ensures prefix { IfOk result (λ it. it.now.editor.now.prefix ≡ self.old.editor.now.prefix) }
        ensures removed { IfOk result (λ it.
            OfTrees (S.objects self.old.editor.now.store)
            (λ trees. IsLeafRemoved trees self.old.editor.now
            (from_root self.old.editor.now.prefix (names_of path.now)) it.now.editor.now)) }
        ensures error { IfErr result (IsErrorBelow (store_model S.objects S.may_fail)
            self.old.editor.now IsLeafRemovalError (names_of path.now)) }
    {
        self.try_remove_leaf(path)?;
        Ok(self)
    }

    /// Removes an entry like [`Editor::try_remove_leaf`], at a path from the prefix.
    ///
    /// An empty path changes nothing. The prefix is unchanged. Allocates the path from the root too.
    ///
    /// # Errors
    ///
    /// Those of [`Editor::try_remove_leaf`], with the same effect on the editor. [`Error::OutOfMemory`] also if the
    /// allocation of the path from the root fails. [`Error::CannotRemoveNonLeaf`] has the path from the root.
    pub fn try_remove_leaf(&mut self, path: &[BString]) -> Result<(), Error>
        ensures same_reference { self.new.editor.ghost_name ≡ self.old.editor.ghost_name }
        ensures prefix { self.new.editor.now.prefix ≡ self.old.editor.now.prefix }
        ensures removed { OnOk result (OfTrees (S.objects self.old.editor.now.store)
            (λ trees. IsLeafRemoved trees self.old.editor.now
            (from_root self.old.editor.now.prefix (names_of path.now)) self.new.editor.now)) }
        ensures after_error { IfErr result (IsFailedEditIn (store_model S.objects S.may_fail)
            self.old.editor.now (from_root self.old.editor.now.prefix (names_of path.now)) self.new.editor.now) }
        ensures error { IfErr result (IsErrorBelow (store_model S.objects S.may_fail)
            self.old.editor.now IsLeafRemovalError (names_of path.now)) }
        ensures lookups { IfErr result (HasCountedIn S.objects IsNotLookedUp self.old.editor.now
            (from_root self.old.editor.now.prefix (names_of path.now)) self.new.editor.now) }
        ensures unchanged { OnErr result (StartsInvalid (from_root self.old.editor.now.prefix
            (names_of path.now)) → self.new.editor.now ≡ self.old.editor.now) }
    {
        let editor = &mut *self.editor;
        let alloc = *editor.prefix.allocator();
        let path = open_for_removal_below(
            alloc,
            &mut editor.root,
            &editor.prefix,
            path,
            NotLookedUp::Unopened,
            &editor.store,
            &mut editor.lookups,
        )?;
        check_leaf(alloc, &editor.root, &path)?;
        editor.root.take(&path);
        Ok(())
    }
}

/// Access
impl<S> Cursor<'_, S> {
    ghost use Rattle.gixobj_editor.specs.contracts.editor.cursor.Cursor.{the_row as cursor_row};
    ghost use Rattle.gixobj_editor.specs.Cursors.Stores.{with_cursor_store};
    ghost use Rattle.std.specs.Borrow.{Lends};
    ghost use mir.Syntax.{named};

    /// Returns the store of the editor, as [`Editor::store_mut`] does. Allocates nothing.
    pub fn store_mut(&mut self) -> &mut S
        ensures* writes_back { sem 𝓛 (Lends (cursor_row (record { mir = named 1; lft = [] }) S.row)
            S.row self.entry result (with_cursor_store self.old)) }
        ensures value { result.now ≡ self.old.editor.now.store }
    {
        self.editor.store_mut()
    }

    /// Returns the entry at a path from the prefix like [`Editor::get`], or `None` for an empty path.
    ///
    /// Looks nothing up, allocates nothing, and always returns `Ok`.
    pub fn get(&self, path: &[BString]) -> Result<Option<&Entry>, OutOfMemory>
        ensures no_error { IsOk result }
        ensures found { IfOk result (λ entry. option_copied entry
            ≡ entry_at (from_root self.now.editor.now.prefix (names_of path.now))
            (open_dirs self.now.editor.now)) }
    {
        Ok(self.editor.get_below(path))
    }
}
