//! Ensured directories: the directories on a path become open.
ghost use Rattle.std.specs.Prelude.{◌≡◌, None, OnErr, OnOk};
ghost use Rattle.std.specs.List.{AllByRecursion};
ghost use Rattle.gixobj_tree.specs.WellFormed.{IsEntryName};
ghost use Rattle.gixobj_editor_files.specs.Edits.{ensured_dirs};
ghost use Rattle.gixobj_editor_files.specs.Files.{Path};
ghost use Rattle.gixobj_editor_open.specs.Paths.{names_of};
ghost use Rattle.gixobj_editor_open.specs.Nested.{bases_of, dirs_of};
ghost use Rattle.gixobj_editor_files.specs.Bases.{edited_bases};

use crate::descent::MAX_RECURSIVE;
use crate::new_directories::new_directories;
use crate::open::{Open, add_directory};
use bstr::BString;
use gixobj_hash::hash::ObjectId;
use std::alloc::{AllocError, Global};

impl Open {
    /// Ensures that the directory at a path, and each parent directory of it, is open.
    ///
    /// A directory that isn't open is opened as empty, without a lookup. Its entry is unchanged if it is of
    /// tree mode. Otherwise an entry of kind tree with the id `null` is inserted, in place of any entry of
    /// that name. A path without names changes nothing.
    ///
    /// Each name of the path must be a valid name of an entry: not empty, and without `/`.
    ///
    /// Allocates the directories that aren't open and their entries. In a directory of 128 entries or more it
    /// also allocates parts of its lists, and room for a write. Allocates nothing if the directory is open.
    ///
    /// # Errors
    ///
    /// [`AllocError`] if an allocation fails, only if the directory isn't open. Nothing is changed then.
    pub fn ensure_directory(
        &mut self,
        alloc: Global,
        path: &[BString],
        null: ObjectId,
    ) -> Result<(), AllocError>
        requires { AllByRecursion IsEntryName (names_of path.now) }
        ensures dirs { OnOk result ((at : Path)
            → dirs_of self.new at ≡ ensured_dirs (names_of path.now) null (dirs_of self.old) at) }
        ensures bases { OnOk result ((at : Path)
            → bases_of self.new at ≡ edited_bases (dirs_of self.old) (dirs_of self.new)
            (bases_of self.old) at) }
        ensures unchanged { OnErr result (self.new ≡ self.old) }
        ensures unopened { OnErr result (dirs_of self.old (names_of path.now) ≡ None) }
    {
        if path.len() <= MAX_RECURSIVE {
            return self.ensure_recursively(alloc, path, null);
        }
        let descent = self.descend(path);
        let ensured = self.ensure_recursively(alloc, descent.rest, null);
        self.ascend(descent);
        ensured
    }

    /// Ensures a directory as [`Open::ensure_directory`] does, by a call for each open directory on the path.
    ///
    /// # Errors
    ///
    /// [`AllocError`] if an allocation fails, only if the directory isn't open. Nothing is changed then.
    fn ensure_recursively(
        &mut self,
        alloc: Global,
        path: &[BString],
        null: ObjectId,
    ) -> Result<(), AllocError>
        requires { AllByRecursion IsEntryName (names_of path.now) }
        ensures dirs { OnOk result ((at : Path)
            → dirs_of self.new at ≡ ensured_dirs (names_of path.now) null (dirs_of self.old) at) }
        ensures bases { OnOk result ((at : Path)
            → bases_of self.new at ≡ edited_bases (dirs_of self.old) (dirs_of self.new)
            (bases_of self.old) at) }
        ensures unchanged { OnErr result (self.new ≡ self.old) }
        ensures unopened { OnErr result (dirs_of self.old (names_of path.now) ≡ None) }
    {
        // (for the proof: a directory has a list of entries)
        let _ = &self.entries;
        let Some((name, rest)) = path.split_first() else {
            return Ok(());
        };
        let Some(child_position) = self.children.position(name) else {
            let inner = new_directories(alloc, rest, null)?;
            add_directory(
                alloc,
                &mut self.entries,
                &mut self.children,
                name,
                null,
                inner,
            )?;
            return Ok(());
        };
        let child = self.children.at_mut(child_position);
        child.open.ensure_recursively(alloc, rest, null)
    }
}
