//! Writes of the directory of a cursor.
ghost use Rattle.std.specs.Prelude.{◌≡◌, IfErr, IfOk, OnErr};
ghost use Rattle.gixobj_editor_write.specs.Calls.{IsCallableOnTrees, answered, denied};
ghost use Rattle.gixobj_editor_write.specs.WriteErrors.{IsWriteError};
ghost use Rattle.gixobj_editor.specs.Cursors.{IsWrittenBelow};
ghost use Rattle.gixobj_editor_files.specs.Emission.{EmitsSome};
ghost use Rattle.gixobj_editor_files.specs.Opening.{in_path};
ghost use Rattle.gixobj_editor_files.specs.State.{open_bases, open_dirs};

use super::Cursor;
use crate::editor::{WriteError, Written};
use gixobj_hash::hash::ObjectId;
use gixobj_tree::Tree;

/// Writing
impl<S> Cursor<'_, S> {
    /// Emits the changed open directories below the prefix to `out`, and last the directory at the prefix,
    /// like gix-object's `Cursor::write`.
    ///
    /// It is [`Cursor::try_write`] with an owned closure, callable as is said there, and allocates the same.
    ///
    /// # Errors
    ///
    /// Those of [`Cursor::try_write`].
    pub fn write<E, F: FnMut(&Tree) -> Result<ObjectId, E> + Drop>(
        &mut self,
        out: F,
    ) -> Result<Written, WriteError<E>>
        requires { IsCallableOnTrees F.pre (answered F.FnMut) out }
        ensures same_reference { self.new.editor.ghost_name ≡ self.old.editor.ghost_name }
        ensures prefix { self.new.editor.now.prefix ≡ self.old.editor.now.prefix }
        ensures written { IfOk result (λ it. (last : F)
            × IsWrittenBelow (answered F.FnMut) out self.old.editor.now self.old.editor.now.prefix
            it self.new.editor.now last) }
        ensures error { IfErr result (λ error. (last : F)
            × IsWriteError (answered F.FnMut) (denied F.FnMut)
            (EmitsSome (in_path self.old.editor.now.prefix (open_dirs self.old.editor.now))
            (in_path self.old.editor.now.prefix (open_bases self.old.editor.now))) out last error) }
        ensures unchanged { OnErr result (self.new.editor.now ≡ self.old.editor.now) }
    {
        let mut out = out;
        self.try_write(&mut out)
    }

    /// Emits the changed open directories below the prefix to `out`, and last the directory at the prefix,
    /// even if it is empty or unchanged.
    ///
    /// Which trees are emitted, and what is allocated, is as in [`Editor::try_write`]. Then the directory is
    /// open with the emitted tree, and no directory in it is open. All other open directories are unchanged.
    ///
    /// The base of the directory is unchanged, since its entry in the tree above still has the old id. If it
    /// is changed then, the next write of the root emits it once more.
    ///
    /// The returned id names a tree with exactly the files below the prefix; the editor's files are
    /// unchanged. This holds in each table that has the emitted trees and the bases of the open directories.
    ///
    /// `out` must be callable on every well-formed tree without null ids, whatever it was called on before.
    ///
    /// # Errors
    ///
    /// - [`WriteError::Out`] with the error that `out` returns for a tree;
    /// - [`WriteError::OutOfMemory`] if allocation fails.
    ///
    /// The editor is unchanged after an error; earlier calls of `out` aren't undone.
    pub fn try_write<E, F: FnMut(&Tree) -> Result<ObjectId, E>>(
        &mut self,
        out: &mut F,
    ) -> Result<Written, WriteError<E>>
        requires { IsCallableOnTrees F.pre (answered F.FnMut) out.old }
        ensures same_reference { self.new.editor.ghost_name ≡ self.old.editor.ghost_name }
        ensures prefix { self.new.editor.now.prefix ≡ self.old.editor.now.prefix }
        ensures written { IfOk result (λ it.
            IsWrittenBelow (answered F.FnMut) out.old self.old.editor.now self.old.editor.now.prefix
            it self.new.editor.now out.new) }
        ensures error { IfErr result (IsWriteError (answered F.FnMut) (denied F.FnMut)
            (EmitsSome (in_path self.old.editor.now.prefix (open_dirs self.old.editor.now))
            (in_path self.old.editor.now.prefix (open_bases self.old.editor.now))) out.old
            out.new) }
        ensures unchanged { OnErr result (self.new.editor.now ≡ self.old.editor.now) }
    {
        self.editor.write_below(out)
    }
}
