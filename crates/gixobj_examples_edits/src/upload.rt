//! A planner of uploads, which returns the trees of an editor's files that a store lacks.
ghost use Rattle.std.specs.Prelude.{◌≡◌, IfErr, IfOk, OnErr};
ghost use Rattle.gix_object.specs.Calls.{answered, denied, IsCallableOnTrees};
ghost use Rattle.gix_object.specs.WriteErrors.{IsWriteError};
ghost use Rattle.gix_object.specs.Emission.{EmitsSome};
ghost use Rattle.gix_object.specs.State.{open_bases, open_dirs};
ghost use Rattle.gix_object.specs.Writes.{IsWrittenEditor};
ghost use Rattle.gixobj_examples_edits.specs.Uploads.{Divides, IsEnough, NamesItsFiles};

use gix_object::Tree;
use gix_object::hash::ObjectId;
use gix_object::tree::editor::{Editor, WriteError};

/// What to upload for the files of an editor, to a store that has what the editor opened. [`upload_of`] makes
/// one.
#[derive(Debug, Drop)]
pub struct Upload {
    /// The id of the root.
    pub id: ObjectId,
    /// The trees, each with its id: those in a directory before the directory, and that of the root last.
    pub trees: Vec<(ObjectId, Tree)>,
    /// The number of open directories below the root that aren't uploaded, since their written trees have
    /// entries and are as they were opened. It saturates at `usize::MAX`.
    pub unchanged: usize,
}

/// Writes the files of an editor, and returns what to upload for them. `out` returns the id of each emitted
/// tree.
///
/// The editor still has these files, and its root alone is open then. With what is uploaded, the returned id
/// names these files, and no tree is missing unless the editor's files lack one. Allocates for the emitted
/// trees.
///
/// `out` must be callable on every well-formed tree without null ids, whatever it was called on before.
///
/// # Errors
///
/// - [`WriteError::Out`] with the error that `out` returns for a tree;
/// - [`WriteError::OutOfMemory`] if allocation fails.
///
/// The editor is unchanged after an error; earlier calls of `out` aren't undone.
pub fn upload_of<S, E, F: FnMut(&Tree) -> Result<ObjectId, E>>(
    editor: &mut Editor<S>,
    out: &mut F,
) -> Result<Upload, WriteError<E>>
    requires callable { IsCallableOnTrees F.pre (answered F.FnMut) out.old }
    ensures divided { IfOk result (Divides editor.old) }
    ensures files { IfOk result (NamesItsFiles editor.old) }
    ensures complete { IfOk result (IsEnough editor.old) }
    ensures written { IfOk result (λ it. IsWrittenEditor (answered F.FnMut) out.old editor.old
        (record { id = it.id; trees = it.trees; saved = it.unchanged }) editor.new out.new) }
    ensures error { IfErr result (IsWriteError (answered F.FnMut) (denied F.FnMut)
        (EmitsSome (open_dirs editor.old) (open_bases editor.old)) out.old out.new) }
    ensures unchanged { OnErr result (editor.new ≡ editor.old) }
{
    let written = editor.try_write(out)?;
    Ok(Upload {
        id: written.id,
        trees: written.trees,
        unchanged: written.saved,
    })
}
