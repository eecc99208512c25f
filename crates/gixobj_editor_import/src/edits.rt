//! The edits of a step.
ghost use Rattle.std.specs.Prelude.{◌≢◌, ◌↔◌, Contains, IfErr, IsTrue, OnOk};
ghost use Rattle.gixobj_editor_import.specs.Edited.{AreDone, IsFailedAt, IsReplied};
ghost use Rattle.gixobj_editor.specs.Replies.{reply_to};
ghost use Rattle.gixobj_store.specs.Stores.{store_model};

use gixobj_editor::Edit;
use gixobj_editor::editor::{Editor, Error};
use gixobj_store::Find;

/// Returns `true` if one of the edits is a write.
pub(crate) fn hold_a_write(edits: &[Edit]) -> bool
    ensures { IsTrue result ↔ Contains edits.now Edit.Write }
{
    edits.iter().any(|edit| matches!(edit, Edit::Write))
}

/// Does the edits in order, none of which may be a write. Returns the number and the error of the first that
/// fails.
pub(crate) fn do_edits<S: Find>(
    editor: &mut Editor<S>,
    edits: &[Edit],
) -> Result<(), (usize, Error)>
    requires no_write { ¬ Contains edits.now Edit.Write }
    ensures edited { OnOk result (AreDone (store_model S.objects S.may_fail) editor.old edits.now
        editor.new) }
    ensures after_error { IfErr result (λ it.
        IsFailedAt (store_model S.objects S.may_fail) editor.old edits.now it.0 it.1 editor.new) }
{
    for (index, edit) in edits.iter().enumerate() {
        match do_edit(editor, edit) {
            Ok(()) => {}
            Err(error) => return Err((index, error)),
        }
    }
    Ok(())
}

/// Does an edit, which may not be a write.
fn do_edit<S: Find>(editor: &mut Editor<S>, edit: &Edit) -> Result<(), Error>
    requires { edit.now ≢ Edit.Write }
    ensures { IsReplied (store_model S.objects S.may_fail) editor.old edit.now (reply_to result)
        editor.new }
{
    match edit {
        Edit::Upsert { path, kind, id } => editor.try_upsert(path, *kind, *id),
        Edit::Remove { path } => editor.try_remove(path),
        Edit::RemoveLeaf { path } => editor.try_remove_leaf(path),
        Edit::Write => unreachable!(),
    }
}
