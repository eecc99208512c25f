//! Edits and writes of the editor, with their replies.
ghost use Rattle.std.specs.Prelude.{◌≡◌, ◌+◌, ◌≤◌, ◌<◌, ◌++◌, ◌∷◌, [], vec_capacity, vec_len};
ghost use Rattle.std.specs.Fn.{FnReturnsAt};
ghost use Rattle.gixobj_editor.specs.Causes.{HasKeepCause};
ghost use Rattle.gixobj_editor.specs.Commands.{at_root};
ghost use Rattle.gixobj_editor.specs.Replies.{IsCallable, IsEditReply, reply_to};
ghost use Rattle.gixobj_store.specs.Stores.{store_model};

use crate::Edit;
use crate::editor::{Editor, Error};
use crate::reply::EditReply;
use gixobj_hash::hash::ObjectId;
use gixobj_store_keep::{Keep, keep_all};
use gixobj_tree::Tree;

/// Does one edit, or a write, at paths from the root.
pub(crate) fn do_edit<S: Keep, E, F: Fn(&Tree) -> Result<ObjectId, E>>(
    editor: &mut Editor<S>,
    edit: Edit,
    out: &F,
) -> EditReply<E>
    requires callable { IsCallable F.pre out.now }
    ensures reply { IsEditReply (store_model S.objects S.may_fail)
        (FnReturnsAt F.Fn out.now) at_root
        editor.old edit result editor.new }
    ensures cause { HasKeepCause S.objects S.keep_errors editor.old.store result }
{
    match edit {
        Edit::Upsert { path, kind, id } => reply_to_edit(editor.try_upsert(&path, kind, id)),
        Edit::Remove { path } => reply_to_edit(editor.try_remove(&path)),
        Edit::RemoveLeaf { path } => reply_to_edit(editor.try_remove_leaf(&path)),
        Edit::Write => do_write(editor, out),
    }
}

/// Writes, and has the store keep the emitted trees.
fn do_write<S: Keep, E, F: Fn(&Tree) -> Result<ObjectId, E>>(
    editor: &mut Editor<S>,
    out: &F,
) -> EditReply<E>
    requires callable { IsCallable F.pre out.now }
    ensures reply { IsEditReply (store_model S.objects S.may_fail)
        (FnReturnsAt F.Fn out.now) at_root
        editor.old Edit.Write result editor.new }
    ensures cause { HasKeepCause S.objects S.keep_errors editor.old.store result }
{
    let written = match editor.write(out) {
        Ok(written) => written,
        Err(error) => return EditReply::WriteRefused(error),
    };
    match keep_all(editor.store_mut(), &written.trees) {
        Ok(()) => EditReply::Written(written),
        Err((count, error)) => EditReply::NotKept(written, count, error),
    }
}

/// Returns the reply to an accepted or a failed edit.
pub(crate) fn reply_to_edit<E>(done: Result<(), Error>) -> EditReply<E>
    ensures reply { result ≡ reply_to done }
{
    match done {
        Ok(()) => EditReply::Done,
        Err(error) => EditReply::Refused(error),
    }
}

/// Appends an item to a list that has the capacity for it. Allocates nothing.
pub fn push_reserved<T: Drop>(list: &mut Vec<T>, item: T)
    requires { vec_len list.old < vec_capacity list.old }
    ensures items { list.new.items ≡ list.old.items ++ item ∷ [] }
    ensures len { vec_len list.new ≡ vec_len list.old + 1 }
    ensures capacity { vec_capacity list.old ≤ vec_capacity list.new }
{
    let _ = list.push(item);
}
