//! Edits and writes by a cursor, with their replies.
ghost use Rattle.std.specs.Prelude.{◌≡◌, ◌+◌, ◌≤◌, ◌++◌, ◌∷◌, [], length, vec_capacity};
ghost use Rattle.std.specs.Fn.{FnReturnsAt};
ghost use Rattle.gixobj_editor_open.specs.Paths.{names_of};
ghost use Rattle.gixobj_editor.specs.Causes.{HasCausesAt, HasKeepCause, HaveEditCauses};
ghost use Rattle.gixobj_editor.specs.Cursors.{cursor_path};
ghost use Rattle.gixobj_editor.specs.Commands.{at_cursor};
ghost use Rattle.gixobj_editor.specs.Replies.{AreEditReplies, IsCallable, IsEditReply, IsReplyAt};
ghost use Rattle.gixobj_store.specs.Stores.{store_model};

use crate::Edit;
use crate::editor::{Cursor, Editor, Error};
use crate::edits::{push_reserved, reply_to_edit};
use crate::reply::{EditReply, Reply};
use bstr::BString;
use gixobj_hash::hash::ObjectId;
use gixobj_store_keep::{Keep, keep_all};
use gixobj_tree::Tree;
use std::alloc::Global;

/// Makes a cursor at the directory and does the edits by it.
pub(crate) fn do_edits_at<S: Keep, E: Drop, F: Fn(&Tree) -> Result<ObjectId, E>>(
    alloc: Global,
    editor: &mut Editor<S>,
    prefix: &[BString],
    edits: Vec<Edit>,
    out: &F,
) -> Reply<E>
    requires callable { IsCallable F.pre out.now }
    ensures reply { IsReplyAt (store_model S.objects S.may_fail) (FnReturnsAt F.Fn out.now)
        (cursor_path (names_of prefix.now)) editor.old edits.items result editor.new }
    ensures causes { HasCausesAt (store_model S.objects S.may_fail) S.keep_errors
        (FnReturnsAt F.Fn out.now)
        (cursor_path (names_of prefix.now)) editor.old edits.items result editor.new }
{
    match Vec::with_capacity(alloc, edits.len()) {
        Ok(replies) => do_edits_in(editor, prefix, edits, replies, out),
        Err(_) => Reply::AtRefused(Error::OutOfMemory),
    }
}

/// Makes a cursor and does the edits by it; the list of replies has the capacity for them.
fn do_edits_in<S: Keep, E: Drop, F: Fn(&Tree) -> Result<ObjectId, E>>(
    editor: &mut Editor<S>,
    prefix: &[BString],
    edits: Vec<Edit>,
    replies: Vec<EditReply<E>>,
    out: &F,
) -> Reply<E>
    requires callable { IsCallable F.pre out.now }
    requires empty { replies.items ≡ [] }
    requires has_capacity { length edits.items ≤ vec_capacity replies }
    ensures reply { IsReplyAt (store_model S.objects S.may_fail) (FnReturnsAt F.Fn out.now)
        (cursor_path (names_of prefix.now)) editor.old edits.items result editor.new }
    ensures causes { HasCausesAt (store_model S.objects S.may_fail) S.keep_errors
        (FnReturnsAt F.Fn out.now)
        (cursor_path (names_of prefix.now)) editor.old edits.items result editor.new }
{
    match editor.cursor_at(prefix) {
        Ok(mut cursor) => Reply::At(do_edits(&mut cursor, edits, replies, out)),
        Err(error) => Reply::AtRefused(error),
    }
}

/// Does the edits in order; the list of replies has the capacity for them.
fn do_edits<S: Keep, E: Drop, F: Fn(&Tree) -> Result<ObjectId, E>>(
    cursor: &mut Cursor<'_, S>,
    edits: Vec<Edit>,
    replies: Vec<EditReply<E>>,
    out: &F,
) -> Vec<EditReply<E>>
    requires callable { IsCallable F.pre out.now }
    requires empty { replies.items ≡ [] }
    requires has_capacity { length edits.items ≤ vec_capacity replies }
    ensures same_reference { cursor.new.editor.ghost_name ≡ cursor.old.editor.ghost_name }
    ensures replies { AreEditReplies (store_model S.objects S.may_fail) (FnReturnsAt F.Fn out.now)
        (at_cursor cursor.old.editor.now.prefix) cursor.old.editor.now edits.items result.items
        cursor.new.editor.now }
    ensures causes { HaveEditCauses (store_model S.objects S.may_fail) S.keep_errors
        (FnReturnsAt F.Fn out.now) (at_cursor cursor.old.editor.now.prefix) cursor.old.editor.now
        edits.items result.items cursor.new.editor.now }
{
    let mut replies = replies;
    for edit in edits {
        let reply = do_edit_by(cursor, edit, out);
        push_reserved(&mut replies, reply);
    }
    replies
}

/// Does one edit, or a write, by the cursor.
fn do_edit_by<S: Keep, E, F: Fn(&Tree) -> Result<ObjectId, E>>(
    cursor: &mut Cursor<'_, S>,
    edit: Edit,
    out: &F,
) -> EditReply<E>
    requires callable { IsCallable F.pre out.now }
    ensures same_reference { cursor.new.editor.ghost_name ≡ cursor.old.editor.ghost_name }
    ensures prefix { cursor.new.editor.now.prefix ≡ cursor.old.editor.now.prefix }
    ensures reply { IsEditReply (store_model S.objects S.may_fail) (FnReturnsAt F.Fn out.now)
        (at_cursor cursor.old.editor.now.prefix) cursor.old.editor.now edit result
        cursor.new.editor.now }
    ensures cause { HasKeepCause S.objects S.keep_errors cursor.old.editor.now.store result }
{
    match edit {
        Edit::Upsert { path, kind, id } => reply_to_edit(cursor.try_upsert(&path, kind, id)),
        Edit::Remove { path } => reply_to_edit(cursor.try_remove(&path)),
        Edit::RemoveLeaf { path } => reply_to_edit(cursor.try_remove_leaf(&path)),
        Edit::Write => do_write_by(cursor, out),
    }
}

/// Writes the directory of the cursor, and has the store keep the emitted trees.
fn do_write_by<S: Keep, E, F: Fn(&Tree) -> Result<ObjectId, E>>(
    cursor: &mut Cursor<'_, S>,
    out: &F,
) -> EditReply<E>
    requires callable { IsCallable F.pre out.now }
    ensures same_reference { cursor.new.editor.ghost_name ≡ cursor.old.editor.ghost_name }
    ensures prefix { cursor.new.editor.now.prefix ≡ cursor.old.editor.now.prefix }
    ensures reply { IsEditReply (store_model S.objects S.may_fail) (FnReturnsAt F.Fn out.now)
        (at_cursor cursor.old.editor.now.prefix) cursor.old.editor.now Edit.Write result
        cursor.new.editor.now }
    ensures cause { HasKeepCause S.objects S.keep_errors cursor.old.editor.now.store result }
{
    let written = match cursor.write(out) {
        Ok(written) => written,
        Err(error) => return EditReply::WriteRefused(error),
    };
    match keep_all(cursor.store_mut(), &written.trees) {
        Ok(()) => EditReply::Written(written),
        Err((count, error)) => EditReply::NotKept(written, count, error),
    }
}
