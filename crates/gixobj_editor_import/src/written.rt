//! The write after the edits of a step: the id of each tree is the digest of its encoding.
ghost use Rattle.std.specs.Prelude.{◌∷◌, [], Contains, IfErr, IfOk};
ghost use Rattle.gixobj_editor_write.specs.Calls.{IsCallableOnTrees, answered, denied};
ghost use Rattle.gixobj_hash.specs.Hash.{IsId};
ghost use Rattle.gixobj_editor_import.specs.OutCauses.{HasOutCause, HasOutCauseAfter, ReturnsDigests};
ghost use Rattle.gixobj_editor_import.specs.StepCauses.{HasTreeCause, HasTreeCauseAfter};
ghost use Rattle.gixobj_editor_import.specs.Edited.{IsWriteAfter, IsWriteReplied};
ghost use Rattle.gixobj_tree.specs.TreeEncoding.{IsDigestResult};
ghost use Rattle.gixobj_editor_import.specs.Steps.{HaveHex, IsStepEditsError, IsStepWriteError};
ghost use Rattle.hex.specs.Hex.{IsBytes};
ghost use Rattle.gixobj_store.specs.Stores.{store_model};

use crate::edits::do_edits;
use crate::import::ImportError;
use gixobj_editor::editor::{Editor, Written};
use gixobj_editor::{Edit, EditReply};
use gixobj_encode::encode;
use gixobj_hash::hash::{self, ObjectId};
use gixobj_hash::laws::hex_round_trips;
use gixobj_store_keep::{Keep, keep_all};
use gixobj_tree::Tree;
use std::alloc::Global;

/// Does the edits, none of which may be a write, writes each tree by the digest of its encoding, and has the
/// store keep the trees.
pub(crate) fn write_by_digests<S: Keep>(
    alloc: Global,
    editor: &mut Editor<S>,
    hash: hash::Kind,
    edits: &[Edit],
) -> Result<Written, ImportError>
    requires no_write { ¬ Contains edits.now Edit.Write }
    ensures written { IfOk result (λ it.
        IsWriteAfter (store_model S.objects S.may_fail) hash editor.old edits.now
        (EditReply.Written it) editor.new) }
    ensures root { IfOk result (λ it. HaveHex hash (it.id ∷ [])) }
    ensures error { IfErr result (λ error.
        IsStepEditsError (store_model S.objects S.may_fail) hash edits.now editor.old error editor.new) }
    ensures cause { IfErr result (λ error. HasTreeCauseAfter (store_model S.objects S.may_fail)
        S.keep_errors hash editor.old edits.now error editor.new) }
{
    let mut out = |tree: &Tree|
        ensures { IsDigestResult hash tree.now result }
    { tree.compute_id(alloc, hash) };
    write_edits(editor, &mut out, hash, edits)
}

/// Does the edits, none of which may be a write, writes the root with the ids that `out` returns, and has the
/// store keep the trees.
///
/// `out` must return the digests of this kind of hash.
fn write_edits<S: Keep, F: FnMut(&Tree) -> Result<ObjectId, encode::Error>>(
    editor: &mut Editor<S>,
    out: &mut F,
    hash: hash::Kind,
    edits: &[Edit],
) -> Result<Written, ImportError>
    requires no_write { ¬ Contains edits.now Edit.Write }
    requires callable { IsCallableOnTrees F.pre (answered F.FnMut) out.old }
    requires digests { ReturnsDigests hash F.FnMut out.old }
    ensures written { IfOk result (λ it.
        IsWriteAfter (store_model S.objects S.may_fail) hash editor.old edits.now
        (EditReply.Written it) editor.new) }
    ensures root { IfOk result (λ it. HaveHex hash (it.id ∷ [])) }
    ensures error { IfErr result (λ error.
        IsStepEditsError (store_model S.objects S.may_fail) hash edits.now editor.old error editor.new) }
    ensures cause { IfErr result (λ error. HasTreeCauseAfter (store_model S.objects S.may_fail)
        S.keep_errors hash editor.old edits.now error editor.new) }
    ensures out { IfErr result (HasOutCauseAfter (answered F.FnMut) (denied F.FnMut)
        (store_model S.objects S.may_fail) editor.old edits.now out.old out.new) }
{
    if let Err((index, error)) = do_edits(editor, edits) {
        return Err(ImportError::Edit { index, error });
    }
    write_and_keep(editor, out, hash)
}

/// Writes the root with the ids that `out` returns, and has the store keep the trees.
///
/// `out` must return the digests of this kind of hash.
fn write_and_keep<S: Keep, F: FnMut(&Tree) -> Result<ObjectId, encode::Error>>(
    editor: &mut Editor<S>,
    out: &mut F,
    hash: hash::Kind,
) -> Result<Written, ImportError>
    requires callable { IsCallableOnTrees F.pre (answered F.FnMut) out.old }
    requires digests { ReturnsDigests hash F.FnMut out.old }
    ensures written { IfOk result (λ it.
        IsWriteReplied (store_model S.objects S.may_fail) hash editor.old (EditReply.Written it)
        editor.new) }
    ensures root { IfOk result (λ it. HaveHex hash (it.id ∷ [])) }
    ensures error { IfErr result (λ error.
        IsStepWriteError (store_model S.objects S.may_fail) hash editor.old error editor.new) }
    ensures cause { IfErr result (λ error. HasTreeCause (store_model S.objects S.may_fail)
        S.keep_errors hash editor.old error editor.new) }
    ensures out { IfErr result (HasOutCause (answered F.FnMut) (denied F.FnMut) editor.old out.old
        out.new) }
{
    hex_round_trips();
    let written = match editor.try_write(out) {
        Ok(written) => written,
        Err(error) => return Err(ImportError::Write(error)),
    };
    is_an_id(&written.id);
    match keep_all(editor.store_mut(), &written.trees) {
        Ok(()) => Ok(written),
        Err((_count, error)) => Err(ImportError::NotKept(error)),
    }
}

/// Shows that an id has as many bytes as its kind.
pub(crate) fn is_an_id(id: &ObjectId)
    ensures { IsId id.now }
{
    are_bytes(id.as_bytes());
}

/// Shows that the elements of a slice are bytes.
fn are_bytes(bytes: &[u8])
    ensures { IsBytes bytes.now }
{
    let _length = bytes.len();
}
