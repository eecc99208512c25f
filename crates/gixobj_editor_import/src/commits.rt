//! The commit of a step.
ghost use Rattle.std.specs.Prelude.{◌≡◌, IfErr, IfOk, OnOk};
ghost use Rattle.gixobj_actor.specs.ActorWriting.{IsLegal, encode_owned_actor};
ghost use Rattle.gixobj_commit.specs.CommitViews.{owned_commit_lines};
ghost use Rattle.gixobj_editor_import.specs.StepCauses.{HasCommitCause};
ghost use Rattle.gixobj_editor_import.specs.Commits.{NamesSignature, SameActor, only_parent, step_commit, encode_step};
ghost use Rattle.gixobj_editor_import.specs.Steps.{IsCommitKept, IsStepCommitError, IsStepEncodeError};
ghost use Rattle.gixobj_store.specs.Stores.{store_model};

use crate::import::{ImportError, Step};
use crate::written::is_an_id;
use bstr::BString;
use gixobj_actor::actor::Signature;
use gixobj_actor::laws::actor_round_trips;
use gixobj_commit::Commit;
use gixobj_editor::editor::Editor;
use gixobj_encode::{WriteTo, encode};
use gixobj_hash::hash::{self, ObjectId};
use gixobj_hash::laws::hex_round_trips;
use gixobj_hash::{Kind, OutOfMemory, compute_hash};
use gixobj_store_keep::KeepCommit;
use smallvec::SmallVec;
use std::alloc::Global;

/// Makes the commit of a step, and has the store keep it under the digest of its encoding.
pub(crate) fn keep_commit_of<S: KeepCommit>(
    alloc: Global,
    editor: &mut Editor<S>,
    hash: hash::Kind,
    step: &Step,
    tree: ObjectId,
    parent: Option<ObjectId>,
) -> Result<ObjectId, ImportError>
    ensures stored { IfOk result (λ commit.
        IsCommitKept (store_model S.objects S.may_fail) hash step.now tree parent editor.old commit
        editor.new) }
    ensures error { IfErr result (λ error.
        IsStepCommitError (store_model S.objects S.may_fail) hash step.now tree parent editor.old error
        editor.new) }
    ensures cause { IfErr result (HasCommitCause S.keep_commit_errors editor.old.store hash step.now
        tree parent) }
{
    hex_round_trips();
    let content = match bytes_of(alloc, step, tree, parent) {
        Ok(content) => content,
        Err(error) => return Err(error),
    };
    let commit = compute_hash(hash, Kind::Commit, &content);
    is_an_id(&commit);
    names_actor(&step.author);
    names_actor(&step.committer);
    match editor.store_mut().keep_commit(commit, &content) {
        Ok(()) => Ok(commit),
        Err(error) => Err(ImportError::NotKept(error)),
    }
}

/// Encodes the commit of a step.
fn bytes_of(
    alloc: Global,
    step: &Step,
    tree: ObjectId,
    parent: Option<ObjectId>,
) -> Result<Vec<u8>, ImportError>
    ensures encoded { IfOk result (λ content. content.items ≡ encode_step step.now tree parent) }
    ensures encodable { OnOk result (IsLegal step.now.author × IsLegal step.now.committer) }
    ensures error { IfErr result (IsStepEncodeError step.now) }
{
    let commit = commit_of(alloc, step, tree, parent)?;
    let mut content = Vec::new(alloc);
    match commit.write_to_vec(alloc, &mut content) {
        Ok(()) => Ok(content),
        Err(encode::Error::IllegalActor) => Err(ImportError::Commit(encode::Error::IllegalActor)),
        Err(_) => Err(ImportError::OutOfMemory),
    }
}

/// Makes the commit of a step.
fn commit_of(
    alloc: Global,
    step: &Step,
    tree: ObjectId,
    parent: Option<ObjectId>,
) -> Result<Commit, OutOfMemory>
    ensures lines { IfOk result (λ it. owned_commit_lines it ≡ step_commit step.now tree parent) }
    ensures author { IfOk result (λ it. SameActor step.now.author it.author) }
    ensures committer { IfOk result (λ it. SameActor step.now.committer it.committer) }
{
    Ok(Commit {
        tree,
        parents: parents_of(alloc, parent)?,
        author: copy_of_actor(alloc, &step.author)?,
        committer: copy_of_actor(alloc, &step.committer)?,
        encoding: None,
        message: BString::from_slice(alloc, step.message.as_bytes())?,
        extra_headers: Vec::new(alloc),
    })
}

/// Returns a list of at most one id.
fn parents_of(alloc: Global, parent: Option<ObjectId>) -> Result<SmallVec<ObjectId, 1>, OutOfMemory>
    ensures { IfOk result (λ it. it.items ≡ only_parent parent) }
{
    let mut parents = SmallVec::new(alloc);
    if let Some(id) = parent {
        parents.push(id)?;
    }
    Ok(parents)
}

/// Copies an actor.
fn copy_of_actor(alloc: Global, actor: &Signature) -> Result<Signature, OutOfMemory>
    ensures { IfOk result (SameActor actor.now) }
{
    Ok(Signature {
        name: BString::from_slice(alloc, actor.name.as_bytes())?,
        email: BString::from_slice(alloc, actor.email.as_bytes())?,
        time: actor.time,
    })
}

/// Shows that the encoding of an actor names the actor.
fn names_actor(actor: &Signature)
    requires { IsLegal actor.now }
    ensures { NamesSignature (encode_owned_actor actor.now) actor.now }
{
    actor_round_trips();
    let _seconds = actor.time.seconds;
}
