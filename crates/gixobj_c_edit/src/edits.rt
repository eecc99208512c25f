//! Edits of stored trees by a script.
ghost use Rattle.std.specs.Prelude.{◌≡◌, ◌++◌, ◌∷◌, [], List, IfErr, IfOk, Some};
ghost use Rattle.gixobj_c_codes.specs.Codes.{hash_of_code as hash_of};
ghost use Rattle.gixobj_editor_write.specs.declared.write.Written.{Written};
ghost use Rattle.gixobj_c_edit.specs.Edits.{AreEncodableIfDone, HasFilesOfWrites, HasRun, IsCommandsOf, HasOwnId};
ghost use Rattle.gixobj_c_edit.specs.Edits.{IsEditCall, IsEditError, IsEdited, IsEmitted, IsFailedAt, IsRepliesError};
ghost use Rattle.gixobj_c_edit.specs.Edits.{IsScriptFailure, IsStart, IsStartError, WritesFailure, WritesIds};
ghost use Rattle.gixobj_c_edit.specs.Replies.{AreDone, EndsInWrite};
ghost use Rattle.gixobj_editor.specs.declared.reply.EditReply.TheVariants as edit_reply;
ghost use Rattle.gixobj_editor.specs.declared.reply.Reply.{Reply};
ghost use Rattle.gixobj_editor.specs.declared.reply.Reply.TheVariants as reply;
ghost use Rattle.gixobj_streams.specs.declared.encode.Error.{Error};
ghost use Rattle.gixobj_hash.specs.Hash.{id_bytes};
ghost use Rattle.gixobj_store_keep.specs.Memory.{memory_objects};
ghost use Rattle.gixobj_tree.specs.TreeEncoding.{IsDigestResult};
ghost use Rattle.gixobj_c_edit.specs.declared.failure.Failure.TheVariants as failure;

use crate::failure::{Failure, failure_status, given_failure};
use crate::frames::{frames_of, given_of};
use crate::replies::{first_failure, missing_ids, written_id};
use crate::roots::root_of;
use gixobj_c_codes::buffers::{write_bytes, write_two};
use gixobj_c_codes::codes::{DONE, UNKNOWN_CODE, hash_of_code};
use gixobj_cli_edit::{ScriptError, parse_script};
use gixobj_editor::editor::Editor;
use gixobj_editor::{Command, Edit, Reply, run};
use gixobj_encode::encode;
use gixobj_hash::hash::{Kind, ObjectId};
use gixobj_store_keep::Memory;
use gixobj_tree::Tree;
use std::alloc::Global;

/// The new trees, and the id of the root.
#[derive(Drop)]
struct New {
    frames: Vec<u8>,
    id: ObjectId,
}

/// Why there are no new trees, with the number of the line or of the command, and the ids of missing or lossy trees,
/// one after another.
#[derive(Drop)]
struct Failed {
    failure: Failure,
    number: u64,
    ids: Vec<u8>,
}

/// Runs a script on stored trees, then writes the root, and returns the new trees. Allocates.
#[unsafe(no_mangle)]
pub extern "C" fn gixobj_edit(
    alloc: Global,
    hash: u8,
    trees: &[u8],
    root: &[u8],
    script: &[u8],
    out: &mut [u8],
    out_len: &mut usize,
    id: &mut [u8],
    id_len: &mut usize,
    number: &mut u64,
) -> u32
    ensures { IsEditCall (hash_of hash) trees.now root.now script.now out.old out.new out_len.old
        out_len.new id.old id.new id_len.old id_len.new number.old number.new result }
{
    let Some(hash) = hash_of_code(hash) else {
        return UNKNOWN_CODE;
    };
    match edited(alloc, hash, trees, root, script) {
        Ok(new) => write_two(
            new.frames.as_slice(),
            out,
            out_len,
            new.id.as_bytes(),
            id,
            id_len,
        ),
        Err(failed) => write_failure(&failed, id, id_len, number),
    }
}

/// Writes the number of a failure, and the ids of missing or lossy trees.
fn write_failure(failed: &Failed, id: &mut [u8], id_len: &mut usize, number: &mut u64) -> u32
    ensures { WritesFailure failed.now.failure failed.now.number failed.now.ids.items id.old id.new
        id_len.old id_len.new number.new result }
{
    *number = failed.number;
    let status = failure_status(failed.failure);
    match failed.failure {
        Failure::NotFound(_) | Failure::LossyTree(_) => {
            write_ids(status, failed.ids.as_slice(), id, id_len)
        }
        _ => status,
    }
}

/// Writes ids, if the buffer is long enough, and returns the status, or that of a short buffer.
fn write_ids(status: u32, ids: &[u8], id: &mut [u8], id_len: &mut usize) -> u32
    ensures { WritesIds status ids.now id.old id.new id_len.new result }
{
    let written = write_bytes(ids, id, id_len);
    if written == DONE {
        return status;
    }
    written
}

/// Runs the script on the stored trees, and returns the new trees.
fn edited(
    alloc: Global,
    hash: Kind,
    trees: &[u8],
    root: &[u8],
    script: &[u8],
) -> Result<New, Failed>
    ensures found { IfOk result (λ new. IsEdited hash trees.now root.now script.now new.frames.items
        (id_bytes new.id)) }
    ensures error { IfErr result (λ it. IsEditError hash trees.now root.now script.now it.failure
        it.number it.ids.items) }
{
    let start = match start_of(alloc, hash, trees, root) {
        Ok(start) => start,
        Err(failed) => return Err(failed),
    };
    let commands = match commands_of(alloc, hash, script) {
        Ok(commands) => commands,
        Err(failed) => return Err(failed),
    };
    let replies = match replies_of(alloc, hash, start.editor, commands) {
        Ok(replies) => replies,
        Err(failed) => return Err(failed),
    };
    new_trees(alloc, hash, &start.lossy, &replies)
}

/// An editor of the root over a store of the stored trees, and the lossy ones.
#[derive(Drop)]
struct Start {
    editor: Editor<Memory>,
    lossy: Memory,
}

/// Returns an editor of the root over a store of the stored trees, and the lossy ones.
fn start_of(alloc: Global, hash: Kind, trees: &[u8], root: &[u8]) -> Result<Start, Failed>
    ensures found { IfOk result (λ it. IsStart hash trees.now root.now (memory_objects it.lossy)
        it.editor) }
    ensures error { IfErr result (λ it. IsStartError hash trees.now root.now it.failure it.number
        it.ids.items) }
{
    let given = match given_of(alloc, hash, trees) {
        Ok(given) => given,
        Err(failure) => return Err(failed_with(alloc, failure, 0)),
    };
    match root_of(alloc, &given.trees, hash, root) {
        Ok(tree) => Ok(Start {
            editor: Editor::new(tree, given.trees, hash),
            lossy: given.lossy,
        }),
        Err(failure) => {
            let failure = given_failure(&given.lossy, failure);
            Err(failed_with(alloc, failure, 0))
        }
    }
}

/// Returns a failure with the id in it; or out of memory for this id.
fn failed_with(alloc: Global, failure: Failure, number: u64) -> Failed
    ensures own_id { HasOwnId failure result.failure result.ids.items }
    ensures number { result.number ≡ number }
{
    let mut ids = Vec::new(alloc);
    let appended = match failure {
        Failure::NotFound(id) | Failure::LossyTree(id) => ids.extend_from_slice(id.as_bytes()),
        _ => Ok(()),
    };
    match appended {
        Ok(()) => Failed {
            failure,
            number,
            ids,
        },
        Err(_) => Failed {
            failure: Failure::OutOfMemory,
            number,
            ids,
        },
    }
}

/// Returns the commands of a script, and a write after them.
fn commands_of(alloc: Global, hash: Kind, script: &[u8]) -> Result<Vec<Command>, Failed>
    ensures found { IfOk result (λ all. IsCommandsOf hash script.now all.items) }
    ensures error { IfErr result (λ it. IsScriptFailure hash script.now it.failure it.number) }
{
    let mut commands = match parse_script(alloc, script, hash) {
        Ok(commands) => commands,
        Err(ScriptError::BadLine(number)) => {
            return Err(Failed {
                failure: Failure::BadLine,
                number,
                ids: Vec::new(alloc),
            });
        }
        Err(ScriptError::OutOfMemory) => return Err(failed_with(alloc, Failure::OutOfMemory, 0)),
    };
    match commands.push(Command::Edit(Edit::Write)) {
        Ok(()) => Ok(commands),
        Err(_) => Err(failed_with(alloc, Failure::OutOfMemory, 0)),
    }
}

/// Runs the commands, and returns their replies.
fn replies_of(
    alloc: Global,
    hash: Kind,
    editor: Editor<Memory>,
    commands: Vec<Command>,
) -> Result<Vec<Reply<encode::Error>>, Failed>
    ensures ran { IfOk result (λ replies. HasRun hash editor commands.items replies.items) }
    ensures files { IfOk result (λ replies. HasFilesOfWrites editor commands.items replies.items) }
    ensures error { IfErr result (λ it. (it.failure ≡ failure.OutOfMemory) × (it.number ≡ 0)) }
{
    let mut editor = editor;
    match run(
        alloc,
        &mut editor,
        commands,
        |tree: &Tree|
            ensures { IsDigestResult hash tree.now result }
        { tree.compute_id(alloc, hash) },
    ) {
        Ok(replies) => Ok(replies),
        Err(_) => Err(failed_with(alloc, Failure::OutOfMemory, 0)),
    }
}

/// Returns the trees that the writes emitted, the last command among them, if all commands are done.
fn new_trees(
    alloc: Global,
    hash: Kind,
    lossy: &Memory,
    replies: &[Reply<encode::Error>],
) -> Result<New, Failed>
    requires write { EndsInWrite replies.now }
    requires encodable { AreEncodableIfDone replies.now }
    ensures found { IfOk result (λ new. IsEmitted hash replies.now new.frames.items
        (id_bytes new.id)) }
    ensures error { IfErr result (λ it. IsRepliesError hash (memory_objects lossy.now) replies.now
        it.failure it.number it.ids.items) }
{
    if let Some((index, failure)) = first_failure(replies) {
        return Err(failed_at(alloc, lossy, replies, failure, index as u64 + 1));
    }
    match frames_of(alloc, hash, replies) {
        Ok(frames) => Ok(New {
            frames,
            id: last_id(replies),
        }),
        Err(failure) => Err(failed_with(alloc, failure, replies.len() as u64)),
    }
}

/// Returns the failure of a command with this number; for a missing tree it has the ids of all that commands lack.
fn failed_at(
    alloc: Global,
    lossy: &Memory,
    replies: &[Reply<encode::Error>],
    failure: Failure,
    number: u64,
) -> Failed
    ensures failure { IsFailedAt (memory_objects lossy.now) replies.now failure result.failure
        result.ids.items }
    ensures number { result.number ≡ number }
{
    let failure = given_failure(lossy, failure);
    let Failure::NotFound(_) = failure else {
        return failed_with(alloc, failure, number);
    };
    match missing_ids(alloc, lossy, replies) {
        Ok(ids) => Failed {
            failure,
            number,
            ids,
        },
        Err(failure) => Failed {
            failure,
            number,
            ids: Vec::new(alloc),
        },
    }
}

/// Returns the id of the root that the last command wrote.
fn last_id(replies: &[Reply<encode::Error>]) -> ObjectId
    requires write { EndsInWrite replies.now }
    requires done { AreDone replies.now }
    ensures { (before : List (Reply Error)) × (written : Written)
        × (replies.now ≡ before ++ reply.Edit (edit_reply.Written written) ∷ []) × (result ≡ written.id) }
{
    let Some(last) = replies.last() else {
        unreachable!()
    };
    let Some(id) = written_id(last) else {
        unreachable!()
    };
    id
}
