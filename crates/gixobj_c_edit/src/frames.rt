//! Trees as loose objects without compression, one after another: each is a frame (gitformat-loose).
ghost use Rattle.std.specs.Prelude.{◌≡◌, ◌++◌, ℕ, All, IfErr, IfNone, IfOk, IfSome, OnOk, Some};
ghost use Rattle.std.specs.List.{flat_map};
ghost use Rattle.gixobj_c_edit.specs.Frames.{BeginsWithFrame, NextFrame, HoldsFrames, IsFrameError};
ghost use Rattle.gixobj_c_edit.specs.Frames.{IsFramesEncodeError, IsFramesError, IsInserted, encode_frame};
ghost use Rattle.gixobj_c_edit.specs.Frames.{encode_tree_frame};
ghost use Rattle.gixobj_c_edit.specs.Lossy.{IsLossless};
ghost use Rattle.gixobj_c_edit.specs.declared.failure.Failure.TheVariants as failure;
ghost use Rattle.gixobj_editor.specs.Commands.{emitted_pairs, pairs_of, pairs_of_edit};
ghost use Rattle.gixobj_hash.specs.Runs.{HasNoPiece};
ghost use Rattle.gixobj_hash.specs.Decode.{HasLooseHeaderOfLength};
ghost use Rattle.gixobj_hash.specs.declared.kind.Kind.TheVariants as object;

use crate::failure::{Failure, encode_failure};
use crate::lossy::{decodes_to, is_lossy};
use gixobj_editor::{EditReply, Reply};
use gixobj_encode::WriteTo;
use gixobj_encode::encode::Error;
use gixobj_hash::decode::loose_header;
use gixobj_hash::hash::{self, ObjectId};
use gixobj_hash::{Kind, encode};
use gixobj_store_keep::Memory;
use gixobj_tree::Tree;
use std::alloc::Global;

/// Returns the size and the length of the loose header of a tree at the beginning of the input, or `None`.
fn tree_header(alloc: Global, input: &[u8]) -> Option<(u64, usize)>
    ensures found { IfSome result (λ it. HasLooseHeaderOfLength input.now object.Tree it.0 it.1) }
    ensures accepts { (size used : ℕ) → HasLooseHeaderOfLength input.now object.Tree size used
        → result ≡ Some (size, used) }
{
    let (kind, size, used) = match loose_header(alloc, input) {
        Ok(header) => header,
        Err(_) => return None,
    };
    if !kind.is_tree() {
        return None;
    }
    Some((size, used))
}

/// Returns the content of the frame at the beginning of the input, and the rest, or `None` if there is no frame.
fn split_frame(alloc: Global, input: &[u8]) -> Option<(&[u8], &[u8])>
    ensures found { IfSome result (λ it. BeginsWithFrame input.now it.0.now it.1.now) }
    ensures none { IfNone result (HasNoPiece NextFrame tt input.now) }
{
    let Some((size, used)) = tree_header(alloc, input) else {
        return None;
    };
    let rest = &input[used..];
    if size > rest.len() as u64 {
        return None;
    }
    Some(rest.split_at(size as usize))
}

/// The trees in frames: stores of those that aren't lossy, and of those that are. The encoding of a lossy tree doesn't
/// decode to it.
#[derive(Drop)]
pub struct Given {
    pub trees: Memory,
    pub lossy: Memory,
}

/// Returns stores of the trees in the frames. Allocates the stores.
///
/// # Errors
///
/// - [`Failure::Malformed`] if the bytes aren't frames.
/// - [`Failure::OutOfMemory`] if an allocation fails.
pub fn given_of(alloc: Global, hash: hash::Kind, bytes: &[u8]) -> Result<Given, Failure>
    ensures found { IfOk result (λ it. HoldsFrames hash bytes.now it) }
    ensures error { IfErr result (IsFramesError bytes.now) }
{
    let trees = Memory::new(alloc);
    let lossy = Memory::new(alloc);
    let mut given = Given { trees, lossy };
    let mut rest = bytes;
    'frames: while !rest.is_empty() {
        let Some((content, after)) = split_frame(alloc, rest) else {
            return Err(Failure::Malformed);
        };
        match insert_tree(alloc, hash, content, &mut given) {
            Ok(()) => {}
            Err(_) => return Err(Failure::OutOfMemory),
        }
        rest = after;
    }
    Ok(given)
}

/// Inserts a tree into the store of the lossy ones, or of the others.
fn insert_tree(
    alloc: Global,
    hash: hash::Kind,
    content: &[u8],
    given: &mut Given,
) -> Result<(), Failure>
    ensures inserted { OnOk result (IsInserted hash content.now given.old given.new) }
    ensures error { IfErr result (λ it. it ≡ failure.OutOfMemory) }
{
    let lossy = match is_lossy(alloc, hash, content) {
        Ok(lossy) => lossy,
        Err(failure) => return Err(failure),
    };
    let inserted = if lossy {
        given.lossy.insert(Kind::Tree, hash, content)
    } else {
        given.trees.insert(Kind::Tree, hash, content)
    };
    match inserted {
        Ok(_) => Ok(()),
        Err(_) => Err(Failure::OutOfMemory),
    }
}

/// Returns the frames of the trees that the writes emitted, in order, by the replies. Allocates the frames.
///
/// # Errors
///
/// - [`Failure::NotEncodable`] if a tree has a name with a zero byte.
/// - [`Failure::OutOfMemory`] if an allocation fails.
pub fn frames_of(
    alloc: Global,
    hash: hash::Kind,
    replies: &[Reply<Error>],
) -> Result<Vec<u8>, Failure>
    ensures found { IfOk result (λ it. it.items
        ≡ flat_map encode_frame (emitted_pairs replies.now)) }
    ensures lossless { IfOk result (λ _. All (λ pair. IsLossless hash pair.1)
        (emitted_pairs replies.now)) }
    ensures error { IfErr result (IsFramesEncodeError hash (emitted_pairs replies.now)) }
{
    let mut frames = Vec::new(alloc);
    for reply in replies {
        append_reply(alloc, hash, reply, &mut frames)?;
    }
    Ok(frames)
}

/// Appends the frames of the trees that a command's writes emitted.
fn append_reply(
    alloc: Global,
    hash: hash::Kind,
    reply: &Reply<Error>,
    frames: &mut Vec<u8>,
) -> Result<(), Failure>
    ensures appended { OnOk result (frames.new.items
        ≡ frames.old.items ++ flat_map encode_frame (pairs_of reply.now)) }
    ensures lossless { OnOk result (All (λ pair. IsLossless hash pair.1) (pairs_of reply.now)) }
    ensures error { IfErr result (IsFramesEncodeError hash (pairs_of reply.now)) }
{
    match reply {
        Reply::Edit(reply) => append_written(alloc, hash, reply, frames),
        Reply::At(replies) => append_each(alloc, hash, replies, frames),
        Reply::AtRefused(_) | Reply::RootSet | Reply::RootRefused => Ok(()),
    }
}

/// Appends the frames of the trees that the writes in a directory emitted.
fn append_each(
    alloc: Global,
    hash: hash::Kind,
    replies: &[EditReply<Error>],
    frames: &mut Vec<u8>,
) -> Result<(), Failure>
    ensures appended { OnOk result (frames.new.items
        ≡ frames.old.items ++ flat_map encode_frame (flat_map pairs_of_edit replies.now)) }
    ensures lossless { OnOk result (All (λ pair. IsLossless hash pair.1) (flat_map pairs_of_edit replies.now)) }
    ensures error { IfErr result (IsFramesEncodeError hash (flat_map pairs_of_edit replies.now)) }
{
    for reply in replies {
        append_written(alloc, hash, reply, frames)?;
    }
    Ok(())
}

/// Appends the frames of the trees that a write emitted.
fn append_written(
    alloc: Global,
    hash: hash::Kind,
    reply: &EditReply<Error>,
    frames: &mut Vec<u8>,
) -> Result<(), Failure>
    ensures appended { OnOk result (frames.new.items
        ≡ frames.old.items ++ flat_map encode_frame (pairs_of_edit reply.now)) }
    ensures lossless { OnOk result (All (λ pair. IsLossless hash pair.1) (pairs_of_edit reply.now)) }
    ensures error { IfErr result (IsFramesEncodeError hash (pairs_of_edit reply.now)) }
{
    match reply {
        EditReply::Written(written) | EditReply::NotKept(written, _, _) => {
            append_trees(alloc, hash, &written.trees, frames)
        }
        EditReply::Done | EditReply::Refused(_) | EditReply::WriteRefused(_) => Ok(()),
    }
}

/// Appends the frames of trees, in order.
fn append_trees(
    alloc: Global,
    hash: hash::Kind,
    trees: &[(ObjectId, Tree)],
    frames: &mut Vec<u8>,
) -> Result<(), Failure>
    ensures appended { OnOk result (frames.new.items ≡ frames.old.items
        ++ flat_map encode_frame trees.now) }
    ensures lossless { OnOk result (All (λ pair. IsLossless hash pair.1) trees.now) }
    ensures error { IfErr result (IsFramesEncodeError hash trees.now) }
{
    for (id, tree) in trees {
        append_frame(alloc, hash, *id, tree, frames)?;
    }
    Ok(())
}

/// Appends the frame of a tree with this id.
fn append_frame(
    alloc: Global,
    hash: hash::Kind,
    id: ObjectId,
    tree: &Tree,
    frames: &mut Vec<u8>,
) -> Result<(), Failure>
    ensures appended { OnOk result (frames.new.items ≡ frames.old.items
        ++ encode_tree_frame tree.now) }
    ensures lossless { OnOk result (IsLossless hash tree.now) }
    ensures error { IfErr result (IsFrameError hash (id, tree.now)) }
{
    let mut bytes = Vec::new(alloc);
    match tree.write_to_vec(alloc, &mut bytes) {
        Ok(()) => {}
        Err(error) => return Err(encode_failure(&error)),
    }
    if !decodes_to(alloc, hash, &bytes, tree)? {
        return Err(Failure::LossyTree(id));
    }
    let header = encode::loose_header(alloc, Kind::Tree, bytes.len() as u64);
    if frames.extend_from_slice(&header).is_err() {
        return Err(Failure::OutOfMemory);
    }
    if frames.extend_from_slice(&bytes).is_err() {
        return Err(Failure::OutOfMemory);
    }
    Ok(())
}
