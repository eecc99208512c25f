//! Commits that tags name (gitrevisions, `<rev>^{}`; gitglossary, "peel").
ghost use Rattle.std.specs.Prelude.{IfErr, IfNone, IfOk, IfSome};
ghost use Rattle.gixobj_hash.specs.Hash.Borrowed.{borrowed_id};
ghost use Rattle.gixobj_grammar.specs.TagPrefix.{IsTag};
ghost use Rattle.gixobj_walks_commits.specs.Tags.{IsPeelError, IsPeelOnceError, IsPeeled, IsPeeledOnce, IsTagOf};

use crate::error::NodeError;
use gixobj_grammar::tags::is_tag;
use gixobj_hash::hash::{ObjectId, oid};
use gixobj_hash::parse::id_of_hex;
use gixobj_hash::{Kind, decode, hash};
use gixobj_parse::parse::header_id;
use gixobj_store::Find;

/// Returns the id of the commit that `id` names, itself or through tags, or `None` for a tree or a blob.
///
/// A tag leads to the object that its first line names, whatever kind it states. At most `max_tags` tags are
/// followed, one after the other. No tag leads to itself, since the id of each has that of its object.
///
/// The objects' bytes are written to `buffer`, which may hold any bytes afterwards. Allocates only what the
/// store allocates.
///
/// # Errors
///
/// Each error has the id of an object to which tags lead, or `id`.
///
/// - [`NodeError::Find`] with the error of the lookup if it fails.
/// - [`NodeError::NotFound`] if the id names no object.
/// - [`NodeError::Decode`] if the object is a malformed tag.
/// - [`NodeError::TooManyTags`] if the object is a tag, to which `max_tags` tags lead.
pub fn peel_to_commit<S: Find>(
    store: &S,
    id: oid<'_>,
    max_tags: u32,
    buffer: &mut Vec<u8>,
) -> Result<Option<ObjectId>, NodeError>
    ensures found { IfOk result (IsPeeled (S.objects store.now) max_tags (borrowed_id id.entry)) }
    ensures error { IfErr result (IsPeelError (S.objects store.now) (S.may_fail store.now) max_tags
        (borrowed_id id.entry)) }
{
    let mut oid = id.to_owned();
    let mut remaining = max_tags;
    'tags: loop {
        match peel_once(store, oid, buffer) {
            Ok(Peeled::Commit) => return Ok(Some(oid)),
            Ok(Peeled::Other) => return Ok(None),
            Ok(Peeled::Tag(_)) if remaining == 0 => return Err(NodeError::TooManyTags { oid }),
            Ok(Peeled::Tag(target)) => oid = target,
            Err(error) => return Err(error),
        }
        remaining -= 1;
    }
}

/// What an id names, without following a tag.
#[derive(Clone, Copy)]
pub enum Peeled {
    /// A commit.
    Commit,
    /// A tree or a blob.
    Other,
    /// A tag of the object with this id.
    Tag(ObjectId),
}

/// Looks up what `id` names, and decodes the target of a tag.
fn peel_once<S: Find>(store: &S, id: ObjectId, buffer: &mut Vec<u8>) -> Result<Peeled, NodeError>
    ensures found { IfOk result (IsPeeledOnce (S.objects store.now) id) }
    ensures error { IfErr result (IsPeelOnceError (S.objects store.now) (S.may_fail store.now) id) }
{
    let it = match store.try_find(id.as_oid(), buffer) {
        Ok(Some(it)) => it,
        Ok(None) => return Err(NodeError::NotFound { oid: id }),
        Err(source) => return Err(NodeError::Find { oid: id, source }),
    };
    match it.kind {
        Kind::Commit => Ok(Peeled::Commit),
        Kind::Tree => Ok(Peeled::Other),
        Kind::Blob => Ok(Peeled::Other),
        Kind::Tag => match tag_target(it.bytes, it.object_hash) {
            Some(target) => Ok(Peeled::Tag(target)),
            None => Err(NodeError::Decode {
                oid: id,
                source: decode::Error::Malformed,
            }),
        },
    }
}

/// Decodes the id of the object that a tag names, or returns `None` for a malformed tag.
fn tag_target(bytes: &[u8], hash_kind: hash::Kind) -> Option<ObjectId>
    ensures found { IfSome result (IsTagOf hash_kind bytes.now) }
    ensures none { IfNone result (¬ IsTag hash_kind bytes.now) }
{
    if !is_tag(bytes, hash_kind) {
        return None;
    }
    let Some((hex, _)) = header_id(bytes, b"object", hash_kind) else {
        unreachable!()
    };
    Some(id_of_hex(hex))
}
