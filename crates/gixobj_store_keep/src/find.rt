//! The lookup of a tree that has to exist.
ghost use Rattle.std.specs.Prelude.{◌≡◌, ◌≢◌, IfErr, IfOk, MatchBool};
ghost use Rattle.gixobj_hash.specs.Hash.Borrowed.{borrowed_id};
ghost use Rattle.gixobj_hash.specs.declared.decode.Error.TheVariants.{Malformed};
ghost use Rattle.gixobj_hash.specs.declared.kind.Kind.TheVariants as object;
ghost use Rattle.gixobj_store_keep.specs.ExistingTrees.{IsStoredContentError, IsEncodingOf, IsExistingTreeError};
ghost use Rattle.gixobj_store_keep.specs.ExistingTrees.{NamesSuch};
ghost use Rattle.gixobj_tree_entries.specs.TreeDecoding.{DecodesToTree};
ghost use Rattle.gixobj_tree.specs.TreeViews.{tree_entries};

pub mod existing_object;

use gixobj_grammar::commits::is_commit;
use gixobj_grammar::tags::is_tag;
use gixobj_hash::hash::oid;
use gixobj_hash::{Kind, decode};
use gixobj_store::{Data, Find};
use gixobj_tree::TreeRef;
use std::alloc::Global;

/// Looks up and decodes the tree that `id` names. Allocates its entries.
///
/// Unlike `FindExt::find_tree`, it looks up the empty tree too. The object's bytes are written to `buffer`,
/// which the result borrows. After an error `buffer` may hold any bytes.
///
/// # Errors
///
/// - [`existing_object::Error::Find`] with the error of the lookup if it fails.
/// - [`existing_object::Error::NotFound`] if `id` names no object.
/// - [`existing_object::Error::Decode`] if the object does not decode as its own kind, or if an allocation
///   fails there. Only a tree is allocated.
/// - [`existing_object::Error::ObjectKind`] with both kinds if the object is not a tree.
pub fn existing_tree<'a, S: Find>(
    alloc: Global,
    store: &S,
    id: oid<'_>,
    buffer: &'a mut Vec<u8>,
) -> Result<TreeRef<'a>, existing_object::Error>
    ensures found { IfOk result (λ tree. NamesSuch (S.objects store.now) (borrowed_id id.entry)
        object.Tree (λ hash content. DecodesToTree hash content (tree_entries tree))) }
    ensures error { IfErr result (IsExistingTreeError (S.objects store.now) (S.may_fail store.now)
        (borrowed_id id.entry)) }
{
    let oid = id.to_owned();
    let Some(it) = store.try_find(id, buffer)? else {
        return Err(existing_object::Error::NotFound { oid });
    };
    match it.kind {
        Kind::Tree => match TreeRef::from_bytes(alloc, it.bytes, it.object_hash) {
            Ok(tree) => Ok(tree),
            Err(source) => Err(existing_object::Error::Decode { oid, source }),
        },
        actual if is_well_encoded(&it) => Err(existing_object::Error::ObjectKind {
            oid,
            actual,
            expected: Kind::Tree,
        }),
        _ => Err(existing_object::Error::Decode {
            oid,
            source: decode::Error::Malformed,
        }),
    }
}

/// Whether the content is the encoding of an object of its kind, which is not a tree. Allocates nothing.
#[tactic(auto, using(crate::proofs::Contents::decides_blob, crate::proofs::Contents::decides_commit, crate::proofs::Contents::decides_tag))]
fn is_well_encoded(it: &Data<'_>) -> bool
    requires { it.now.kind ≢ object.Tree }
    ensures { MatchBool result (IsEncodingOf it.now.object_hash it.now.kind it.now.bytes.now)
        (IsStoredContentError it.now.object_hash it.now.kind it.now.bytes.now Malformed) }
{
    match it.kind {
        Kind::Tree => false,
        Kind::Blob => true,
        Kind::Commit => is_commit(it.bytes, it.object_hash),
        Kind::Tag => is_tag(it.bytes, it.object_hash),
    }
}
