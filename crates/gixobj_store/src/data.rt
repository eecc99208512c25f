//! Objects that are not decoded yet.
ghost use Rattle.std.specs.Prelude.{◌≡◌, ◌↔◌, IfSome, IsSome};
ghost use Rattle.gixobj_hash.specs.declared.kind.Kind.TheVariants as object;
ghost use Rattle.gixobj_store.specs.EntrySteps.{IsAtEntry};

pub mod verify;

use crate::tree::TreeRefIter;
use gixobj_hash::{Kind, hash};

/// An object that is not decoded yet: its kind, the kind of its ids and its content.
///
/// [`Find::try_find`](crate::Find::try_find) returns one, and [`Data::new`] makes one.
#[derive(Clone, Copy, Debug, PartialEq, Eq, PartialOrd, Ord, Hash)]
pub struct Data<'a> {
    /// The kind of the object.
    pub kind: Kind,
    /// The hash kind of the ids in the object.
    pub object_hash: hash::Kind,
    /// The content, without a loose header.
    pub bytes: &'a [u8],
}

/// Initialization
impl<'a> Data<'a> {
    /// Makes the undecoded object of this kind and content. Allocates nothing.
    pub fn new(bytes: &'a [u8], kind: Kind, object_hash: hash::Kind) -> Data<'a>
        ensures content { result.bytes ≡ bytes.entry }
        ensures kind { result.kind ≡ kind }
        ensures object_hash { result.object_hash ≡ object_hash }
    {
        Data {
            kind,
            object_hash,
            bytes,
        }
    }
}

/// Conversion
impl<'a> Data<'a> {
    /// Returns an iterator over the entries of the tree, or `None` for another kind. Allocates nothing.
    pub fn try_into_tree_iter(self) -> Option<TreeRefIter<'a>>
        ensures accepts { IsSome result ↔ (self.entry.kind ≡ object.Tree) }
        ensures reader { IfSome result (IsAtEntry self.entry.object_hash self.entry.bytes.now) }
    {
        match self.kind {
            Kind::Tree => Some(TreeRefIter::from_bytes(self.bytes, self.object_hash)),
            _ => None,
        }
    }
}
