//! Encoding of borrowed trees (gitdatamodel, "trees").
ghost use Rattle.gixobj_tree.specs.TreeViews.{tree_entries};

use super::TreeRef;
use crate::tree::write::{size_with_entry_ref, write_entry_ref};
use gixobj_encode::WriteTo;
use gixobj_encode::encode::Error;
use gixobj_hash::Kind;
use gixobj_streams::streams::Sink;
use std::alloc::Global;

/// The encoding of a tree is its entries in their present order.
///
/// A name with a zero byte is rejected with [`Error::NullbyteInFilename`], after its entry's mode and
/// space.
impl WriteTo for TreeRef<'_> {
    ghost use Rattle.gixobj_hash.specs.declared.kind.Kind.TheVariants as kind;
    ghost use Rattle.gixobj_tree.specs.TreeEncoding.{IsTreeEncodeError, encode_tree};

    ghost object_kind = { λ _. kind.Tree };

    ghost encoding = { λ tree. encode_tree (tree_entries tree) };

    ghost rejects = { λ tree. IsTreeEncodeError (tree_entries tree) };

    fn write_into<S: Sink>(&self, alloc: Global, sink: &mut S) -> Result<(), Error> {
        for entry in &self.entries {
            write_entry_ref(alloc, entry, sink)?;
        }
        Ok(())
    }

    fn kind(&self) -> Kind {
        Kind::Tree
    }

    fn size(&self) -> Option<u64> {
        let mut size = 0u64;
        for entry in &self.entries {
            size = size_with_entry_ref(size, entry)?;
        }
        Some(size)
    }
}
