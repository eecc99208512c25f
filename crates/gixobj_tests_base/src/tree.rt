//! Trees of rows of entries.

mod write;

use crate::helpers::string_of;
use gixobj_base::hash::{Kind, ObjectId};
use gixobj_base::tree::{Entry, EntryKind, Tree};
use std::alloc::Global;

/// Returns a tree of entries of these kinds and names, in this order. Each has the id of the empty blob if its row
/// says so, and otherwise the null id. Shorter if memory runs out.
pub(crate) fn tree_of(alloc: Global, rows: &[(EntryKind, &[u8], bool)]) -> Tree {
    let mut tree = Tree::empty(alloc);
    for &(kind, name, is_of_blob) in rows {
        let (mode, filename) = (kind.into(), string_of(alloc, name));
        let oid = if is_of_blob {
            ObjectId::empty_blob(Kind::Sha1)
        } else {
            ObjectId::null(Kind::Sha1)
        };
        let _ = tree.entries.push(Entry {
            mode,
            filename,
            oid,
        });
    }
    tree
}
