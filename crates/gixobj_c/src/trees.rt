//! The entries of trees.
ghost use Rattle.std.specs.Prelude.{◌≡◌, ◌<◌, Some, drop, length};
ghost use Rattle.gixobj_c_codes.specs.Codes.{hash_of_code as hash_of};
ghost use Rattle.gixobj_c.specs.Trees.{IsEntryAt, IsTreeEntryCall};
ghost use Rattle.gixobj_tree_entries.specs.TreeDecoding.{BeginsWithEntry};
ghost use Rattle.gixobj_tree_entries.specs.EntryViews.{entry_view};

use crate::spans::{Span, bytes_from, offset_of, span_before};
use gixobj_c_codes::codes::{AT_END, BAD_OFFSET, DONE, MALFORMED, UNKNOWN_CODE, hash_of_code};
use gixobj_hash::hash::Kind;
use gixobj_tree_entries::EntryRef;
use gixobj_tree_entries::decode::decode_entry;

/// An entry of a tree.
#[repr(C)]
#[derive(Clone, Copy)]
pub struct TreeEntry {
    /// The mode.
    pub mode: u32,
    /// The position of the name.
    pub name: Span,
    /// The position of the bytes of the id.
    pub id: Span,
    /// The offset of the next entry, or the end.
    pub next: usize,
}

/// Decodes the entry at this offset of the tree. Allocates nothing.
#[unsafe(no_mangle)]
pub extern "C" fn gixobj_tree_entry(
    hash: u8,
    tree: &[u8],
    offset: usize,
    out: &mut TreeEntry,
) -> u32
    ensures { IsTreeEntryCall (hash_of hash) tree.now offset out.old out.new result }
{
    let Some(hash) = hash_of_code(hash) else {
        return UNKNOWN_CODE;
    };
    entry_or_end(hash, tree, offset, out)
}

/// Decodes the entry at this offset, if bytes follow it.
pub fn entry_or_end(hash: Kind, tree: &[u8], offset: usize, out: &mut TreeEntry) -> u32
    ensures { IsTreeEntryCall (Some hash) tree.now offset out.old out.new result }
{
    if offset < tree.len() {
        return entry_at(hash, tree, offset, out);
    }
    if offset == tree.len() {
        return AT_END;
    }
    BAD_OFFSET
}

/// Decodes the entry at an offset before the end.
fn entry_at(hash: Kind, tree: &[u8], offset: usize, out: &mut TreeEntry) -> u32
    requires { offset < length tree.now }
    ensures { IsTreeEntryCall (Some hash) tree.now offset out.old out.new result }
{
    let input = bytes_from(tree, offset);
    let Some((entry, rest)) = decode_entry(input, hash) else {
        return MALFORMED;
    };
    *out = positions(hash, tree, offset, input, entry, rest);
    DONE
}

/// Returns the positions of this entry's parts.
fn positions(
    hash: Kind,
    tree: &[u8],
    offset: usize,
    input: &[u8],
    entry: EntryRef<'_>,
    rest: &[u8],
) -> TreeEntry
    requires from { input.now ≡ drop offset tree.now }
    requires begins { BeginsWithEntry hash input.now (entry_view entry) rest.now }
    ensures { IsEntryAt hash tree.now offset result }
{
    let id = entry.oid.as_bytes();
    let name = entry.filename.as_bytes();
    let mode = entry.mode.value();
    let after = rest.len();
    let name_span = span_before(tree, name, after + id.len() + 1);
    let id_span = span_before(tree, id, after);
    let next = offset_of(tree, rest);
    TreeEntry {
        mode: mode as u32,
        name: name_span,
        id: id_span,
        next,
    }
}
