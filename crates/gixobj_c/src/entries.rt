//! Several entries of a tree at once.
ghost use Rattle.std.specs.Prelude.{◌≡◌, Some};
ghost use Rattle.gixobj_c_codes.specs.Codes.{hash_of_code as hash_of};
ghost use Rattle.gixobj_c.specs.Entries.{IsTreeEntriesCall};

use crate::spans::empty_span;
use crate::trees::{TreeEntry, entry_or_end};
use gixobj_c_codes::codes::{DONE, UNKNOWN_CODE, hash_of_code};
use gixobj_hash::hash::Kind;

/// Decodes entries from this offset of the tree on, as many as `out` holds, and writes their number to `count`.
/// Allocates nothing.
#[unsafe(no_mangle)]
pub extern "C" fn gixobj_tree_entries(
    hash: u8,
    tree: &[u8],
    offset: usize,
    out: &mut [TreeEntry],
    count: &mut usize,
) -> u32
    ensures { IsTreeEntriesCall (hash_of hash) tree.now offset out.old out.new count.old count.new
        result }
{
    let Some(hash) = hash_of_code(hash) else {
        return UNKNOWN_CODE;
    };
    fill_entries(hash, tree, offset, out, count)
}

/// Decodes entries until `out` is full or no entry follows.
fn fill_entries(
    hash: Kind,
    tree: &[u8],
    offset: usize,
    out: &mut [TreeEntry],
    count: &mut usize,
) -> u32
    ensures { IsTreeEntriesCall (Some hash) tree.now offset out.old out.new count.old count.new
        result }
{
    let mut next = offset;
    let mut filled = 0;
    while filled < out.len() {
        let mut entry = empty_entry();
        let status = entry_or_end(hash, tree, next, &mut entry);
        if status != DONE {
            *count = filled;
            return status;
        }
        out[filled] = entry;
        next = entry.next;
        filled += 1;
    }
    *count = filled;
    DONE
}

/// An entry without any part.
fn empty_entry() -> TreeEntry {
    TreeEntry {
        mode: 0,
        name: empty_span(0),
        id: empty_span(0),
        next: 0,
    }
}
