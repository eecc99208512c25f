//! Filtering of a tree in place: it keeps some of its entries, with other ids.
ghost use Rattle.std.specs.Prelude.{◌≡◌, ◌≢◌, All, IsFalse};
ghost use Rattle.gixobj_tree.specs.WellFormed.{EachLater, IsWellFormed};
ghost use Rattle.gixobj_editor_files.specs.Editing.{non_null_entries};
ghost use Rattle.gixobj_editor_files.specs.Files.{is_null};
ghost use Rattle.gixobj_editor_files.specs.WrittenTrees.{with_id};
ghost use Rattle.gixobj_editor_files.specs.FilteredTrees.{IsFilteredTree, first_id_if_named, after_first_if_named};

use crate::entries::{is_named, is_non_null};
use gixobj_hash::hash::{Kind, ObjectId};
use gixobj_tree::Tree;
use gixobj_tree::tree::Entry;

/// Makes a tree equal to `written_tree`, which has some of the tree's entries in their order, with ids of its own.
///
/// The tree must be well-formed, and no id in `written_tree` may be null. Allocates nothing.
pub fn become_tree(tree: &mut Tree, written_tree: &Tree)
    requires well_formed { IsWellFormed tree.old }
    requires filtered { IsFilteredTree written_tree.now tree.old }
    requires non_null { All (λ e. IsFalse (is_null e.id)) written_tree.now }
    ensures { tree.new ≡ written_tree.now }
{
    filter_entries(&mut tree.entries, &written_tree.entries);
}

/// Filters entries in place, so that they equal `written_tree`.
fn filter_entries(entries: &mut Vec<Entry>, written_tree: &[Entry])
    requires apart { EachLater (λ x y. x.name ≢ y.name) entries.old.items }
    requires filtered { IsFilteredTree written_tree.now entries.old.items }
    requires non_null { All (λ e. IsFalse (is_null e.id)) written_tree.now }
    ensures { entries.new.items ≡ written_tree.now }
{
    assign_ids(entries, written_tree);
    entries.retain(|entry| is_non_null(entry));
}

/// Sets the id of each entry to its id in `written_tree`, or to the null id if `written_tree` hasn't the entry.
fn assign_ids(entries: &mut [Entry], written_tree: &[Entry])
    requires apart { EachLater (λ x y. x.name ≢ y.name) entries.old }
    requires filtered { IsFilteredTree written_tree.now entries.old }
    requires non_null { All (λ e. IsFalse (is_null e.id)) written_tree.now }
    ensures { non_null_entries entries.new ≡ written_tree.now }
{
    let mut pending = written_tree;
    for entry in entries.iter_mut() {
        pending = assign_id(entry, pending);
    }
}

/// Sets an entry's id to that of the first of `pending` if the names are equal, or else to the null id.
/// Returns what remains of `pending`.
fn assign_id<'a>(entry: &mut Entry, pending: &'a [Entry]) -> &'a [Entry]
    ensures id { entry.new ≡ with_id entry.old (first_id_if_named entry.old.name pending.now) }
    ensures remaining { result.now ≡ after_first_if_named entry.old.name pending.now }
{
    match pending.split_first() {
        Some((first, after)) if is_named(first, entry.filename.as_bytes()) => {
            entry.oid = first.oid;
            after
        }
        _ => {
            entry.oid = ObjectId::null(Kind::Sha1);
            pending
        }
    }
}
