//! The walk of a write along the entries of a directory, and into the directories that are open in it.
//!
//! It is a loop over a list of frames, one for each directory that is begun, so the path may be of any depth.
ghost use Rattle.std.specs.Prelude.{◌≡◌, ◌≢◌, ◌+◌, ◌++◌, ◌∷◌, ◌<◌, ◌≤◌, [], ℕ, IfErr, IfOk, List, OnErr, OnOk};
ghost use Rattle.std.specs.List.{FoldsTo};
ghost use Rattle.std.specs.Option.{option_copied};
ghost use Rattle.gixobj_tree_entries.specs.Entries.{EntryView, Pair};
ghost use Rattle.gixobj_editor_files.specs.Edits.{raised};
ghost use Rattle.gixobj_editor_files.specs.Emission.{EmitsBelow};
ghost use Rattle.gixobj_editor_files.specs.WrittenTrees.{SharesBase, so_far};
ghost use Rattle.gixobj_editor_write.specs.Calls.{IsCallableOnTrees, IsStorable, answered, denied};
ghost use Rattle.gixobj_editor_write.specs.Frames.{EmitsAfter, EmitsNext, EmitsWritten, HasEmitted, HasResumed};
ghost use Rattle.gixobj_editor_write.specs.Frames.{HasStepped, IsInStep, IsVisited, Waits, begun_weight, frame_weight};
ghost use Rattle.gixobj_editor_write.specs.Frames.{visited_leaf_trees, remaining_entries};
ghost use Rattle.gixobj_editor_write.specs.TakenTrees.{Adds};
ghost use Rattle.gixobj_editor_open.specs.LeafTrees.{inside_of, leaf_trees};
ghost use Rattle.gixobj_editor_open.specs.Nested.{base_side, bases_of, dirs_of, entries_side};
ghost use Rattle.gixobj_editor_write.specs.WriteErrors.{EmitsEntry, IsWriteError, child_side, entry_if_some};

use crate::frames::{Frame, begin};
use crate::write::{WriteError, emit_leaf_tree, emit_tree};
use gixobj_editor_files::written_tree::WrittenTree;
use gixobj_editor_open::open::{Child, Open};
use gixobj_hash::hash::ObjectId;
use gixobj_tree::Tree;
use gixobj_tree::tree::Entry;
use std::alloc::{AllocError, Global};
use std::mem;

/// What a step along the entries of a directory did.
#[derive(Drop)]
pub(crate) enum Step<'a> {
    /// An entry was consumed.
    Visited,
    /// The directory of the next entry has to be written first.
    Begins(&'a Open),
    /// No entry remains.
    Ends,
}

/// What has to be done for an entry.
#[derive(Drop)]
pub(crate) enum Visit<'a> {
    /// The entry gets this id.
    Id(ObjectId),
    /// The directory of the entry has to be written first.
    Begins(&'a Open),
}

/// Emits what is open in a directory, and returns its written tree. Leaf trees aren't moved: the pairs have
/// empty trees for them.
pub(crate) fn emit_below<E, F: FnMut(&Tree) -> Result<ObjectId, E>>(
    alloc: Global,
    node: &Open,
    out: &mut F,
    pairs: &mut Vec<(ObjectId, Tree)>,
    saved: &mut usize,
) -> Result<Tree, WriteError<E>>
    requires callable { IsCallableOnTrees F.pre (answered F.FnMut) out.old }
    ensures emitted { IfOk result (λ tree. (below : List Pair) × (count : ℕ)
        × EmitsBelow (dirs_of node.now) (bases_of node.now) below tree count
        × (saved.new ≡ raised saved.old count)
        × Adds pairs.old.items pairs.new.items (leaf_trees (inside_of node.now)) below
        × FoldsTo (answered F.FnMut) out.old below out.new) }
    ensures storable { IfOk result (λ tree. IsStorable tree) }
    ensures error { IfErr result (IsWriteError (answered F.FnMut) (denied F.FnMut)
        (λ ps. (written_tree : List EntryView) × (count : ℕ)
        × EmitsBelow (dirs_of node.now) (bases_of node.now) ps written_tree count) out.old out.new) }
{
    let mut above = Vec::new(alloc);
    let mut frame = begin(alloc, node)?;
    'frames: loop {
        match advance(alloc, &mut frame, out, pairs)? {
            Step::Visited => {}
            Step::Begins(inner) => {
                let begun = begin(alloc, inner)?;
                wait(&mut above, &mut frame, begun)?;
            }
            Step::Ends => {
                let Some(mut parent) = above.pop() else {
                    let Frame {
                        base,
                        written_tree,
                        ..
                    } = frame;
                    let tree = written_tree.into_tree(alloc, base)?;
                    return Ok(tree);
                };
                resume(alloc, &mut parent, frame, out, pairs, saved)?;
                frame = parent;
            }
        }
    }
}

/// Replaces a directory by one that is begun before it ends. The former waits at the end of the list then.
fn wait<'a>(
    above: &mut Vec<Frame<'a>>,
    frame: &mut Frame<'a>,
    begun: Frame<'a>,
) -> Result<(), AllocError>
    ensures waits { OnOk result (above.new.items ≡ above.old.items ++ frame.old ∷ []) }
    ensures begun { OnOk result (frame.new ≡ begun.entry) }
{
    above.reserve(1)?;
    let waiting = mem::replace(frame, begun);
    let _ = above.push(waiting);
    Ok(())
}

/// Goes to the next entry of a directory, unless the entry's directory has to be written first.
fn advance<'a, E, F: FnMut(&Tree) -> Result<ObjectId, E>>(
    alloc: Global,
    frame: &mut Frame<'a>,
    out: &mut F,
    pairs: &mut Vec<(ObjectId, Tree)>,
) -> Result<Step<'a>, WriteError<E>>
    requires callable { IsCallableOnTrees F.pre (answered F.FnMut) out.old }
    requires in_step { IsInStep frame.old (remaining_entries frame.old) }
    ensures emitted { IfOk result (λ step. (qs : List Pair) × (us : List (List EntryView))
        × Adds pairs.old.items pairs.new.items us qs
        × FoldsTo (answered F.FnMut) out.old qs out.new
        × HasStepped step frame.old frame.new qs us) }
    ensures node { frame.new.node.now ≡ frame.old.node.now }
    ensures lighter { IfOk result (λ step. frame_weight frame.new + begun_weight step
        ≤ frame_weight frame.old) }
    ensures error { IfErr result (IsWriteError (answered F.FnMut) (denied F.FnMut)
        (EmitsNext frame.old) out.old out.new) }
{
    let entries = frame.tree.entries();
    if frame.next >= entries.len() {
        return Ok(Step::Ends);
    }
    let entry = &entries[frame.next];
    let (child, remaining) = frame.remaining.next_of(entry);
    frame.remaining = remaining;
    let id = match visit_entry(alloc, entry, child, out, pairs)? {
        Visit::Begins(inner) => return Ok(Step::Begins(inner)),
        Visit::Id(id) => Some(id),
    };
    append_unless_null(
        alloc,
        &mut frame.written_tree,
        frame.base,
        entry,
        id,
        entries.len(),
    )?;
    frame.next += 1;
    Ok(Step::Visited)
}

/// Returns the id that an entry gets, unless its directory has to be written first. A leaf tree is emitted.
fn visit_entry<'a, E, F: FnMut(&Tree) -> Result<ObjectId, E>>(
    alloc: Global,
    entry: &Entry,
    child: Option<&'a Child>,
    out: &mut F,
    pairs: &mut Vec<(ObjectId, Tree)>,
) -> Result<Visit<'a>, WriteError<E>>
    requires callable { IsCallableOnTrees F.pre (answered F.FnMut) out.old }
    ensures emitted { IfOk result (λ it. (inner : List Pair)
        × IsVisited it (option_copied child.entry) entry.now inner
        × Adds pairs.old.items pairs.new.items (visited_leaf_trees it (option_copied child.entry)) inner
        × FoldsTo (answered F.FnMut) out.old inner out.new) }
    ensures error { IfErr result (IsWriteError (answered F.FnMut) (denied F.FnMut)
        (λ inner. (kept : List EntryView) × (count : ℕ)
        × EmitsEntry (child_side entries_side (option_copied child.entry))
        (child_side base_side (option_copied child.entry)) entry.now inner kept count) out.old
        out.new) }
{
    let Some(child) = child else {
        return Ok(Visit::Id(entry.oid));
    };
    let mut slot = Tree::empty(alloc);
    let leaf = child.open.leaf_tree(alloc, &mut slot)?;
    if let Some(tree) = leaf {
        let emitted_id = emit_leaf_tree(alloc, tree, out, pairs)?;
        return Ok(Visit::Id(emitted_id));
    }
    Ok(Visit::Begins(&child.open))
}

/// Emits the written tree of a directory that has ended, and goes to the next entry of the directory above.
fn resume<E, F: FnMut(&Tree) -> Result<ObjectId, E>>(
    alloc: Global,
    parent: &mut Frame<'_>,
    done: Frame<'_>,
    out: &mut F,
    pairs: &mut Vec<(ObjectId, Tree)>,
    saved: &mut usize,
) -> Result<(), WriteError<E>>
    requires callable { IsCallableOnTrees F.pre (answered F.FnMut) out.old }
    requires waits { (ps : List Pair) × (ts : List (List EntryView)) × (count : ℕ)
        × Waits parent.old done.node.now ps ts count }
    requires come { (ps : List Pair) × (ts : List (List EntryView)) × (count : ℕ)
        × HasEmitted done ps ts count }
    requires ended { remaining_entries done ≡ [] }
    ensures emitted { OnOk result ((more : List Pair) × (count : ℕ)
        × Adds pairs.old.items pairs.new.items [] more × (saved.new ≡ raised saved.old count)
        × FoldsTo (answered F.FnMut) out.old more out.new
        × HasResumed parent.old done.entry parent.new more count) }
    ensures node { parent.new.node.now ≡ parent.old.node.now }
    ensures lighter { OnOk result (frame_weight parent.new < frame_weight parent.old) }
    ensures error { IfErr result (IsWriteError (answered F.FnMut) (denied F.FnMut)
        (EmitsAfter parent.old done.entry) out.old out.new) }
{
    let entries = parent.tree.entries();
    let entry = &entries[parent.next];
    let Frame {
        base,
        written_tree,
        ..
    } = done;
    let id = written_id(alloc, entry, written_tree, base, out, pairs, saved)?;
    append_unless_null(
        alloc,
        &mut parent.written_tree,
        parent.base,
        entry,
        id,
        entries.len(),
    )?;
    parent.next += 1;
    Ok(())
}

/// Emits the written tree of an entry's directory if it is changed, and returns the id that the entry gets.
/// There is none if the tree is empty.
fn written_id<E, F: FnMut(&Tree) -> Result<ObjectId, E>>(
    alloc: Global,
    entry: &Entry,
    written_tree: WrittenTree,
    base: &[Entry],
    out: &mut F,
    pairs: &mut Vec<(ObjectId, Tree)>,
    saved: &mut usize,
) -> Result<Option<ObjectId>, WriteError<E>>
    requires callable { IsCallableOnTrees F.pre (answered F.FnMut) out.old }
    requires shares_base { SharesBase base.now written_tree }
    requires storable { IsStorable (so_far base.now written_tree) }
    ensures emitted { IfOk result (λ id. (more : List Pair) × (count : ℕ)
        × Adds pairs.old.items pairs.new.items [] more × (saved.new ≡ raised saved.old count)
        × FoldsTo (answered F.FnMut) out.old more out.new
        × EmitsWritten base.now entry.now (so_far base.now written_tree) more (entry_if_some entry.now id) count) }
    ensures error { IfErr result (IsWriteError (answered F.FnMut) (denied F.FnMut)
        (λ more. (kept : List EntryView) × (count : ℕ)
        × EmitsWritten base.now entry.now (so_far base.now written_tree) more kept count) out.old out.new) }
{
    if written_tree.has_no_entries() {
        return Ok(None);
    }
    if written_tree.is_base(base) {
        count(saved);
        let unchanged = entry.oid;
        return Ok(Some(unchanged));
    }
    let tree = written_tree.into_tree(alloc, base)?;
    let id = emit_tree(tree, out, pairs)?;
    Ok(Some(id))
}

/// Adds one to the number, which saturates.
fn count(saved: &mut usize)
    ensures { saved.new ≡ raised saved.old 1 }
{
    *saved = saved.saturating_add(1);
}

/// Appends the entry with the id that it gets, unless that is missing or null. `room` is the maximum of
/// entries.
fn append_unless_null(
    alloc: Global,
    written_tree: &mut WrittenTree,
    base: &[Entry],
    entry: &Entry,
    id: Option<ObjectId>,
    room: usize,
) -> Result<(), AllocError>
    requires { SharesBase base.now written_tree.old }
    ensures entries { OnOk result (so_far base.now written_tree.new
        ≡ so_far base.now written_tree.old ++ entry_if_some entry.now id) }
    ensures shares_base { OnOk result (SharesBase base.now written_tree.new) }
    ensures allocates { OnErr result ((rest : List EntryView)
        → (so_far base.now written_tree.old ++ entry_if_some entry.now id) ++ rest ≢ base.now) }
{
    let Some(id) = id else {
        return Ok(());
    };
    if id.is_null() {
        return Ok(());
    }
    written_tree.push(alloc, base, entry, id, room)
}
