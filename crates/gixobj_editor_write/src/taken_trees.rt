//! Leaf trees that a write takes out of the open directories after its last call, and moves to its pairs.
ghost use Rattle.std.specs.Prelude.{◌≡◌, ◌≢◌, ◌≤◌, ◌+◌, ◌++◌, ◌∷◌, IfNone, IfSome, List, [], length, reverse};
ghost use Rattle.std.specs.Prelude.{vec_capacity, vec_len};
ghost use Rattle.gixobj_tree_entries.specs.Entries.{Pair};
ghost use Rattle.gixobj_tree.specs.WellFormed.{EachLater};
ghost use Rattle.gixobj_editor_open.specs.LeafTrees.{inside_of, leaf_trees, waiting_trees};
ghost use Rattle.gixobj_editor_open.specs.Nested.{below, child_list, parts};
ghost use Rattle.gixobj_editor_write.specs.TakenTrees.{Fills};

use crate::moving::move_on;
use gixobj_editor_open::leaf_trees::is_leaf_tree;
use gixobj_editor_open::open::{Child, Children, Open};
use gixobj_hash::hash::ObjectId;
use gixobj_tree::Tree;

/// Moves the leaf trees at and below these directories to the end of `trees`, the last first.
///
/// There must be capacity for them.
pub(crate) fn take_leaf_trees(children: Children, trees: &mut Vec<Tree>)
    requires apart { EachLater (λ x y. x.0 ≢ y.0) (parts (child_list children)) }
    requires has_capacity { vec_len trees.old
        + length (leaf_trees (below (parts (child_list children)))) ≤ vec_capacity trees.old }
    ensures items { trees.new.items
        ≡ trees.old.items ++ reverse (leaf_trees (below (parts (child_list children)))) }
    ensures capacity { vec_capacity trees.old ≤ vec_capacity trees.new }
{
    let Children { first, mut more } = children;
    while let Some(piece) = more.pop() {
        take_from_piece(piece, trees);
    }
    take_from_piece(first, trees);
}

/// Moves the leaf trees at and below the directories of a piece to the end of `trees`, the last first.
fn take_from_piece(mut children: Vec<Child>, trees: &mut Vec<Tree>)
    requires apart { EachLater (λ x y. x.0 ≢ y.0) (parts children.items) }
    requires has_capacity { vec_len trees.old + length (leaf_trees (below (parts children.items)))
        ≤ vec_capacity trees.old }
    ensures items { trees.new.items
        ≡ trees.old.items ++ reverse (leaf_trees (below (parts children.items))) }
    ensures capacity { vec_capacity trees.old ≤ vec_capacity trees.new }
{
    while let Some(child) = children.pop() {
        take_leaf_tree(child.into_open(), trees);
    }
}

/// Moves the leaf trees at and below one directory to the end of `trees`, the last first.
///
/// It takes out one directory after the other, by a loop. What is open in that is merged with what waits.
fn take_leaf_tree(node: Open, trees: &mut Vec<Tree>)
    requires has_capacity { vec_len trees.old + length (leaf_trees node) ≤ vec_capacity trees.old }
    ensures items { trees.new.items ≡ trees.old.items ++ reverse (leaf_trees node) }
    ensures capacity { vec_capacity trees.old ≤ vec_capacity trees.new }
{
    let Some(mut waiting) = take_written_tree(node, trees) else {
        return;
    };
    while let Some((rest, last)) = waiting.split_last() {
        waiting = take_last_tree(last, rest, trees);
    }
}

/// Drops the last directory at and below these two, moves its tree if that is a leaf tree, and returns what waits
/// then: one directory with all others in it.
fn take_last_tree(last: Open, rest: Open, trees: &mut Vec<Tree>) -> Open
    requires has_capacity { vec_len trees.old + length (waiting_trees rest last)
        ≤ vec_capacity trees.old }
    ensures items { trees.new.items ++ reverse (leaf_trees (inside_of result))
        ≡ trees.old.items ++ reverse (waiting_trees rest last) }
    ensures has_capacity { vec_len trees.new + length (leaf_trees (inside_of result))
        ≤ vec_capacity trees.new }
    ensures capacity { vec_capacity trees.old ≤ vec_capacity trees.new }
    ensures fewer { length result + 1 ≡ length rest + length last }
{
    let mut current = last;
    let mut waiting = rest;
    loop {
        let Some(directory) = take_written_tree(current, trees) else {
            return waiting;
        };
        if !waiting.has_open_directory() {
            return directory;
        }
        let (next, inner) = move_on(directory, waiting);
        waiting = next;
        current = inner;
    }
}

/// Returns the directory if one is open in it. Otherwise its tree is moved to the end of `trees` if it is a leaf
/// tree.
fn take_written_tree(node: Open, trees: &mut Vec<Tree>) -> Option<Open>
    requires has_capacity { vec_len trees.old + length (leaf_trees node) ≤ vec_capacity trees.old }
    ensures some { IfSome result (λ it. (it ≡ node) × (inside_of node ≢ [])
        × (leaf_trees node ≡ leaf_trees (inside_of node)) × (trees.new ≡ trees.old)) }
    ensures none { IfNone result ((trees.new.items ≡ trees.old.items ++ reverse (leaf_trees node))
        × (length node ≡ 1)) }
    ensures capacity { vec_capacity trees.old ≤ vec_capacity trees.new }
{
    if node.has_open_directory() {
        return Some(node);
    }
    let (entries, base, _) = node.into_parts();
    let tree = entries.into_tree();
    if is_leaf_tree(&tree, &base) {
        let _ = trees.push(tree);
    }
    None
}

/// Moves these trees, from the last on, to the pairs with empty trees, in order.
pub(crate) fn fill(pairs: &mut [(ObjectId, Tree)], mut trees: Vec<Tree>)
    ensures { (all : List Pair) → Fills pairs.old (reverse trees.items) all → pairs.new ≡ all }
{
    for pair in pairs.iter_mut() {
        fill_one(pair, &mut trees);
    }
}

/// Moves the last of these trees to the pair, if the pair's tree is empty.
fn fill_one(pair: &mut (ObjectId, Tree), trees: &mut Vec<Tree>)
    ensures { (rest all : List Pair) → Fills (pair.old ∷ rest) (reverse trees.old.items) all
        → (more : List Pair) × (all ≡ pair.new ∷ more) × Fills rest (reverse trees.new.items) more }
{
    if !pair.1.entries.is_empty() {
        return;
    }
    if let Some(tree) = trees.pop() {
        pair.1 = tree;
    }
}
