//! Lists of commits with the newest first.
ghost use Rattle.std.specs.Prelude.{◌≡◌, ◌↔◌, ◌∷◌, [], ℕ, Contains, IfOk, length, map};
ghost use Rattle.std.specs.List.Sorted.{IsStrictlySortedBy};
ghost use Rattle.gixobj_hash.specs.declared.hash.object_id.ObjectId.{ObjectId as Id};
ghost use Rattle.gixobj_walks_graph.specs.Graph.{IsRead, NodeView};
ghost use Rattle.gixobj_walks_graph.specs.Numbered.{AreParentsKnown, graph_at};
ghost use Rattle.gixobj_walks.specs.Named.{named_graph};
ghost use Rattle.gixobj_walks.specs.Newest.{AreDated, AreNewestFirst, IsDated, IsNameOf, dated_cmp};

use crate::known::KnownCommits;
use gixobj_hash::hash::ObjectId;
use gixobj_walks_graph::Node;
use std::alloc::{AllocError, Global};
use std::collections::BTreeSet;

/// A commit by its date. They rise from the newest commit to the oldest, those of equal dates by their ids.
#[derive(Clone, Copy, PartialEq, Eq, PartialOrd, Ord)]
pub struct Dated {
    /// How far its seconds are below the largest number of seconds.
    pub age: u64,
    /// Its id.
    pub id: ObjectId,
}

/// Lists the ids of commits that are read, with the newest first, and those of equal seconds by their ids.
///
/// # Errors
///
/// [`AllocError`] if an allocation fails.
pub fn newest_first(
    alloc: Global,
    known: &KnownCommits,
    numbers: &[usize],
) -> Result<Vec<ObjectId>, AllocError>
    requires lengths { length known.now.reading.nodes ≡ length known.now.names }
    requires parents { AreParentsKnown known.now.reading.nodes }
    requires read { (number : ℕ) → Contains numbers.now number
        → IsRead (graph_at known.now.reading.nodes) number }
    ensures exact { IfOk result (λ ids. (id : Id) → Contains ids.items id
        ↔ IsNameOf known.now.names numbers.now id) }
    ensures order { IfOk result (λ ids. AreNewestFirst
        (named_graph known.now.names known.now.reading.nodes) ids.items) }
{
    let dated = by_date(alloc, known, numbers)?;
    let ids = ids_of_dated(alloc, dated)?;
    Ok(ids)
}

// Makes a set of commits by their dates.
fn by_date(
    alloc: Global,
    known: &KnownCommits,
    numbers: &[usize],
) -> Result<BTreeSet<Dated>, AllocError>
    requires lengths { length known.now.reading.nodes ≡ length known.now.names }
    requires read { (number : ℕ) → Contains numbers.now number
        → IsRead (graph_at known.now.reading.nodes) number }
    ensures dated { IfOk result (λ dated.
        AreDated known.now.names known.now.reading.nodes numbers.now dated.keys) }
    ensures ordered { IfOk result (λ dated. IsStrictlySortedBy dated_cmp dated.keys) }
{
    let mut dated = BTreeSet::new(alloc);
    for number in numbers {
        let commit = dated_commit(known, *number);
        dated.insert(commit)?;
    }
    Ok(dated)
}

// Returns a commit that is read by its date.
fn dated_commit(known: &KnownCommits, number: usize) -> Dated
    requires lengths { length known.now.reading.nodes ≡ length known.now.names }
    requires read { IsRead (graph_at known.now.reading.nodes) number }
    ensures { IsDated known.now.names known.now.reading.nodes (number ∷ []) result }
{
    Dated {
        age: u64::MAX - seconds_of(known.reading.nodes(), number),
        id: known.names.id_of(number),
    }
}

// Returns the seconds of a commit that is read.
fn seconds_of(nodes: &[Option<Node>], number: usize) -> u64
    requires { IsRead (graph_at nodes.now) number }
    ensures { (node : NodeView ℕ) → graph_at nodes.now number node → result ≡ node.seconds }
{
    match &nodes[number] {
        Some(node) => node.seconds,
        None => unreachable!(),
    }
}

// Lists the ids of commits by their dates.
fn ids_of_dated(alloc: Global, dated: BTreeSet<Dated>) -> Result<Vec<ObjectId>, AllocError>
    ensures { IfOk result (λ ids. ids.items ≡ map (λ commit. commit.id) dated.keys) }
{
    let mut dated = dated;
    let mut ids = Vec::new(alloc);
    while let Some(commit) = dated.pop_first() {
        ids.push(commit.id)?;
    }
    Ok(ids)
}
