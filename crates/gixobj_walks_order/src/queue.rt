//! The commits that are ready and wait to be listed.
ghost use Rattle.std.specs.Prelude.{◌≡◌, ◌+◌, ◌<◌, ◌≤◌, ◌^◌, ℕ, IfSome, IfNone, OnOk, length, [], ◌∷◌, ◌++◌, List};
ghost use Rattle.gixobj_walks_graph.specs.Graph.{IsRead};
ghost use Rattle.gixobj_walks_graph.specs.Listing.{AreInsertedByDate, IsNext, Join};
ghost use Rattle.gixobj_walks_graph.specs.Numbered.{graph_at};
ghost use Rattle.gixobj_walks_order.specs.Counts.{AreRead};
ghost use Rattle.gixobj_walks_order.specs.Queues.{AreKeys, numbers_of, waiting_of};

use crate::known::seconds_of;
use gixobj_walks_graph::{Node, Order};
use std::alloc::{AllocError, Global};
use std::collections::BTreeSet;

/// A commit that waits by its date. Keys rise from the newest commit to the oldest, then in the order of joining.
#[derive(Clone, Copy, Debug, PartialEq, Eq, PartialOrd, Ord)]
pub(crate) struct Key {
    /// How far its seconds are below the largest number of seconds.
    pub(crate) age: u64,
    /// How many commits joined before it.
    pub(crate) joined: usize,
    pub(crate) number: usize,
}

/// The commits that are ready and not listed.
#[derive(Drop)]
pub(crate) struct Queue {
    /// Those by date, the newest first.
    pub(crate) dated: BTreeSet<Key>,
    /// Those of the topological order, the latest at the end.
    pub(crate) found: Vec<usize>,
}

/// Inserts a commit by its date.
fn insert_by_date(
    dated: &mut BTreeSet<Key>,
    nodes: &[Option<Node>],
    number: usize,
    joined: usize,
) -> Result<(), AllocError>
    requires read { IsRead (graph_at nodes.now) number }
    requires keys { AreKeys nodes.now joined dated.old }
    ensures keys { OnOk result (AreKeys nodes.now (joined + 1) dated.new) }
    ensures inserted { OnOk result (AreInsertedByDate (graph_at nodes.now) (number ∷ [])
        (numbers_of dated.old) (numbers_of dated.new)) }
{
    let age = u64::MAX - seconds_of(nodes, number);
    dated.insert(Key {
        age,
        joined,
        number,
    })?;
    Ok(())
}

/// Inserts commits by their dates, one after the other.
pub(crate) fn insert_all_by_date(
    dated: &mut BTreeSet<Key>,
    nodes: &[Option<Node>],
    ready: &[usize],
    joined: usize,
) -> Result<(), AllocError>
    requires read { AreRead nodes.now ready.now }
    requires keys { AreKeys nodes.now joined dated.old }
    requires fits { joined + length ready.now < 2 ^ 64 }
    ensures keys { OnOk result (AreKeys nodes.now (joined + length ready.now) dated.new) }
    ensures inserted { OnOk result (AreInsertedByDate (graph_at nodes.now) ready.now
        (numbers_of dated.old) (numbers_of dated.new)) }
{
    let mut next = joined;
    for number in ready {
        insert_by_date(dated, nodes, *number, next)?;
        next += 1;
    }
    Ok(())
}

/// Adds commits to those that wait: by their dates, or at the end.
pub(crate) fn join(
    queue: &mut Queue,
    nodes: &[Option<Node>],
    order: Order,
    ready: &[usize],
    joined: usize,
) -> Result<(), AllocError>
    requires read { AreRead nodes.now ready.now }
    requires keys { AreKeys nodes.now joined queue.old.dated }
    requires fits { joined + length ready.now < 2 ^ 64 }
    ensures keys { OnOk result (AreKeys nodes.now (joined + length ready.now) queue.new.dated) }
    ensures joined { OnOk result (Join (graph_at nodes.now) order ready.now
        (waiting_of queue.old) (waiting_of queue.new)) }
{
    match order {
        Order::Date => insert_all_by_date(&mut queue.dated, nodes, ready, joined),
        Order::Topological => queue.found.extend_from_slice(ready),
    }
}

/// Counts these numbers: fewer than 2^60, since they are in memory.
pub(crate) fn count(numbers: &[usize]) -> usize
    ensures exact { result ≡ length numbers.now }
    ensures small { result < 2 ^ 60 }
{
    numbers.len()
}

/// Takes the next of the commits that wait: the one that was found last, else the newest.
pub(crate) fn take_next(queue: &mut Queue) -> Option<usize>
    ensures next { IfSome result (λ number.
        IsNext (waiting_of queue.old) number (waiting_of queue.new)) }
    ensures keys { IfSome result (λ _. (popped : List Key)
        × (queue.old.dated.keys ≡ popped ++ queue.new.dated.keys)) }
    ensures none { IfNone result ((queue.old.dated.keys ≡ []) × (queue.old.found.items ≡ [])) }
    ensures unchanged { IfNone result ((queue.new.dated.keys ≡ []) × (queue.new.found.items ≡ [])) }
{
    if let Some(number) = queue.found.pop() {
        return Some(number);
    }
    let key = queue.dated.pop_first()?;
    Some(key.number)
}
