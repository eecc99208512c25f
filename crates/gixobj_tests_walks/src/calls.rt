//! Each public call of a walk: with ample memory, and with each allocation failing. How many commits a walk needs.
ghost use Rattle.std.specs.Prelude.{IsSome};

use crate::graphs::id_of;
use crate::walks::{bases_of, listed};
use gixobj_hash::hash::ObjectId;
use gixobj_walks::Walk;
use gixobj_walks_graph::Order;
use gixobj_walks_order::ListError;
use std::alloc::{AllocError, Global};

/// A row of the table, `two-lines-and-merge`: what `git rev-list --topo-order M ^C` lists is `M D B`.
const GRAPH: &[u8] = b"r@1<;A@2<r;B@3<r;C@4<A;D@5<B;M@6<C,D";

/// Lists the commits that `M` reaches and `C` doesn't, again after a failed allocation.
fn listed_again(alloc: Global, order: Order) -> Result<Vec<ObjectId>, ListError> {
    let (tips, hidden) = ([id_of(b"M")], [id_of(b"C")]);
    match listed(alloc, GRAPH, &tips, &hidden, order) {
        Err(ListError::OutOfMemory) => listed(alloc, GRAPH, &tips, &hidden, order),
        list => list,
    }
}

/// Returns whether these are the ids of the names `M`, `D` and `B`.
fn are_listed(list: &Result<Vec<ObjectId>, ListError>) -> bool {
    match list {
        Ok(ids) => ids.as_slice() == [id_of(b"M"), id_of(b"D"), id_of(b"B")].as_slice(),
        Err(_) => false,
    }
}

#[test]
fn lists_commits_whatever_allocation_fails(rt: HostRuntime) {
    let by_topology = listed_again(rt.alloc(), Order::Topological);
    assert!(rt; are_listed(&by_topology), "{by_topology:?}");
    let by_date = listed_again(rt.alloc(), Order::Date);
    assert!(rt; are_listed(&by_date), "{by_date:?}");
}

/// The merge bases of `C` and `D`, again after a failed allocation. In the table, `criss-cross`, they are `B` and `A`.
fn bases_again(alloc: Global) -> Result<Vec<ObjectId>, AllocError> {
    let (graph, one, other) = (
        b"r@1<;A@2<r;B@3<r;C@4<A,B;D@5<B,A".as_slice(),
        id_of(b"C"),
        id_of(b"D"),
    );
    match bases_of(alloc, graph, one, other) {
        Ok(bases) => Ok(bases),
        Err(_) => bases_of(alloc, graph, one, other),
    }
}

#[test]
fn lists_merge_bases_whatever_allocation_fails(rt: HostRuntime) {
    let Ok(bases) = bases_again(rt.alloc()) else {
        assert!(rt; false, "out of memory");
        return;
    };
    assert!(rt;
        bases.as_slice() == [id_of(b"B"), id_of(b"A")].as_slice(),
        "{bases:?}"
    );
}

/// Two commits, each the parent of the other, are an error of the list.
#[test]
fn rejects_cycle(rt: HostRuntime) {
    let graph = b"A@1<B;B@2<A";
    let list = listed(rt.alloc(), graph, &[id_of(b"A")], &[], Order::Date);
    assert!(rt; list == Err(ListError::Cycle));
}

/// What a walk over a line lists, and how many commits it needs.
#[derive(Debug, Drop)]
struct Walked {
    ids: Vec<ObjectId>,
    reads: u32,
}

/// The id of a commit of a line: its number.
fn id_at(number: u32) -> ObjectId {
    let [a, b, c, d] = number.to_be_bytes();
    ObjectId::Sha1([a, b, c, d, 0, 0, 0, 0, 0, 0, 0, 0, 0, 0, 0, 0, 0, 0, 0, 0])
}

/// The number of a commit of a line.
fn number_at(id: &ObjectId) -> u32 {
    match id.as_bytes() {
        [a, b, c, d, ..] => u32::from_be_bytes([*a, *b, *c, *d]),
        _ => 0,
    }
}

/// Inserts the commit that a walk over a line needs next. The parent of each is the one before it, and a second older.
fn with_commit(alloc: Global, walk: Walk, id: &ObjectId) -> Result<Walk, AllocError>
    requires { IsSome walk.wanted }
{
    match number_at(id).checked_sub(1) {
        Some(parent) => walk.insert(alloc, &[id_at(parent)], u64::from(parent)),
        None => walk.insert(alloc, &[], 0),
    }
}

/// Walks over a line from a tip, without what a hidden commit reaches.
fn walk_line(alloc: Global, tip: u32, hidden: &[ObjectId]) -> Result<Walked, ListError> {
    let mut walk = Walk::new(alloc, &[id_at(tip)], hidden)?;
    for reads in 0..u32::MAX {
        let Some(id) = walk.next_wanted() else {
            let ids = walk.list(alloc, Order::Date)?;
            return Ok(Walked { ids, reads });
        };
        walk = with_commit(alloc, walk, &id)?;
    }
    Err(ListError::OutOfMemory)
}

/// Returns whether these are the ids of a tip and of the commits before it.
fn is_line(ids: &[ObjectId], tip: u32) -> bool {
    let mut wanted = tip;
    for id in ids {
        if *id != id_at(wanted) {
            return false;
        }
        wanted = wanted.wrapping_sub(1);
    }
    true
}

/// Of a line of 10,000 commits at most ten are needed for `T ^T~3`.
#[test]
fn needs_at_most_ten_commits_of_line(rt: HostRuntime) {
    let Ok(walked) = walk_line(rt.alloc(), 9_999, &[id_at(9_996)]) else {
        assert!(rt; false, "out of memory");
        return;
    };
    assert!(rt;
        walked.ids.len() == 3 && is_line(&walked.ids, 9_999),
        "{walked:?}"
    );
    assert!(rt; walked.reads <= 10, "{walked:?}");
}

/// Without hidden commits each commit of a line is listed.
#[test]
fn lists_entire_line(rt: HostRuntime) {
    let Ok(walked) = walk_line(rt.alloc(), 9_999, &[]) else {
        assert!(rt; false, "out of memory");
        return;
    };
    assert!(rt; walked.ids.len() == 10_000 && is_line(&walked.ids, 9_999));
}
