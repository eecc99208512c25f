//! Walks over graphs: what they list, as the table has it.
ghost use Rattle.std.specs.Prelude.{IsSome};

use crate::graphs::{commit_of, id_of, ids_of, name_of};
use gixobj_hash::hash::ObjectId;
use gixobj_tests_recorded::answer::Answer;
use gixobj_tests_recorded::fields::{split_at_first, yes_or_no};
use gixobj_walks::{AncestorSearch, MergeBases, SymmetricDifference, Walk};
use gixobj_walks_graph::{LeftRightCount, Order};
use gixobj_walks_order::ListError;
use std::alloc::{AllocError, Global};

/// What a walk lists. A question has the graph, the query, and what git lists instead.
pub(crate) fn walk_answer(question: &[u8], answer: &mut Answer) {
    let (graph, rest) = split_at_first(question, b'\t');
    let (query, _) = split_at_first(rest, b'\t');
    let (command, commits) = split_at_first(query, b' ');
    if push_result(command, graph, commits, answer).is_err() {
        answer.fail();
    }
}

/// Appends the result of a command over commits of a graph.
fn push_result(
    command: &[u8],
    graph: &[u8],
    commits: &[u8],
    answer: &mut Answer,
) -> Result<(), ListError> {
    match command {
        b"topo" => push_list(graph, commits, Order::Topological, answer),
        b"reverse" => push_reversed(graph, commits, answer),
        b"left-right" => push_counts(graph, commits, answer),
        b"is-ancestor" => push_is_ancestor(graph, commits, answer),
        b"bases" => push_bases(graph, commits, answer),
        _ => push_list(graph, commits, Order::Date, answer),
    }
}

/// Appends what a walk lists in an order.
fn push_list(
    graph: &[u8],
    commits: &[u8],
    order: Order,
    answer: &mut Answer,
) -> Result<(), ListError> {
    let (tips, hidden) = starts_of(answer.alloc, commits)?;
    let ids = listed(answer.alloc, graph, &tips, &hidden, order)?;
    push_names(&ids, answer);
    Ok(())
}

/// Appends what a walk lists by date, the last first.
fn push_reversed(graph: &[u8], commits: &[u8], answer: &mut Answer) -> Result<(), ListError> {
    let (tips, hidden) = starts_of(answer.alloc, commits)?;
    let ids = listed(answer.alloc, graph, &tips, &hidden, Order::Date)?;
    for id in ids.iter().rev() {
        push_name(id, answer);
    }
    push_if_empty(&ids, answer);
    Ok(())
}

/// Appends how many commits the first of two commits reaches that the second doesn't, and the other way round.
fn push_counts(graph: &[u8], commits: &[u8], answer: &mut Answer) -> Result<(), ListError> {
    let (one, other) = pair_of(commits);
    let counts = counts_of(answer.alloc, graph, one, other)?;
    answer.push_shown(counts.left);
    answer.add_shown(counts.right);
    Ok(())
}

/// Appends whether the second of two commits reaches the first.
fn push_is_ancestor(graph: &[u8], commits: &[u8], answer: &mut Answer) -> Result<(), ListError> {
    let (one, other) = pair_of(commits);
    let is_ancestor = is_ancestor_in(answer.alloc, graph, one, other)?;
    answer.push(yes_or_no(is_ancestor).as_bytes());
    Ok(())
}

/// Appends the merge bases of two commits.
fn push_bases(graph: &[u8], commits: &[u8], answer: &mut Answer) -> Result<(), ListError> {
    let (one, other) = pair_of(commits);
    let bases = bases_of(answer.alloc, graph, one, other)?;
    push_names(&bases, answer);
    Ok(())
}

/// Lists the merge bases of two commits of a graph.
pub(crate) fn bases_of(
    alloc: Global,
    graph: &[u8],
    one: ObjectId,
    other: ObjectId,
) -> Result<Vec<ObjectId>, AllocError> {
    let mut search = MergeBases::new(alloc, one, other)?;
    for _ in 0..u64::MAX {
        let Some(id) = search.next_wanted() else {
            return search.list(alloc);
        };
        search = with_searched(alloc, search, graph, id)?;
    }
    Err(AllocError)
}

/// Inserts the commit that a search needs next.
fn with_searched(
    alloc: Global,
    search: MergeBases,
    graph: &[u8],
    id: ObjectId,
) -> Result<MergeBases, AllocError>
    requires { IsSome search.wanted }
{
    let (parents, seconds) = node_of(alloc, graph, id)?;
    search.insert(alloc, &parents, seconds)
}

/// Counts the commits of a graph that only one of two commits reaches.
fn counts_of(
    alloc: Global,
    graph: &[u8],
    one: ObjectId,
    other: ObjectId,
) -> Result<LeftRightCount, AllocError> {
    let mut count = SymmetricDifference::new(alloc, one, other)?;
    for _ in 0..u64::MAX {
        let Some(id) = count.next_wanted() else {
            return Ok(count.count());
        };
        count = with_counted(alloc, count, graph, id)?;
    }
    Err(AllocError)
}

/// Inserts the commit that a count needs next.
fn with_counted(
    alloc: Global,
    count: SymmetricDifference,
    graph: &[u8],
    id: ObjectId,
) -> Result<SymmetricDifference, AllocError>
    requires { IsSome count.wanted }
{
    let (parents, seconds) = node_of(alloc, graph, id)?;
    count.insert(alloc, &parents, seconds)
}

/// Tests whether a commit of a graph is an ancestor of another one, or the same.
fn is_ancestor_in(
    alloc: Global,
    graph: &[u8],
    ancestor: ObjectId,
    descendant: ObjectId,
) -> Result<bool, AllocError> {
    let mut search = AncestorSearch::new(alloc, ancestor, descendant)?;
    for _ in 0..u64::MAX {
        let Some(id) = search.next_wanted() else {
            return Ok(search.is_ancestor());
        };
        search = with_descendant(alloc, search, graph, id)?;
    }
    Err(AllocError)
}

/// Inserts the commit that a search for an ancestor needs next.
fn with_descendant(
    alloc: Global,
    search: AncestorSearch,
    graph: &[u8],
    id: ObjectId,
) -> Result<AncestorSearch, AllocError>
    requires { IsSome search.wanted }
{
    let (parents, seconds) = node_of(alloc, graph, id)?;
    search.insert(alloc, &parents, seconds)
}

/// The parents of a commit of a graph, and its seconds.
fn node_of(alloc: Global, graph: &[u8], id: ObjectId) -> Result<(Vec<ObjectId>, u64), AllocError> {
    let commit = commit_of(graph, name_of(&id));
    let parents = ids_of(alloc, commit.parents, b',')?;
    Ok((parents, commit.seconds))
}

/// Lists what a walk over a graph selects, in an order.
pub(crate) fn listed(
    alloc: Global,
    graph: &[u8],
    tips: &[ObjectId],
    hidden: &[ObjectId],
    order: Order,
) -> Result<Vec<ObjectId>, ListError> {
    let mut walk = Walk::new(alloc, tips, hidden)?;
    for _ in 0..u64::MAX {
        let Some(id) = walk.next_wanted() else {
            return walk.list(alloc, order);
        };
        walk = with_commit(alloc, walk, graph, id)?;
    }
    Err(ListError::OutOfMemory)
}

/// Inserts the commit that a walk needs next.
fn with_commit(alloc: Global, walk: Walk, graph: &[u8], id: ObjectId) -> Result<Walk, AllocError>
    requires { IsSome walk.wanted }
{
    let (parents, seconds) = node_of(alloc, graph, id)?;
    walk.insert(alloc, &parents, seconds)
}

/// The tips of a walk and its hidden commits, whose names have `^` before them.
fn starts_of(alloc: Global, commits: &[u8]) -> Result<(Vec<ObjectId>, Vec<ObjectId>), AllocError> {
    let (mut tips, mut hidden) = (Vec::new(alloc), Vec::new(alloc));
    for commit in commits.split(|byte| *byte == b' ') {
        match commit {
            [b'^', name @ ..] => hidden.push(id_of(name))?,
            name => tips.push(id_of(name))?,
        }
    }
    Ok((tips, hidden))
}

/// The ids of two commits.
fn pair_of(commits: &[u8]) -> (ObjectId, ObjectId) {
    let (one, other) = split_at_first(commits, b' ');
    (id_of(one), id_of(other))
}

/// Appends the names of commits, or `none`.
fn push_names(ids: &[ObjectId], answer: &mut Answer) {
    for id in ids {
        push_name(id, answer);
    }
    push_if_empty(ids, answer);
}

/// Appends the name of a commit, after a space unless it is the first.
fn push_name(id: &ObjectId, answer: &mut Answer) {
    if !answer.as_slice().is_empty() {
        answer.push(b" ");
    }
    answer.push(name_of(id));
}

/// Appends `none` for an empty list.
fn push_if_empty(ids: &[ObjectId], answer: &mut Answer) {
    if ids.is_empty() {
        answer.push(b"none");
    }
}
