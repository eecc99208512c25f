//! How many commits only one of two commits reaches.
ghost use Rattle.std.specs.Prelude.{◌≡◌, ◌↔◌, ◌⊎◌, ◌+◌, ◌<◌, ◌∷◌, [], None, Some, ℕ, Option, IfNone, IfOk};
ghost use Rattle.std.specs.Prelude.{IsSome, IsTrue, length};
ghost use Rattle.gixobj_hash.specs.declared.hash.object_id.ObjectId.{ObjectId as Id};
ghost use Rattle.gixobj_walks_graph.specs.Graph.{HasCount, IsAcyclic, IsIncluded, NodeView};
ghost use Rattle.gixobj_walks_graph.specs.Numbered.{graph_at};
ghost use Rattle.gixobj_walks_graph.specs.Walks.{IsSelected};
ghost use Rattle.gixobj_walks_marks.specs.Chosen.{IsChosen};
ghost use Rattle.gixobj_walks_marks.specs.Marks.{HasMarks};
ghost use Rattle.gixobj_walks_marks.specs.Readings.{reads};
ghost use Rattle.gixobj_walks.specs.Difference.{AreSettledApart, HasChosenCount};
ghost use Rattle.gixobj_walks.specs.Named.{graph_of};
ghost use Rattle.gixobj_walks.specs.Search.{searched_graph};

use crate::known::{KnownCommits, test_after};
use gixobj_hash::hash::ObjectId;
use gixobj_walks_graph::LeftRightCount;
use gixobj_walks_marks::{Reading, is_chosen, is_settled_walk};
use std::alloc::{AllocError, Global};
use std::marker::Model;

/// A count of the commits of a symmetric difference: those that only one of two commits reaches (git-rev-list,
/// `--left-right --count A...B`).
///
/// A branch with the one commit is `left` commits ahead of a branch with the other one.
///
/// It has no store: it requests the commits that it needs, one after the other, until it needs no more.
/// [`SymmetricDifference::next_wanted`] returns the id of the next one, and [`SymmetricDifference::insert`] takes its
/// parents and its seconds.
///
/// An insertion that fails consumes the count.
#[derive(Drop)]
pub struct SymmetricDifference {
    known: KnownCommits,
    one: ObjectId,
    other: ObjectId,
    is_settled: bool,
    next_test: usize,
}

impl Model for SymmetricDifference {
    ghost use Rattle.gixobj_walks.specs.Difference.{AreSettledApart};
    ghost use Rattle.gixobj_walks.specs.Machine.{wanted_of};
    ghost use Rattle.gixobj_walks.specs.Named.{named_graph};
    ghost use Rattle.gixobj_walks.specs.Search.{IsSearching, SearchView};

    ghost Value = { SearchView };

    ghost view = { λ search. record {
      one = search.one;
      other = search.other;
      ids = search.known.names;
      nodes = search.known.reading.nodes;
      wanted = wanted_of search.is_settled search.known.names search.known.reading.next;
    } };

    ghost invariant = { λ search. IsSearching search.known.names search.known.reading
        search.one search.other search.is_settled
        (AreSettledApart (named_graph search.known.names search.known.reading.nodes)
        search.one search.other) };
}

impl SymmetricDifference {
    /// Begins a count for two commits, which may be the same one.
    ///
    /// Allocates space for both.
    ///
    /// # Errors
    ///
    /// [`AllocError`] if an allocation fails.
    pub fn new(
        alloc: Global,
        one: ObjectId,
        other: ObjectId,
    ) -> Result<SymmetricDifference, AllocError>
        ensures one { IfOk result (λ search. search.one ≡ one) }
        ensures other { IfOk result (λ search. search.other ≡ other) }
        ensures given { IfOk result (λ search.
            (id : Id) (node : NodeView Id) → ¬ searched_graph search id node) }
    {
        let (known, _left, _right) = KnownCommits::begin(alloc, &[one], &[other])?;
        Ok(SymmetricDifference {
            known,
            one,
            other,
            is_settled: false,
            next_test: 1,
        })
    }

    /// Returns the id of the commit that the count needs next, or none if it needs no more. Allocates nothing.
    ///
    /// Then what was not given changes nothing: both commits reach each commit that is known and was not given.
    pub fn next_wanted(&self) -> Option<ObjectId>
        ensures wanted { result ≡ self.now.wanted }
        ensures settled { IfNone result
            (AreSettledApart (searched_graph self.now) self.now.one self.now.other) }
    {
        if self.is_settled {
            return None;
        }
        self.known.next_unread()
    }

    /// Takes the commit that the count needs next: its parents, in the order of its lines, and the seconds of its
    /// committer.
    ///
    /// Allocates a copy of the parents, and space for each that the count doesn't know.
    ///
    /// # Errors
    ///
    /// [`AllocError`] if an allocation fails.
    pub fn insert(
        self,
        alloc: Global,
        parents: &[ObjectId],
        seconds: u64,
    ) -> Result<SymmetricDifference, AllocError>
        requires { IsSome self.wanted }
        ensures one { IfOk result (λ search. search.one ≡ self.one) }
        ensures other { IfOk result (λ search. search.other ≡ self.other) }
        ensures given { IfOk result (λ search.
            (id commit : Id) (node : NodeView Id) → self.wanted ≡ Some commit
            → searched_graph search id node ↔ (searched_graph self id node
            ⊎ ((id ≡ commit) × (node ≡ record { parents = parents.now; seconds = seconds })))) }
        ensures reads { IfOk result (λ search. reads search.nodes ≡ reads self.nodes + 1) }
    {
        let SymmetricDifference {
            known,
            one,
            other,
            next_test,
            ..
        } = self;
        let known = known.insert(alloc, parents, seconds)?;
        let is_settled = has_read_enough(alloc, &known.reading, next_test)?;
        let next_test = test_after(known.reading.reads(), next_test);
        Ok(SymmetricDifference {
            known,
            one,
            other,
            is_settled,
            next_test,
        })
    }

    /// Counts the commits that only one of both commits reaches. The count needs no more commits. Allocates nothing.
    ///
    /// The numbers are those of each graph with the commits that were given, if no commit is an ancestor of itself.
    pub fn count(&self) -> LeftRightCount
        requires { self.now.wanted ≡ None }
        ensures left { (commits : Id → Option (NodeView Id))
            → IsIncluded (searched_graph self.now) (graph_of commits) → IsAcyclic (graph_of commits)
            → HasCount (IsSelected (graph_of commits) (self.now.one ∷ []) (self.now.other ∷ []))
            result.left }
        ensures right { (commits : Id → Option (NodeView Id))
            → IsIncluded (searched_graph self.now) (graph_of commits) → IsAcyclic (graph_of commits)
            → HasCount (IsSelected (graph_of commits) (self.now.other ∷ []) (self.now.one ∷ []))
            result.right }
    {
        let None = self.next_wanted() else {
            unreachable!()
        };
        let left = self.known.reading.left();
        let right = self.known.reading.right();
        LeftRightCount {
            left: count_chosen(left, right),
            right: count_chosen(right, left),
        }
    }
}

// Tests whether the count has read enough, if it is time for a test.
fn has_read_enough(alloc: Global, reading: &Reading, next_test: usize) -> Result<bool, AllocError>
    ensures { IfOk result (λ is.
        (one other : ℕ) → HasMarks reading.now.nodes (one ∷ []) reading.now.left
        → HasMarks reading.now.nodes (other ∷ []) reading.now.right → IsTrue is
        → AreSettledApart (graph_at reading.now.nodes) one other) }
{
    if reading.reads() < next_test {
        return Ok(false);
    }
    let is_left_settled = is_settled_walk(alloc, reading.nodes(), reading.left(), reading.right())?;
    let is_right_settled = is_settled_walk(
        alloc,
        reading.nodes(),
        reading.right(),
        reading.left(),
    )?;
    Ok(is_left_settled && is_right_settled)
}

// Counts the commits that the left side has, and the right side doesn't.
fn count_chosen(left: &[bool], right: &[bool]) -> usize
    requires { length right.now ≡ length left.now }
    ensures { HasChosenCount left.now right.now (length left.now) result }
{
    let mut count = 0;
    for number in 0..left.len() {
        if is_chosen(left, right, number) {
            count += 1;
        }
    }
    count
}
