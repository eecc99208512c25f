//! A search for merge bases that requests the commits that it needs.
ghost use Rattle.std.specs.Prelude.{◌≡◌, ◌↔◌, ◌⊎◌, ◌+◌, ◌≤◌, ◌∷◌, [], None, Some, ℕ, Option, IfNone, IfOk};
ghost use Rattle.std.specs.Prelude.{IfSome, IsSome, IsTrue, Contains};
ghost use Rattle.gixobj_hash.specs.declared.hash.object_id.ObjectId.{ObjectId as Id};
ghost use Rattle.gixobj_walks_graph.specs.Bases.{AreMergeBases};
ghost use Rattle.gixobj_walks_graph.specs.Graph.{IsAcyclic, IsIncluded, NodeView};
ghost use Rattle.gixobj_walks_graph.specs.Numbered.{graph_at};
ghost use Rattle.gixobj_walks_marks.specs.Marks.{HasMarks};
ghost use Rattle.gixobj_walks_marks.specs.Readings.{reads};
ghost use Rattle.gixobj_walks_marks.specs.Settled.{IsSettledBases};
ghost use Rattle.gixobj_walks.specs.Named.{AreOfEither, graph_of};
ghost use Rattle.gixobj_walks.specs.Newest.{AreNewestFirst};
ghost use Rattle.gixobj_walks.specs.Search.{searched_graph};

use crate::known::{KnownCommits, test_after};
use crate::newest::newest_first;
use gixobj_hash::hash::ObjectId;
use gixobj_walks_marks::{Reading, candidates, is_settled_bases};
use std::alloc::{AllocError, Global};
use std::marker::Model;

/// A search for the merge bases of two commits (git-merge-base, `--all`).
///
/// It has no store: it requests the commits that it needs, one after the other, until it needs no more.
/// [`MergeBases::next_wanted`] returns the id of the next one, and [`MergeBases::insert`] takes its parents and its
/// seconds.
///
/// An insertion that fails consumes the search.
#[derive(Drop)]
pub struct MergeBases {
    known: KnownCommits,
    one: ObjectId,
    other: ObjectId,
    is_settled: bool,
    next_test: usize,
}

impl Model for MergeBases {
    ghost use Rattle.gixobj_walks.specs.Machine.{wanted_of};
    ghost use Rattle.gixobj_walks.specs.Named.{named_graph};
    ghost use Rattle.gixobj_walks.specs.Search.{IsSearching, SearchView};
    ghost use Rattle.gixobj_walks_marks.specs.Settled.{IsSettledBases};

    ghost Value = { SearchView };

    ghost view = { λ search. record {
      one = search.one;
      other = search.other;
      ids = search.known.names;
      nodes = search.known.reading.nodes;
      wanted = wanted_of search.is_settled search.known.names search.known.reading.next;
    } };

    ghost invariant = { λ search. IsSearching search.known.names search.known.reading
        search.one search.other search.is_settled
        (IsSettledBases (named_graph search.known.names search.known.reading.nodes)
        search.one search.other) };
}

impl MergeBases {
    /// Begins a search for the merge bases of two commits, which may be the same one.
    ///
    /// Allocates space for both.
    ///
    /// # Errors
    ///
    /// [`AllocError`] if an allocation fails.
    pub fn new(alloc: Global, one: ObjectId, other: ObjectId) -> Result<MergeBases, AllocError>
        ensures one { IfOk result (λ search. search.one ≡ one) }
        ensures other { IfOk result (λ search. search.other ≡ other) }
        ensures given { IfOk result (λ search.
            (id : Id) (node : NodeView Id) → ¬ searched_graph search id node) }
        ensures known { IfOk result (λ search. AreOfEither search.ids (one ∷ []) (other ∷ [])) }
    {
        let (known, _left, _right) = KnownCommits::begin(alloc, &[one], &[other])?;
        Ok(MergeBases {
            known,
            one,
            other,
            is_settled: false,
            next_test: 1,
        })
    }

    /// Returns the id of the commit that the search needs next, or none if it needs no more. Allocates nothing.
    ///
    /// Then what was not given changes nothing: each commit that is known and was not given is an ancestor of each
    /// merge base.
    pub fn next_wanted(&self) -> Option<ObjectId>
        ensures wanted { result ≡ self.now.wanted }
        ensures settled { IfNone result
            (IsSettledBases (searched_graph self.now) self.now.one self.now.other) }
        ensures known { IfSome result (Contains self.now.ids) }
    {
        if self.is_settled {
            return None;
        }
        self.known.next_unread()
    }

    /// Takes the commit that the search needs next: its parents, in the order of its lines, and the seconds of its
    /// committer.
    ///
    /// Allocates a copy of the parents, and space for each that the search doesn't know.
    ///
    /// # Errors
    ///
    /// [`AllocError`] if an allocation fails.
    pub fn insert(
        self,
        alloc: Global,
        parents: &[ObjectId],
        seconds: u64,
    ) -> Result<MergeBases, AllocError>
        requires { IsSome self.wanted }
        ensures one { IfOk result (λ search. search.one ≡ self.one) }
        ensures other { IfOk result (λ search. search.other ≡ self.other) }
        ensures given { IfOk result (λ search.
            (id commit : Id) (node : NodeView Id) → self.wanted ≡ Some commit
            → searched_graph search id node ↔ (searched_graph self id node
            ⊎ ((id ≡ commit) × (node ≡ record { parents = parents.now; seconds = seconds })))) }
        ensures reads { IfOk result (λ search. reads search.nodes ≡ reads self.nodes + 1) }
        ensures maximum { IfOk result (λ search. reads search.nodes ≤ usize.MAX) }
        ensures known { IfOk result (λ search. AreOfEither search.ids self.ids parents.now) }
    {
        let MergeBases {
            known,
            one,
            other,
            next_test,
            ..
        } = self;
        let known = known.insert(alloc, parents, seconds)?;
        let is_settled = has_read_enough(alloc, &known.reading, next_test)?;
        let next_test = test_after(known.reading.reads(), next_test);
        Ok(MergeBases {
            known,
            one,
            other,
            is_settled,
            next_test,
        })
    }

    /// Lists the merge bases: the commits that both commits reach, and that no other such commit has as an ancestor.
    /// The search needs no more commits.
    ///
    /// They are those of each graph with the commits that were given, if no commit is an ancestor of itself. The newest
    /// one comes first, and those of equal seconds come by their ids.
    ///
    /// Allocates the list, and space for each commit that is known.
    ///
    /// # Errors
    ///
    /// [`AllocError`] if an allocation fails.
    pub fn list(&self, alloc: Global) -> Result<Vec<ObjectId>, AllocError>
        requires { self.now.wanted ≡ None }
        ensures bases { IfOk result (λ ids. AreMergeBases (searched_graph self.now)
            self.now.one self.now.other ids.items) }
        ensures exact { IfOk result (λ ids. (commits : Id → Option (NodeView Id))
            → IsIncluded (searched_graph self.now) (graph_of commits) → IsAcyclic (graph_of commits)
            → AreMergeBases (graph_of commits) self.now.one self.now.other ids.items) }
        ensures order { IfOk result (λ ids. (commits : Id → Option (NodeView Id))
            → IsIncluded (searched_graph self.now) (graph_of commits)
            → AreNewestFirst (graph_of commits) ids.items) }
    {
        let None = self.next_wanted() else {
            unreachable!()
        };
        let reading = &self.known.reading;
        let numbers = candidates(alloc, reading.nodes(), reading.left(), reading.right())?;
        newest_first(alloc, &self.known, &numbers)
    }
}

// Tests whether the search has read enough, if it is time for a test.
fn has_read_enough(alloc: Global, reading: &Reading, next_test: usize) -> Result<bool, AllocError>
    ensures { IfOk result (λ is.
        (one other : ℕ) → HasMarks reading.now.nodes (one ∷ []) reading.now.left
        → HasMarks reading.now.nodes (other ∷ []) reading.now.right → IsTrue is
        → IsSettledBases (graph_at reading.now.nodes) one other) }
{
    if reading.reads() < next_test {
        return Ok(false);
    }
    is_settled_bases(alloc, reading.nodes(), reading.left(), reading.right())
}
