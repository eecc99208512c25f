//! A walk that requests the commits that it needs.
ghost use Rattle.std.specs.Prelude.{◌≡◌, ◌↔◌, ◌⊎◌, ◌+◌, ◌≤◌, None, Some, ℕ, List, Option, IfErr, IfNone, IfOk};
ghost use Rattle.std.specs.Prelude.{Contains, IfSome, IsSome, IsTrue};
ghost use Rattle.gixobj_hash.specs.declared.hash.object_id.ObjectId.{ObjectId as Id};
ghost use Rattle.gixobj_walks_graph.specs.Graph.{IsAcyclic, IsIncluded, IsReachedFrom, NodeView};
ghost use Rattle.gixobj_walks_graph.specs.Walks.{IsWalk};
ghost use Rattle.gixobj_walks_marks.specs.Readings.{reads};
ghost use Rattle.gixobj_walks_graph.specs.Numbered.{graph_at};
ghost use Rattle.gixobj_walks_marks.specs.Marks.{HasMarks};
ghost use Rattle.gixobj_walks_marks.specs.Settled.{IsSettledWalk};
ghost use Rattle.gixobj_walks.specs.Machine.{given_graph};
ghost use Rattle.gixobj_walks.specs.Named.{AreOfEither, graph_of};
ghost use Rattle.gixobj_walks.specs.WalkErrors.{IsWalkListError};

use crate::known::{KnownCommits, test_after};
use crate::names::ids_of;
use gixobj_hash::hash::ObjectId;
use gixobj_walks_graph::Order;
use gixobj_walks_marks::{Reading, is_settled_walk, selected};
use gixobj_walks_order::{ListError, list_in_order};
use std::alloc::{AllocError, Global};
use std::marker::Model;

/// A walk over the commits that some tips reach and no hidden commit reaches (git-rev-list, `TIP.. ^HIDDEN..`).
///
/// It has no store: it requests the commits that it needs, one after the other, until it needs no more.
/// [`Walk::next_wanted`] returns the id of the next one, and [`Walk::insert`] takes its parents and its seconds.
///
/// An insertion that fails consumes the walk.
#[derive(Drop)]
pub struct Walk {
    known: KnownCommits,
    tips: Vec<usize>,
    hidden: Vec<usize>,
    is_settled: bool,
    next_test: usize,
}

impl Model for Walk {
    ghost use Rattle.gixobj_walks.specs.Machine.{IsWalking, WalkView, names_of, wanted_of};

    ghost Value = { WalkView };

    ghost view = { λ walk. record {
      tips = names_of walk.known.names walk.tips.items;
      hidden = names_of walk.known.names walk.hidden.items;
      ids = walk.known.names;
      nodes = walk.known.reading.nodes;
      wanted = wanted_of walk.is_settled walk.known.names walk.known.reading.next;
    } };

    ghost invariant = { λ walk. IsWalking walk.known.names walk.known.reading
        walk.tips.items walk.hidden.items walk.is_settled };
}

impl Walk {
    /// Begins a walk from tips, without what hidden commits reach. A commit may be given several times.
    ///
    /// Allocates space for each commit.
    ///
    /// # Errors
    ///
    /// [`AllocError`] if an allocation fails.
    pub fn new(alloc: Global, tips: &[ObjectId], hidden: &[ObjectId]) -> Result<Walk, AllocError>
        ensures tips { IfOk result (λ walk. walk.tips ≡ tips.now) }
        ensures hidden { IfOk result (λ walk. walk.hidden ≡ hidden.now) }
        ensures given { IfOk result (λ walk.
            (id : Id) (node : NodeView Id) → ¬ given_graph walk id node) }
        ensures known { IfOk result (λ walk. AreOfEither walk.ids tips.now hidden.now) }
    {
        let (known, tips, hidden) = KnownCommits::begin(alloc, tips, hidden)?;
        Ok(Walk {
            known,
            tips,
            hidden,
            is_settled: false,
            next_test: 1,
        })
    }

    /// Returns the id of the commit that the walk needs next, or none if it needs no more. Allocates nothing.
    ///
    /// Then what was not given changes nothing: each commit that is known and was not given is hidden, and an ancestor
    /// of each selected commit.
    pub fn next_wanted(&self) -> Option<ObjectId>
        ensures wanted { result ≡ self.now.wanted }
        ensures settled { IfNone result
            (IsSettledWalk (given_graph self.now) self.now.tips self.now.hidden) }
        ensures known { IfSome result (Contains self.now.ids) }
    {
        if self.is_settled {
            return None;
        }
        self.known.next_unread()
    }

    /// Takes the commit that the walk needs next: its parents, in the order of its lines, and the seconds of its
    /// committer.
    ///
    /// Allocates a copy of the parents, and space for each that the walk doesn't know.
    ///
    /// # Errors
    ///
    /// [`AllocError`] if an allocation fails.
    pub fn insert(
        self,
        alloc: Global,
        parents: &[ObjectId],
        seconds: u64,
    ) -> Result<Walk, AllocError>
        requires { IsSome self.wanted }
        ensures tips { IfOk result (λ walk. walk.tips ≡ self.tips) }
        ensures hidden { IfOk result (λ walk. walk.hidden ≡ self.hidden) }
        ensures given { IfOk result (λ walk.
            (id commit : Id) (node : NodeView Id) → self.wanted ≡ Some commit
            → given_graph walk id node ↔ (given_graph self id node
            ⊎ ((id ≡ commit) × (node ≡ record { parents = parents.now; seconds = seconds })))) }
        ensures reads { IfOk result (λ walk. reads walk.nodes ≡ reads self.nodes + 1) }
        ensures maximum { IfOk result (λ walk. reads walk.nodes ≤ usize.MAX) }
        ensures known { IfOk result (λ walk. AreOfEither walk.ids self.ids parents.now) }
    {
        let Walk {
            known,
            tips,
            hidden,
            next_test,
            ..
        } = self;
        let known = known.insert(alloc, parents, seconds)?;
        let is_settled = has_read_enough(alloc, &known.reading, next_test)?;
        let next_test = test_after(known.reading.reads(), next_test);
        Ok(Walk {
            known,
            tips,
            hidden,
            is_settled,
            next_test,
        })
    }

    /// Lists the selected commits, those that a tip reaches and no hidden commit reaches, in this order (git-rev-list,
    /// `--date-order`, `--topo-order`). The walk needs no more commits.
    ///
    /// The list is that of each graph with the commits that were given, if no commit is an ancestor of itself.
    ///
    /// Allocates space for each commit that is known.
    ///
    /// # Errors
    ///
    /// - [`ListError::Cycle`] if a commit is an ancestor of itself
    /// - [`ListError::OutOfMemory`] if an allocation fails
    pub fn list(&self, alloc: Global, order: Order) -> Result<Vec<ObjectId>, ListError>
        requires { self.now.wanted ≡ None }
        ensures walk { IfOk result (λ ids. IsWalk (given_graph self.now) order
            self.now.tips self.now.hidden ids.items) }
        ensures exact { IfOk result (λ ids. (commits : Id → Option (NodeView Id))
            → IsIncluded (given_graph self.now) (graph_of commits) → IsAcyclic (graph_of commits)
            → IsWalk (graph_of commits) order self.now.tips self.now.hidden ids.items) }
        ensures error { IfErr result (IsWalkListError self.now) }
    {
        let None = self.next_wanted() else {
            unreachable!()
        };
        let reading = &self.known.reading;
        let chosen = selected(alloc, reading.left(), reading.right())?;
        let numbers = list_in_order(alloc, reading.nodes(), &chosen, &self.tips, order)?;
        Ok(ids_of(alloc, &self.known.names, &numbers)?)
    }

    /// Tests whether a hidden commit reaches a tip. The walk needs no more commits. Allocates nothing.
    ///
    /// So it is in each graph with the commits that were given, if no commit is an ancestor of itself.
    pub fn is_hidden(&self, tip: &ObjectId) -> bool
        requires ended { self.now.wanted ≡ None }
        requires tip { Contains self.now.tips tip.now }
        ensures exact { (commits : Id → Option (NodeView Id))
            → IsIncluded (given_graph self.now) (graph_of commits) → IsAcyclic (graph_of commits)
            → IsTrue result ↔ IsReachedFrom (graph_of commits) self.now.hidden tip.now }
    {
        let None = self.next_wanted() else {
            unreachable!()
        };
        match self.known.names.number_of(tip) {
            Some(number) => self.known.reading.is_right(number),
            None => false,
        }
    }
}

// Tests whether the walk has read enough, if it is time for a test.
fn has_read_enough(alloc: Global, reading: &Reading, next_test: usize) -> Result<bool, AllocError>
    ensures { IfOk result (λ is.
        (tips hidden : List ℕ) → HasMarks reading.now.nodes tips reading.now.left
        → HasMarks reading.now.nodes hidden reading.now.right → IsTrue is
        → IsSettledWalk (graph_at reading.now.nodes) tips hidden) }
{
    if reading.reads() < next_test {
        return Ok(false);
    }
    is_settled_walk(alloc, reading.nodes(), reading.left(), reading.right())
}
