//! A search whether a commit is an ancestor of another one.
ghost use Rattle.std.specs.Prelude.{◌≡◌, ◌↔◌, ◌⊎◌, ◌+◌, None, Some, Option, IfOk, IsSome, IsTrue};
ghost use Rattle.gixobj_hash.specs.declared.hash.object_id.ObjectId.{ObjectId as Id};
ghost use Rattle.gixobj_walks_graph.specs.Graph.{IsAcyclic, IsIncluded, NodeView, Reaches};
ghost use Rattle.gixobj_walks_marks.specs.Readings.{reads};
ghost use Rattle.gixobj_walks.specs.Named.{graph_of};
ghost use Rattle.gixobj_walks.specs.Search.{searched_graph};

use crate::walk::Walk;
use gixobj_hash::hash::ObjectId;
use std::alloc::{AllocError, Global};
use std::marker::Model;

/// A search whether a commit reaches another one, which then is an ancestor of it or the same (git-merge-base,
/// `--is-ancestor`).
///
/// It has no store: it requests the commits that it needs, one after the other, until it needs no more.
/// [`AncestorSearch::next_wanted`] returns the id of the next one, and [`AncestorSearch::insert`] takes its parents and
/// its seconds.
///
/// An insertion that fails consumes the search.
#[derive(Drop)]
pub struct AncestorSearch {
    walk: Walk,
    ancestor: ObjectId,
    descendant: ObjectId,
}

impl Model for AncestorSearch {
    ghost use Rattle.std.specs.Prelude.{◌≡◌, ◌∷◌, []};
    ghost use Rattle.gixobj_walks.specs.Search.{SearchView};

    ghost Value = { SearchView };

    ghost view = { λ search. record {
      one = search.ancestor;
      other = search.descendant;
      ids = search.walk.ids;
      nodes = search.walk.nodes;
      wanted = search.walk.wanted;
    } };

    ghost invariant = { λ search. (search.walk.tips ≡ search.ancestor ∷ [])
        × (search.walk.hidden ≡ search.descendant ∷ []) };
}

impl AncestorSearch {
    /// Begins a search whether the first commit is an ancestor of the second, or the same.
    ///
    /// Allocates space for both.
    ///
    /// # Errors
    ///
    /// [`AllocError`] if an allocation fails.
    pub fn new(
        alloc: Global,
        ancestor: ObjectId,
        descendant: ObjectId,
    ) -> Result<AncestorSearch, AllocError>
        ensures ancestor { IfOk result (λ search. search.one ≡ ancestor) }
        ensures descendant { IfOk result (λ search. search.other ≡ descendant) }
        ensures given { IfOk result (λ search.
            (id : Id) (node : NodeView Id) → ¬ searched_graph search id node) }
    {
        let walk = Walk::new(alloc, &[ancestor], &[descendant])?;
        Ok(AncestorSearch {
            walk,
            ancestor,
            descendant,
        })
    }

    /// Returns the id of the commit that the search needs next, or none if it needs no more. Allocates nothing.
    pub fn next_wanted(&self) -> Option<ObjectId>
        ensures { result ≡ self.now.wanted }
    {
        self.walk.next_wanted()
    }

    /// Takes the commit that the search needs next: its parents, in the order of its lines, and the seconds of its
    /// committer.
    ///
    /// Allocates a copy of the parents, and space for each that the search doesn't know.
    ///
    /// # Errors
    ///
    /// [`AllocError`] if an allocation fails.
    pub fn insert(
        self,
        alloc: Global,
        parents: &[ObjectId],
        seconds: u64,
    ) -> Result<AncestorSearch, AllocError>
        requires { IsSome self.wanted }
        ensures ancestor { IfOk result (λ search. search.one ≡ self.one) }
        ensures descendant { IfOk result (λ search. search.other ≡ self.other) }
        ensures given { IfOk result (λ search.
            (id commit : Id) (node : NodeView Id) → self.wanted ≡ Some commit
            → searched_graph search id node ↔ (searched_graph self id node
            ⊎ ((id ≡ commit) × (node ≡ record { parents = parents.now; seconds = seconds })))) }
        ensures reads { IfOk result (λ search. reads search.nodes ≡ reads self.nodes + 1) }
    {
        let AncestorSearch {
            walk,
            ancestor,
            descendant,
        } = self;
        let walk = walk.insert(alloc, parents, seconds)?;
        Ok(AncestorSearch {
            walk,
            ancestor,
            descendant,
        })
    }

    /// Tests whether the descendant reaches the ancestor. The search needs no more commits. Allocates nothing.
    ///
    /// So it is in each graph with the commits that were given, if no commit is an ancestor of itself.
    pub fn is_ancestor(&self) -> bool
        requires { self.now.wanted ≡ None }
        ensures exact { (commits : Id → Option (NodeView Id))
            → IsIncluded (searched_graph self.now) (graph_of commits) → IsAcyclic (graph_of commits)
            → IsTrue result ↔ Reaches (graph_of commits) self.now.other self.now.one }
    {
        self.walk.is_hidden(&self.ancestor)
    }
}
