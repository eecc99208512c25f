//! What a walk has read and marked.
ghost use Rattle.std.specs.Prelude.{◌≡◌, ◌<◌, ◌≤◌, ◌+◌, ◌↔◌, ◌⊎◌, ℕ, None, Some, IfNone, IfOk, IfSome, IsTrue};
ghost use Rattle.std.specs.Prelude.{OnErr, OnOk, List, [], ◌∷◌, ◌++◌, false, length, replicate, slice_set};
ghost use Rattle.std.specs.List.{AllByRecursion};
ghost use Rattle.std.specs.List.Sorted.{IsPermutation};
ghost use Rattle.std.specs.BinaryHeap.{heap_items};
ghost use Rattle.gixobj_walks_graph.specs.Graph.{IsRead};
ghost use Rattle.gixobj_walks_graph.specs.Numbered.{AreParentsKnown, IsMarked, graph_at};
ghost use Rattle.gixobj_walks_marks.specs.Marks.{HasMarks};
ghost use Rattle.gixobj_walks_marks.specs.Queue.{next_of};
ghost use Rattle.gixobj_walks_marks.specs.Readings.{AddsStart, IsReading, IsUnread, KeepsMarks, ReplacesNext, reads};

use crate::passing::{mark_start, pass_mark};
use crate::queue::{Unread, take_out};
use gixobj_walks_graph::Node;
use std::alloc::{AllocError, Global};
use std::collections::BinaryHeap;
use std::marker::Model;

/// The commits that a walk knows, each read or not, with the marks of two sides of starts.
///
/// The sides of a walk are its tips and its hidden commits (git-rev-list). Those of a search for merge bases are the
/// two commits (git-merge-base). A commit has the mark of a side if one of its starts reaches it by commits that are
/// read.
///
/// Commits are known by numbers, in the order in which they were added. Of those that are not read, the one with the
/// newest child is next.
///
/// A call that fails consumes the value.
#[derive(Drop)]
pub struct Reading {
    nodes: Vec<Option<Node>>,
    left: Vec<bool>,
    right: Vec<bool>,
    queue: BinaryHeap<Unread>,
    read: usize,
}

impl Model for Reading {
    ghost use Rattle.std.specs.BinaryHeap.{heap_items};
    ghost use Rattle.gixobj_walks_marks.specs.Queue.{next_of};
    ghost use Rattle.gixobj_walks_marks.specs.Readings.{IsReading, ReadingView};

    ghost Value = { ReadingView };

    ghost view = { λ r. record {
      nodes = r.nodes.items;
      left = r.left.items;
      right = r.right.items;
      next = next_of (heap_items r.queue);
    } };

    ghost invariant = { λ r. IsReading r.nodes.items r.left.items r.right.items
        (heap_items r.queue) r.read };
}

impl Reading {
    /// Knows no commit.
    pub fn new(alloc: Global) -> Reading
        ensures nodes { result.nodes ≡ [] }
        ensures left { HasMarks result.nodes [] result.left }
        ensures right { HasMarks result.nodes [] result.right }
    {
        Reading {
            nodes: Vec::new(alloc),
            left: Vec::new(alloc),
            right: Vec::new(alloc),
            queue: BinaryHeap::new(alloc),
            read: 0,
        }
    }

    /// Returns how many commits are known.
    pub fn len(&self) -> usize
        ensures { result ≡ length self.now.nodes }
    {
        self.nodes.len()
    }

    /// Returns how many commits are read.
    pub fn reads(&self) -> usize
        ensures count { result ≡ reads self.now.nodes }
        ensures maximum { result ≤ length self.now.nodes }
    {
        self.read
    }

    /// Returns the known commits by their numbers, each with its parents if it is read.
    pub fn nodes(&self) -> &[Option<Node>]
        ensures nodes { result.now ≡ self.now.nodes }
        ensures known { AreParentsKnown self.now.nodes }
    {
        self.nodes.as_slice()
    }

    /// Returns which commits the starts of the left side reach, by their numbers.
    pub fn left(&self) -> &[bool]
        ensures left { result.now ≡ self.now.left }
        ensures length { length self.now.left ≡ length self.now.nodes }
    {
        self.left.as_slice()
    }

    /// Returns which commits the starts of the right side reach, by their numbers.
    pub fn right(&self) -> &[bool]
        ensures right { result.now ≡ self.now.right }
        ensures length { length self.now.right ≡ length self.now.nodes }
    {
        self.right.as_slice()
    }

    /// Tests whether a commit is read.
    pub fn is_read(&self, number: usize) -> bool
        requires { number < length self.now.nodes }
        ensures { IsTrue result ↔ IsRead (graph_at self.now.nodes) number }
    {
        self.nodes[number].is_some()
    }

    /// Tests whether a start of the left side reaches a commit.
    pub fn is_left(&self, number: usize) -> bool
        requires { number < length self.now.nodes }
        ensures { IsTrue result ↔ IsMarked self.now.left number }
    {
        self.left[number]
    }

    /// Tests whether a start of the right side reaches a commit.
    pub fn is_right(&self, number: usize) -> bool
        requires { number < length self.now.nodes }
        ensures { IsTrue result ↔ IsMarked self.now.right number }
    {
        self.right[number]
    }

    /// Returns the number of the commit that is to be read next, unless all are read.
    pub fn next_unread(&self) -> Option<usize>
        ensures next { result ≡ self.now.next }
        ensures none { IfNone result ((number : ℕ) → number < length self.now.nodes
            → IsRead (graph_at self.now.nodes) number) }
        ensures unread { IfSome result (λ number. IsUnread self.now.nodes number) }
    {
        match self.queue.peek() {
            Some(first) => Some(first.number),
            None => None,
        }
    }

    /// Adds a commit that is not read and has no mark, and returns its number.
    ///
    /// The seconds are those of the child that it was found by. Of a start any will do, as the largest.
    ///
    /// Allocates its entries.
    ///
    /// # Errors
    ///
    /// [`AllocError`] if an allocation fails.
    pub fn add(self, seconds: u64) -> Result<(Reading, usize), AllocError>
        ensures number { IfOk result (λ added. added.1 ≡ length self.nodes) }
        ensures nodes { IfOk result (λ added. added.0.nodes ≡ self.nodes ++ None ∷ []) }
        ensures left { IfOk result (λ added.
            KeepsMarks self.nodes self.left added.0.nodes added.0.left) }
        ensures right { IfOk result (λ added.
            KeepsMarks self.nodes self.right added.0.nodes added.0.right) }
    {
        let Reading {
            mut nodes,
            mut left,
            mut right,
            mut queue,
            read,
        } = self;
        let number = push_unread(&mut nodes, &mut left, &mut right, &mut queue, seconds)?;
        let added = Reading {
            nodes,
            left,
            right,
            queue,
            read,
        };
        Ok((added, number))
    }

    /// Makes a commit a start of the left side: marks it and what it reaches.
    ///
    /// Allocates as [`mark_reached`], and nothing if the commit has the mark.
    ///
    /// # Errors
    ///
    /// [`AllocError`] if an allocation fails.
    pub fn mark_left(self, alloc: Global, start: usize) -> Result<Reading, AllocError>
        requires { start < length self.nodes }
        ensures nodes { IfOk result (λ marked. marked.nodes ≡ self.nodes) }
        ensures left { IfOk result (λ marked. AddsStart self.nodes start self.left marked.left) }
        ensures right { IfOk result (λ marked. marked.right ≡ self.right) }
        ensures next { IfOk result (λ marked. marked.next ≡ self.next) }
        ensures allocates { OnErr result (¬ IsMarked self.left start) }
    {
        let Reading {
            nodes,
            mut left,
            right,
            queue,
            read,
        } = self;
        mark_start(alloc, &nodes, &mut left, start)?;
        Ok(Reading {
            nodes,
            left,
            right,
            queue,
            read,
        })
    }

    /// Makes a commit a start of the right side: marks it and what it reaches.
    ///
    /// Allocates as [`mark_reached`], and nothing if the commit has the mark.
    ///
    /// # Errors
    ///
    /// [`AllocError`] if an allocation fails.
    pub fn mark_right(self, alloc: Global, start: usize) -> Result<Reading, AllocError>
        requires { start < length self.nodes }
        ensures nodes { IfOk result (λ marked. marked.nodes ≡ self.nodes) }
        ensures left { IfOk result (λ marked. marked.left ≡ self.left) }
        ensures right { IfOk result (λ marked. AddsStart self.nodes start self.right marked.right) }
        ensures next { IfOk result (λ marked. marked.next ≡ self.next) }
        ensures allocates { OnErr result (¬ IsMarked self.right start) }
    {
        let Reading {
            nodes,
            left,
            mut right,
            queue,
            read,
        } = self;
        mark_start(alloc, &nodes, &mut right, start)?;
        Ok(Reading {
            nodes,
            left,
            right,
            queue,
            read,
        })
    }

    /// Reads the commit that is next: keeps its parents and its seconds, and passes its marks to what it reaches now.
    ///
    /// The number is that of [`next_unread`](Reading::next_unread). As many commits as `added` says become known by it,
    /// and have the next numbers. Each parent is known then.
    ///
    /// Allocates as [`mark_reached`] for each parent and each mark, and entries of the commits that become known.
    ///
    /// # Errors
    ///
    /// [`AllocError`] if an allocation fails.
    pub fn read(
        self,
        alloc: Global,
        number: usize,
        parents: Vec<usize>,
        added: usize,
        seconds: u64,
    ) -> Result<Reading, AllocError>
        requires next { self.next ≡ Some number }
        requires parents { AllByRecursion (λ parent. parent < length self.nodes + added)
            parents.items }
        ensures nodes { IfOk result (λ done. done.nodes
            ≡ slice_set (self.nodes ++ replicate added None) number
            (Some (record { parents = parents.items; seconds = seconds }))) }
        ensures left { IfOk result (λ done.
            KeepsMarks self.nodes self.left done.nodes done.left) }
        ensures right { IfOk result (λ done.
            KeepsMarks self.nodes self.right done.nodes done.right) }
        ensures reads { IfOk result (λ done. reads done.nodes ≡ reads self.nodes + 1) }
        ensures allocates { OnErr result ((0 < added) ⊎ (0 < length parents.items)) }
    {
        let Reading {
            mut nodes,
            mut left,
            mut right,
            mut queue,
            read,
        } = self;
        replace_next(
            &mut nodes, &mut left, &mut right, &mut queue, number, added, seconds, read,
        )?;
        pass_mark(alloc, &nodes, &mut left, number, &parents)?;
        pass_mark(alloc, &nodes, &mut right, number, &parents)?;
        nodes[number] = Some(Node { parents, seconds });
        Ok(Reading {
            nodes,
            left,
            right,
            queue,
            read: read + 1,
        })
    }
}

/// Takes the next commit out of the queue, and adds commits that are not read and have no mark.
fn replace_next(
    nodes: &mut Vec<Option<Node>>,
    left: &mut Vec<bool>,
    right: &mut Vec<bool>,
    queue: &mut BinaryHeap<Unread>,
    number: usize,
    added: usize,
    seconds: u64,
    read: usize,
) -> Result<(), AllocError>
    requires next { next_of (heap_items queue.old) ≡ Some number }
    requires reading { IsReading nodes.old.items left.old.items right.old.items
        (heap_items queue.old) read }
    ensures replaced { OnOk result (ReplacesNext number added
        nodes.old.items left.old.items right.old.items
        nodes.new.items left.new.items right.new.items (heap_items queue.new) read) }
    ensures allocates { OnErr result (0 < added) }
{
    take_out(queue, number);
    for _ in 0..added {
        push_unread(nodes, left, right, queue, seconds)?;
    }
    Ok(())
}

/// Adds a commit that is not read and has no mark, and returns its number.
fn push_unread(
    nodes: &mut Vec<Option<Node>>,
    left: &mut Vec<bool>,
    right: &mut Vec<bool>,
    queue: &mut BinaryHeap<Unread>,
    seconds: u64,
) -> Result<usize, AllocError>
    ensures nodes { OnOk result (nodes.new.items ≡ nodes.old.items ++ None ∷ []) }
    ensures number { IfOk result (λ number. number ≡ length nodes.old.items) }
    ensures left { OnOk result (left.new.items ≡ left.old.items ++ false ∷ []) }
    ensures right { OnOk result (right.new.items ≡ right.old.items ++ false ∷ []) }
    ensures queue { OnOk result (IsPermutation
        (record { seconds = seconds; number = length nodes.old.items } ∷ heap_items queue.old)
        (heap_items queue.new)) }
{
    let number = nodes.len();
    queue.push(Unread { seconds, number })?;
    nodes.push(None)?;
    left.push(false)?;
    right.push(false)?;
    Ok(number)
}
