//! The commits that a walk or a search knows by their ids.
ghost use Rattle.std.specs.Prelude.{◌≡◌, ◌↔◌, ◌⊎◌, ◌+◌, ◌++◌, ◌/◌, ◌<◌, ◌≤◌, None, Some, [], false, ℕ, Bool, List};
ghost use Rattle.std.specs.Prelude.{IfNone, IfOk, IfSome, IsSome, Contains, length, min, replicate};
ghost use Rattle.std.specs.List.{AllByRecursion, AllZip};
ghost use Rattle.gixobj_hash.specs.declared.hash.object_id.ObjectId.{ObjectId as Id};
ghost use Rattle.gixobj_walks_graph.specs.Graph.{IsRead, NodeView};
ghost use Rattle.gixobj_walks_graph.specs.Numbered.{AreParentsKnown, graph_at};
ghost use Rattle.gixobj_walks_marks.specs.Marks.{HasMarks};
ghost use Rattle.gixobj_walks_marks.specs.Readings.{KeepsMarks, reads};
ghost use Rattle.gixobj_walks.specs.Machine.{IsWalking, wanted_of};
ghost use Rattle.gixobj_walks.specs.Named.{AreOfEither, Extends, Names, named_graph};

use crate::names::{CommitNames, numbers_in};
use gixobj_hash::hash::ObjectId;
use gixobj_walks_marks::Reading;
use std::alloc::{AllocError, Global};

/// The commits that a walk or a search knows: their ids, and by their numbers what is read of them.
#[derive(Drop)]
pub struct KnownCommits {
    /// The ids of the commits.
    pub names: CommitNames,
    /// The commits, each read or not, with the marks of two sides.
    pub reading: Reading,
}

impl KnownCommits {
    /// Begins with the starts of both sides, and returns their numbers. No commit is read.
    ///
    /// # Errors
    ///
    /// [`AllocError`] if an allocation fails.
    pub fn begin(
        alloc: Global,
        left: &[ObjectId],
        right: &[ObjectId],
    ) -> Result<(KnownCommits, Vec<usize>, Vec<usize>), AllocError>
        ensures left { IfOk result (λ begun. AllZip (Names begun.0.names) begun.1.items left.now) }
        ensures right { IfOk result (λ begun.
            AllZip (Names begun.0.names) begun.2.items right.now) }
        ensures kept { IfOk result (λ begun. IsWalking begun.0.names begun.0.reading
            begun.1.items begun.2.items false) }
        ensures given { IfOk result (λ begun. (id : Id) (node : NodeView Id)
            → ¬ named_graph begun.0.names begun.0.reading.nodes id node) }
        ensures known { IfOk result (λ begun. AreOfEither begun.0.names left.now right.now) }
    {
        let mut names = CommitNames::new(alloc);
        let left = numbers_in(alloc, &mut names, left)?;
        let right = numbers_in(alloc, &mut names, right)?;
        let reading = unread(Reading::new(alloc), names.len())?;
        let reading = mark_left(alloc, reading, &left)?;
        let reading = mark_right(alloc, reading, &right)?;
        Ok((KnownCommits { names, reading }, left, right))
    }

    /// Returns the id of the commit that is to be read next, unless all are read.
    pub fn next_unread(&self) -> Option<ObjectId>
        requires { length self.now.reading.nodes ≡ length self.now.names }
        ensures next { result ≡ wanted_of false self.now.names self.now.reading.next }
        ensures none { IfNone result ((number : ℕ) → number < length self.now.reading.nodes
            → IsRead (graph_at self.now.reading.nodes) number) }
        ensures known { IfSome result (Contains self.now.names) }
    {
        match self.reading.next_unread() {
            Some(number) => Some(self.names.id_of(number)),
            None => None,
        }
    }

    /// Reads the commit that is next: its parents, in the order of its lines, and the seconds of its committer.
    ///
    /// # Errors
    ///
    /// [`AllocError`] if an allocation fails.
    pub fn insert(
        self,
        alloc: Global,
        parents: &[ObjectId],
        seconds: u64,
    ) -> Result<KnownCommits, AllocError>
        requires next { IsSome self.reading.next }
        requires lengths { length self.reading.nodes ≡ length self.names }
        requires known { AreParentsKnown self.reading.nodes }
        ensures names { IfOk result (λ done. Extends self.names done.names) }
        ensures kept { IfOk result (λ done. (left right : List ℕ) (settled : Bool)
            → IsWalking self.names self.reading left right settled
            → IsWalking done.names done.reading left right false) }
        ensures given { IfOk result (λ done. (id commit : Id) (node : NodeView Id)
            → wanted_of false self.names self.reading.next ≡ Some commit
            → named_graph done.names done.reading.nodes id node
            ↔ (named_graph self.names self.reading.nodes id node
            ⊎ ((id ≡ commit) × (node ≡ record { parents = parents.now; seconds = seconds })))) }
        ensures reads { IfOk result (λ done.
            reads done.reading.nodes ≡ reads self.reading.nodes + 1) }
        ensures known { IfOk result (λ done. AreOfEither done.names self.names parents.now) }
    {
        let KnownCommits { mut names, reading } = self;
        let Some(number) = reading.next_unread() else {
            unreachable!()
        };
        let parents = numbers_in(alloc, &mut names, parents)?;
        let added = names.len() - reading.len();
        let reading = reading.read(alloc, number, parents, added, seconds)?;
        Ok(KnownCommits { names, reading })
    }
}

/// Returns with how many commits the next test is made whether enough are read: after a test, with a quarter more. So
/// the number of tests grows with the logarithm of that of the commits.
pub(crate) fn test_after(reads: usize, next_test: usize) -> usize
    ensures kept { reads < next_test → result ≡ next_test }
    ensures later { next_test ≤ reads → result ≡ min (reads + reads / 4 + 1) usize.MAX }
{
    if reads < next_test {
        next_test
    } else {
        reads.saturating_add(reads / 4).saturating_add(1)
    }
}

// Adds commits that are not read, and have no mark.
fn unread(reading: Reading, count: usize) -> Result<Reading, AllocError>
    ensures nodes { IfOk result (λ done. done.nodes ≡ reading.nodes ++ replicate count None) }
    ensures left { IfOk result (λ done.
        KeepsMarks reading.nodes reading.left done.nodes done.left) }
    ensures right { IfOk result (λ done.
        KeepsMarks reading.nodes reading.right done.nodes done.right) }
{
    let mut reading = reading;
    for _ in 0..count {
        let (more, _) = reading.add(u64::MAX)?;
        reading = more;
    }
    Ok(reading)
}

// Makes these commits the starts of the left side.
fn mark_left(alloc: Global, reading: Reading, starts: &[usize]) -> Result<Reading, AllocError>
    requires known { AllByRecursion (λ start. start < length reading.nodes) starts.now }
    requires none { HasMarks reading.nodes [] reading.left }
    ensures nodes { IfOk result (λ done. done.nodes ≡ reading.nodes) }
    ensures left { IfOk result (λ done. HasMarks done.nodes starts.now done.left) }
    ensures right { IfOk result (λ done. done.right ≡ reading.right) }
{
    let mut reading = reading;
    let mut index = starts.len();
    while index > 0 {
        index -= 1;
        reading = reading.mark_left(alloc, starts[index])?;
    }
    Ok(reading)
}

// Makes these commits the starts of the right side.
fn mark_right(alloc: Global, reading: Reading, starts: &[usize]) -> Result<Reading, AllocError>
    requires known { AllByRecursion (λ start. start < length reading.nodes) starts.now }
    requires none { HasMarks reading.nodes [] reading.right }
    ensures nodes { IfOk result (λ done. done.nodes ≡ reading.nodes) }
    ensures left { IfOk result (λ done. done.left ≡ reading.left) }
    ensures right { IfOk result (λ done. HasMarks done.nodes starts.now done.right) }
{
    let mut reading = reading;
    let mut index = starts.len();
    while index > 0 {
        index -= 1;
        reading = reading.mark_right(alloc, starts[index])?;
    }
    Ok(reading)
}
