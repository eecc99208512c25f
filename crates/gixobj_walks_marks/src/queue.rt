//! The queue of the commits that are known and not read yet.
ghost use Rattle.std.specs.Prelude.{◌≡◌, Some};
ghost use Rattle.std.specs.BinaryHeap.{heap_items};
ghost use Rattle.gixobj_walks_marks.specs.Queue.{IsTakenOut, next_of};

use std::collections::BinaryHeap;

/// A commit that is known and not read yet. The one with the newest child comes first.
#[derive(Clone, Copy, PartialEq, Eq, PartialOrd, Ord)]
pub(crate) struct Unread {
    /// The seconds of the child that it was found by.
    pub(crate) seconds: u64,
    /// Its number.
    pub(crate) number: usize,
}

/// Takes the first commit out of the queue.
pub(crate) fn take_out(queue: &mut BinaryHeap<Unread>, number: usize)
    requires { next_of (heap_items queue.old) ≡ Some number }
    ensures { IsTakenOut number (heap_items queue.old) (heap_items queue.new) }
{
    let _first = queue.pop();
}
