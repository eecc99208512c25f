//! Helpers that the tests share: hashes, orders, copies, writers, and outcomes of allocation failures.

use gixobj_base::WriteTo;
use gixobj_tests_base::limited::Limited;
use std::alloc::Global;
use std::cmp::Ordering;
use std::hash::{DefaultHasher, Hash, Hasher};

// What holds of the parts of a value that has this pattern. It is false of any other value.
macro_rules! holds {
    ($value:expr, $pattern:pat => $condition:expr) => {
        match $value {
            $pattern => $condition,
            _ => false,
        }
    };
}

pub(crate) use holds;

// Whether a call's outcome is complete: that of a second call, if memory ran out in the first.
macro_rules! completes {
    ($call:expr) => {
        match $call {
            Answer::WithoutMemory => $call == Answer::Complete,
            outcome => outcome == Answer::Complete,
        }
    };
}

pub(crate) use completes;

/// Returns the hash of a value.
pub(crate) fn hash_of<T: Hash>(value: &T) -> u64 {
    let mut state = DefaultHasher::new();
    value.hash(&mut state);
    state.finish()
}

/// Returns whether values compare as wanted, and are equal with one hash if and only if `Equal` is wanted.
fn are_ordered<T: Ord + Hash>(first: &T, second: &T, wanted: Ordering) -> bool {
    first.cmp(second) == wanted
        && first.partial_cmp(second) == Some(wanted)
        && (first == second) == wanted.is_eq()
        && (hash_of(first) == hash_of(second)) == wanted.is_eq()
}

/// Returns whether the value at a position is greater than those before it, and less than those after it.
fn is_at<T: Ord + Hash>(values: &[T], at: usize, value: &T) -> bool {
    for (other_at, other) in values.iter().enumerate() {
        if !are_ordered(value, other, at.cmp(&other_at)) {
            return false;
        }
    }
    true
}

/// Returns whether each value is less than those after it.
pub(crate) fn are_in_order<T: Ord + Hash>(values: &[T]) -> bool {
    for (at, value) in values.iter().enumerate() {
        if !is_at(values, at, value) {
            return false;
        }
    }
    true
}

/// Returns whether a clone of each value equals it and has its hash.
pub(crate) fn are_copied<T: Clone + PartialEq + Hash + Drop>(values: &[T]) -> bool {
    for value in values {
        if !holds!(value.clone(), Ok(copy) => copy == *value && hash_of(&copy) == hash_of(value)) {
            return false;
        }
    }
    true
}

/// Returns whether an object has this encoding, and the size of the encoding.
pub(crate) fn is_written<T: WriteTo>(alloc: Global, object: &T, wanted: &[u8]) -> bool
    requires { T.can_write object.now }
{
    let mut out = Vec::new(alloc);
    object.size() == Some(wanted.len() as u64)
        && object.write_to(alloc, &mut out).is_ok()
        && out.as_slice() == wanted
}

/// Returns whether a writer with room for `room` bytes fails after that prefix of the encoding.
fn stops_at<T: WriteTo>(alloc: Global, object: &T, bytes: &[u8], room: usize) -> bool
    requires { T.can_write object.now }
{
    let held = Vec::new(alloc);
    let mut writer = Limited { held, room };
    let outcome = object.write_to(alloc, &mut writer);
    writer.stopped_at(&outcome, bytes, room)
}

/// Returns whether an object has this encoding, and each writer with less room fails after the prefix of that
/// length.
pub(crate) fn stops<T: WriteTo>(alloc: Global, object: &T, bytes: &[u8]) -> bool
    requires { T.can_write object.now }
{
    for room in 0..bytes.len() {
        if !stops_at(alloc, object, bytes, room) {
            return false;
        }
    }
    is_written(alloc, object, bytes)
}

/// The outcome of a call in which an allocation may fail.
#[derive(Clone, Copy, Debug, PartialEq, Eq)]
pub(crate) enum Answer {
    /// The result with ample memory.
    Complete,
    /// Out of memory, if the call may return it.
    WithoutMemory,
    /// Another result.
    Other,
}

impl Answer {
    /// Returns `Complete` if the result is right, and `Other` otherwise.
    pub(crate) fn complete_where(is_right: bool) -> Answer {
        if is_right {
            Answer::Complete
        } else {
            Answer::Other
        }
    }

    /// Combines the outcomes of two calls.
    pub(crate) fn and(self, other: Answer) -> Answer {
        match (self, other) {
            (Answer::Complete, it) | (it, Answer::Complete) => it,
            (Answer::WithoutMemory, Answer::WithoutMemory) => Answer::WithoutMemory,
            _ => Answer::Other,
        }
    }
}
