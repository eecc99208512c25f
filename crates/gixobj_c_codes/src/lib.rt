//! What the static libraries share: the numbers of hash functions and of kinds of objects, the statuses of calls, and
//! writes to buffers of the caller.
#![tactic(auto)]

pub mod buffers;
pub mod codes;
