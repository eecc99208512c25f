//! Imports beyond their contracts, with samples that other tests share.
//!
//! The tests have the ids that `git` prints, the error of a step, and the store after it.

#[cfg(test)]
mod allocation_failures;
#[cfg(test)]
mod errors;
#[cfg(test)]
mod not_stored;
pub mod samples;
#[cfg(test)]
mod thousand;
#[cfg(test)]
mod three_steps;
