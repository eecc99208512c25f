//! Tests of `gixobj_base`, and a failing writer and a failing reader for the tests of higher crates.
#![tactic(auto)]

#[cfg(test)]
mod actor;
#[cfg(test)]
mod blob;
#[cfg(test)]
mod borrowed;
#[cfg(test)]
mod date;
#[cfg(test)]
mod fields;
#[cfg(test)]
mod helpers;
pub mod limited;
#[cfg(test)]
mod loose;
#[cfg(test)]
mod memory;
#[cfg(test)]
mod public_paths;
#[cfg(test)]
mod stream_hash;
#[cfg(test)]
mod streams;
#[cfg(test)]
mod traits;
#[cfg(test)]
mod tree;
