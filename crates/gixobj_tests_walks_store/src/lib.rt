//! Tests of walks over a store.
#![tactic(auto)]

#[cfg(test)]
mod lists;
