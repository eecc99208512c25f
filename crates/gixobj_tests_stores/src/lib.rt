//! Tests of stores, of lookups in them and of writes into them.
#![tactic(auto)]

#[cfg(test)]
mod allocation_failures;
#[cfg(test)]
mod existing;
pub mod failing;
#[cfg(test)]
mod ids;
#[cfg(test)]
mod memory;
#[cfg(test)]
mod never;
#[cfg(test)]
mod paths;
#[cfg(test)]
mod received;
#[cfg(test)]
mod recording;
#[cfg(test)]
mod samples;
#[cfg(test)]
mod stores;
#[cfg(test)]
mod written;
