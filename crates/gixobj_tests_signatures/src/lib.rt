//! Tests of `gixobj_signature`, of the signatures of commits and tags, and of their formats.
#![tactic(auto)]

#[cfg(test)]
mod calls;
#[cfg(test)]
mod commits;
#[cfg(test)]
mod objects;
pub mod scripted;
#[cfg(test)]
mod signature;
#[cfg(test)]
mod signed;
#[cfg(test)]
mod signing;
#[cfg(test)]
mod tags;
#[cfg(test)]
mod verifying;
