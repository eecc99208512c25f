//! Tests of `gix_object`, with samples that other tests share.
#![tactic(auto)]

#[cfg(test)]
mod editor;
pub mod imports;
pub mod objects;
#[cfg(test)]
mod public_paths;
pub mod samples;
#[cfg(test)]
mod set_roots;
