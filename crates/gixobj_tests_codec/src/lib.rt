//! Tests of `gixobj_codec`.
#![tactic(auto)]

#[cfg(test)]
mod commit;
#[cfg(test)]
mod data;
#[cfg(test)]
mod helpers;
#[cfg(test)]
mod messages;
#[cfg(test)]
mod objects;
#[cfg(test)]
mod public_paths;
#[cfg(test)]
mod tags;
#[cfg(test)]
mod trees;
