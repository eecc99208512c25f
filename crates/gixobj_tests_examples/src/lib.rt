//! Tests of the proved callers, which read and write objects, and edit, list and import trees.
#![tactic(auto)]

#[cfg(test)]
mod archives;
#[cfg(test)]
mod audits;
#[cfg(test)]
mod checkouts;
#[cfg(test)]
mod commits;
#[cfg(test)]
mod copies;
#[cfg(test)]
mod history;
#[cfg(test)]
mod imports;
#[cfg(test)]
mod listing;
#[cfg(test)]
mod messages;
#[cfg(test)]
mod mirrors;
#[cfg(test)]
mod object_samples;
#[cfg(test)]
mod plans;
#[cfg(test)]
mod releases;
#[cfg(test)]
mod samples;
#[cfg(test)]
mod signers;
#[cfg(test)]
mod tags;
#[cfg(test)]
mod uploads;
