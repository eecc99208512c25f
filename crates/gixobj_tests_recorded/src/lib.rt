//! Recorded answers: their format, and the comparison of tables of them.
#![tactic(auto)]

pub mod actors;
pub mod answer;
pub mod fields;
pub mod objects;
pub mod tables;
