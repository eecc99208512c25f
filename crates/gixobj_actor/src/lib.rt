//! Actors and times, as the headers of commits and tags have them: decoded and encoded.
#![tactic(auto)]

pub mod actor;
pub mod date;
pub mod encode;
pub mod laws;
pub mod parse;
