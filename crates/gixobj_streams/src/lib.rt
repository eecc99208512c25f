//! Sources and sinks of bytes, and the errors of writers of objects.
#![tactic(auto)]

pub mod encode;
pub mod short;
pub mod streams;
