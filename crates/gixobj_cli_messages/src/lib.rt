//! What git's messages mean, for the program.
#![tactic(auto)]

mod descriptions;

pub use descriptions::message_description;
