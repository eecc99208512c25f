//! The program's command `show`, which prints the kind, the size and the id of an uncompressed loose object.
//! The arguments, the input and the errors of all commands are here too.
#![tactic(auto)]

pub mod arguments;
pub mod engine;
pub mod failure;
pub mod input;
pub mod show;

pub use failure::Failure;
