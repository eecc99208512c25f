//! The program's command `tree`, which lists the entries of a loose tree, as lines `<mode> <kind> <id> <name>`.
//! It depends on no editor, so it builds faster than `edit`.
#![tactic(auto)]

pub mod engine;
pub mod tree;
