//! Tests of scripts and of lists of commands, run over stores that fail, and of the program, which shows and lists
//! objects and runs scripts.
#![tactic(auto)]

#[cfg(test)]
mod engine;
#[cfg(test)]
mod loose;
#[cfg(test)]
mod runs;
#[cfg(test)]
mod streams;
