//! Tests of the editor of nested trees and of its cursors: single edits, entries, writes and copies.
#![tactic(auto)]

#[cfg(test)]
mod allocation_failures;
#[cfg(test)]
mod cursor_calls;
#[cfg(test)]
mod cursor_writes;
#[cfg(test)]
mod entries;
#[cfg(test)]
mod faulty;
#[cfg(test)]
mod many_directories;
#[cfg(test)]
mod references;
#[cfg(test)]
mod samples;
#[cfg(test)]
mod unchanged;
#[cfg(test)]
mod writes;
