//! Tests of the guide's tasks about stores, trees and the editor.
#![tactic(auto)]

#[cfg(test)]
mod checking_tasks;
#[cfg(test)]
mod more_tasks;
#[cfg(test)]
mod printing_tasks;
#[cfg(test)]
mod tasks;
