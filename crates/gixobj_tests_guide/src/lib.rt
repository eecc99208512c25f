//! Tests of README's example and of the guide's tasks about objects.
#![tactic(auto)]

#[cfg(test)]
mod readme;
#[cfg(test)]
mod rewriting_tasks;
#[cfg(test)]
mod tasks;
