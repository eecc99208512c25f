//! Runs of scripts and of lists of commands over a store that counts its calls and fails in some, and their
//! reports.

mod allocation_failures;
mod entire_runs;
mod error_halfway;
mod not_stored;
mod replies;
mod samples;
mod write_errors;
