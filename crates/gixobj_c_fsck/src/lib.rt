//! Git's messages about objects, for C and for languages that call C.
//!
//! The calls take bytes and numbers, and write what they found through their last parameters. They keep nothing, and
//! return nothing that is to be freed. Their statuses are those of [`gixobj_c_codes::codes`].
#![tactic(auto)]

mod findings;
mod messages;
mod reports;
