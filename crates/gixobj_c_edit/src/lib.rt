//! Edits of stored trees, for C and for languages that call C.
//!
//! The call takes the stored trees as bytes and returns the new ones as bytes. It keeps nothing, and returns nothing
//! that is to be freed. Its statuses are those of [`gixobj_c_codes::codes`].
#![tactic(auto)]

mod edits;
mod failure;
mod frames;
mod lossy;
mod replies;
mod roots;
