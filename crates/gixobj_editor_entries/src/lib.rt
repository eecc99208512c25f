//! Lists in the order of their items' keys, in pieces, so that an insertion moves the items of one piece alone.
//!
//! The owner of a list holds it as two fields, a first piece and more pieces. An item is inserted into one
//! piece, and a piece of 128 items is split before. So a list of up to 128 items is its first piece alone,
//! unless more pieces were made of it before.
#![tactic(auto)]

mod gaps;
pub mod iter;
pub mod named;
pub mod pieces;
pub mod positions;
pub mod search;
pub mod splits;
