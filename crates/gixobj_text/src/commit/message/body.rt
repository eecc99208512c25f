//! Trailers of a message body, and its messages with their trailers (git-interpret-trailers, "DESCRIPTION").

mod blocks;
mod filters;
mod git_generated;
mod line_counts;
mod lines;
mod scan;
mod trailer_lines;
mod trailers;

pub use blocks::{MessageBlock, MessageBlocks};
pub use filters::Filtered;
pub(super) use scan::block_start;
pub use trailers::{TrailerRef, Trailers};
