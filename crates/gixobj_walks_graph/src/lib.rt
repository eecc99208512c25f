//! Commits and their parents as a graph: what one commit reaches of it, and the order of walks over it (gitglossary,
//! "DAG"; git-rev-list).
//!
//! The definitions speak of commits by ids or by numbers alike. The code of the crates above numbers the commits.
#![tactic(auto)]

pub mod left_right;
pub mod node;
pub mod order;

pub use left_right::LeftRightCount;
pub use node::Node;
pub use order::Order;
