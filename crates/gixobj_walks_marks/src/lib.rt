//! What two sides of starts reach of the commits that are read (git-rev-list, git-merge-base), and whether enough of
//! them are read. Commits are known by numbers.
#![tactic(auto)]

mod bases;
mod chosen;
mod marking;
mod passing;
mod queue;
mod reached;
mod reading;
mod settled;
mod settled_bases;

pub use bases::{candidates, selected};
pub use chosen::is_chosen;
pub use marking::mark_reached;
pub use reached::reachable;
pub use reading::Reading;
pub use settled::is_settled_walk;
pub use settled_bases::is_settled_bases;
