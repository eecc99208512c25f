//! Orders of walks.

/// The order in which a walk lists commits (git-rev-list, "Commit Ordering"). No order lists a parent before all of its
/// children.
#[derive(Clone, Copy, Debug, PartialEq, Eq)]
pub enum Order {
    /// The newest first (`--date-order`).
    Date,
    /// The one that became ready last, so that lines of history stay together (`--topo-order`).
    Topological,
}
