//! Counts of commits that only one of two commits reaches.

/// How many commits only one of two commits reaches (git-rev-list, `--left-right --count ONE...OTHER`).
#[derive(Clone, Copy, Debug, PartialEq, Eq)]
pub struct LeftRightCount {
    /// The number of those that the one reaches, and the other doesn't.
    pub left: usize,
    /// The number of those that the other reaches, and the one doesn't.
    pub right: usize,
}
