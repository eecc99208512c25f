//! The error of walks over a store.
use gixobj_walks_commits::NodeError;
use gixobj_walks_order::ListError;
use std::alloc::AllocError;

/// The error of [`list_commits`](crate::list_commits) and [`peel_to_commits`](crate::peel_to_commits).
#[derive(Debug, Drop, thiserror::Error)]
pub enum WalkError {
    /// A commit that the walk needs isn't read, or an id isn't peeled.
    #[error(transparent)]
    Node(NodeError),
    /// A commit is an ancestor of itself, so that no order has each commit before its parents.
    #[error("a commit is an ancestor of itself")]
    Cycle,
    /// An allocation failed.
    #[error("out of memory")]
    OutOfMemory,
}

impl From<NodeError> for WalkError {
    ghost use Rattle.std.specs.Prelude.{◌≡◌};
    ghost use Rattle.gixobj_walks_store.specs.declared.error.WalkError.TheVariants.{Node};

    ghost from_gives = { λ cause error. error ≡ Node cause };

    fn from(cause: NodeError) -> WalkError {
        WalkError::Node(cause)
    }
}

impl From<ListError> for WalkError {
    ghost use Rattle.std.specs.Prelude.{◌≡◌};
    ghost use Rattle.gixobj_walks_store.specs.ListErrors.{error_of};

    ghost from_gives = { λ cause error. error ≡ error_of cause };

    fn from(cause: ListError) -> WalkError {
        match cause {
            ListError::Cycle => WalkError::Cycle,
            ListError::OutOfMemory => WalkError::OutOfMemory,
        }
    }
}

impl From<AllocError> for WalkError {
    ghost use Rattle.std.specs.Prelude.{◌≡◌};
    ghost use Rattle.gixobj_walks_store.specs.declared.error.WalkError.TheVariants.{OutOfMemory};

    ghost from_gives = { λ _ error. error ≡ OutOfMemory };

    fn from(_: AllocError) -> WalkError {
        WalkError::OutOfMemory
    }
}
