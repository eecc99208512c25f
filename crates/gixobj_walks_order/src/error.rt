//! Why commits aren't listed.
use std::alloc::AllocError;

/// Why no list of the selected commits was made.
#[derive(Debug, Drop, PartialEq, Eq, thiserror::Error)]
pub enum ListError {
    /// A selected commit is an ancestor of itself, so that no order has each commit before its parents.
    #[error("a commit is an ancestor of itself")]
    Cycle,
    /// Memory ran out.
    #[error("out of memory")]
    OutOfMemory,
}

impl From<AllocError> for ListError {
    ghost use Rattle.std.specs.Prelude.{◌≡◌};
    ghost use Rattle.gixobj_walks_order.specs.declared.error.ListError.TheVariants.{OutOfMemory};

    ghost from_gives = { λ _ error. error ≡ OutOfMemory };

    fn from(_: AllocError) -> ListError {
        ListError::OutOfMemory
    }
}
