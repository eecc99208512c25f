//! The errors of the program, and its exit statuses.
ghost use Rattle.std.specs.Prelude.{◌≡◌};
ghost use Rattle.gixobj_cli_batch.specs.Runs.{fault_status};
ghost use Rattle.gixobj_cli_batch.specs.declared.fault.Fault.TheVariants as program;

use gix_object::OutOfMemory;
use gix_object::find::existing_object;
use gix_object::hash::ObjectId;
use gixobj_listings::listing::ListError;
use gixobj_records::BatchError;
use gixobj_walks_store::WalkError;
use std::alloc::{AllocError, AllocFailed};
use std::io;

/// Why the program fails.
#[derive(Debug, Drop, thiserror::Error)]
pub(crate) enum Fault {
    /// The arguments name no command.
    #[error("usage: gixobj_cli_batch log ID | ls ID | diff ID ID | merge-base ID ID | \
        rev-list [--topo-order] ID [^ID] | check [--strict]")]
    Usage,
    /// The input isn't a sequence of records.
    #[error("{0}")]
    Batch(BatchError),
    /// A commit isn't read.
    #[error("the commit {id} isn't read: {cause}")]
    Commit {
        /// The id of the commit.
        id: ObjectId,
        /// Why it isn't read.
        cause: existing_object::Error,
    },
    /// The log has as many commits as it may have.
    #[error("too many commits before {id}")]
    TooLong {
        /// The id of the next commit.
        id: ObjectId,
    },
    /// A directory isn't read.
    #[error("{0}")]
    Tree(ListError),
    /// A commit of a walk isn't read, or is an ancestor of itself.
    #[error("{0}")]
    Walk(WalkError),
    /// Two commits have no common ancestor.
    #[error("no merge base")]
    NoMergeBase,
    /// The check found faults.
    #[error("objects with faults")]
    Faulty,
    /// An allocation failed.
    #[error("out of memory")]
    OutOfMemory,
    /// The input or the output failed.
    #[error("{0}")]
    Failed(io::Error),
}

impl Fault {
    /// The exit status: 2 for invalid arguments, else 1.
    pub(crate) fn status(&self) -> u8
        ensures { result ≡ fault_status self.now }
    {
        match self {
            Fault::Usage => 2,
            _ => 1,
        }
    }
}

impl From<BatchError> for Fault {
    ghost from_gives = { λ cause fault. fault ≡ program.Batch cause };

    fn from(error: BatchError) -> Fault {
        Fault::Batch(error)
    }
}

impl From<ListError> for Fault {
    ghost from_gives = { λ cause fault. fault ≡ program.Tree cause };

    fn from(error: ListError) -> Fault {
        Fault::Tree(error)
    }
}

impl From<WalkError> for Fault {
    ghost from_gives = { λ cause fault. fault ≡ program.Walk cause };

    fn from(error: WalkError) -> Fault {
        Fault::Walk(error)
    }
}

impl From<io::Error> for Fault {
    ghost from_gives = { λ cause fault. fault ≡ program.Failed cause };

    fn from(error: io::Error) -> Fault {
        Fault::Failed(error)
    }
}

impl From<OutOfMemory> for Fault {
    ghost from_gives = { λ _ fault. fault ≡ program.OutOfMemory };

    fn from(_: OutOfMemory) -> Fault {
        Fault::OutOfMemory
    }
}

impl From<AllocError> for Fault {
    ghost from_gives = { λ _ fault. fault ≡ program.OutOfMemory };

    fn from(_: AllocError) -> Fault {
        Fault::OutOfMemory
    }
}

impl<T: Drop> From<AllocFailed<T>> for Fault {
    ghost from_gives = { λ _ fault. fault ≡ program.OutOfMemory };

    fn from(_: AllocFailed<T>) -> Fault {
        Fault::OutOfMemory
    }
}
