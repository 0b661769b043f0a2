//! What is wrong with a run list.
ghost use Rattle.std.specs.Prelude.{◌≡◌};

use std::alloc::AllocFailed;
use thiserror::Error;

/// What is wrong with the first run that is wrong, whose header byte stands at `at`, or that memory ran out.
#[derive(Clone, Copy, Debug, PartialEq, Eq, Error)]
pub enum RunFault {
    /// The length or the offset has more than 8 bytes, or the runs up to this one have more than 2^48 clusters.
    #[error("the run at byte {at} is too long")]
    TooLong { at: usize },
    /// The bytes end inside the run, or where a header is to stand.
    #[error("the run at byte {at} is cut off")]
    Short { at: usize },
    /// The run has no cluster.
    #[error("the run at byte {at} has no clusters")]
    ZeroRun { at: usize },
    /// The run begins below cluster 0.
    #[error("the run at byte {at} begins below cluster 0")]
    Negative { at: usize },
    /// The run begins at `cluster` and ends behind the last cluster of the volume.
    #[error("the run at byte {at}, from cluster {cluster} on, passes the volume's end")]
    Outside { at: usize, cluster: u64 },
    #[error("out of memory")]
    NoMemory,
}

impl<T: Drop> From<AllocFailed<T>> for RunFault {
    ghost use Rattle.ntfs_defs.specs.declared.fault.RunFault.TheVariants.{NoMemory};

    ghost from_gives = { λ _ fault. fault ≡ NoMemory };

    fn from(_failed: AllocFailed<T>) -> RunFault {
        RunFault::NoMemory
    }
}
