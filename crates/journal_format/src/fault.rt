//! Why a journal isn't answered.
ghost use Rattle.std.specs.Prelude.{◌≡◌};
ghost use Rattle.journal_format.specs.declared.fault.JournalFault.TheVariants.{Device, NoMemory};

use disk_defs::Fault;
use std::alloc::{AllocError, AllocFailed};

/// Why a journal isn't answered.
#[derive(Clone, Copy, Debug, PartialEq, Eq)]
pub enum JournalFault {
    /// It doesn't stand open.
    NotOpen,
    /// It stands open and is none: the place where the first check fails.
    Bad { at: u64 },
    /// It is that of an image of another length: the one that it keeps, and the one that was found.
    OtherLength { kept: u64, found: u64 },
    /// A call on the store failed.
    Device,
    /// Memory ran out.
    NoMemory,
}

impl From<Fault> for JournalFault {
    ghost from_gives = { λ _ fault. fault ≡ Device };

    fn from(_fault: Fault) -> JournalFault {
        JournalFault::Device
    }
}

impl From<AllocError> for JournalFault {
    ghost from_gives = { λ _ fault. fault ≡ NoMemory };

    fn from(_error: AllocError) -> JournalFault {
        JournalFault::NoMemory
    }
}

impl<T: Drop> From<AllocFailed<T>> for JournalFault {
    ghost from_gives = { λ _ fault. fault ≡ NoMemory };

    fn from(_error: AllocFailed<T>) -> JournalFault {
        JournalFault::NoMemory
    }
}
