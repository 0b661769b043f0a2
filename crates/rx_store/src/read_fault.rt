//! Why an image couldn't be read.
ghost use Rattle.std.specs.Prelude.{◌≡◌};
ghost use Rattle.rx_store.specs.ReadFaults.{fault_of};
ghost use Rattle.rx_store.specs.declared.read_fault.ReadFault.TheVariants.{Device, NoMemory};

use disk_defs::Fault;
use fault_defs::{Bound, Refusal, Sort, What};
use std::alloc::{AllocError, AllocFailed};

/// Why an image couldn't be read.
#[derive(Clone, Copy, Debug, PartialEq, Eq)]
pub enum ReadFault {
    /// A call on the store failed.
    Device,
    /// Memory ran out.
    NoMemory,
    /// It is something else: the magic doesn't fit.
    NotThis,
    /// It is damaged: the sort, and the place in the image.
    Damaged(Sort, u64),
    /// It has what isn't supported, at this place in the image.
    Unsupported(What, u64),
    /// It has more of something than the limit, which this number is.
    Limit(Bound, u64),
}

impl From<Fault> for ReadFault {
    ghost from_gives = { λ _ fault. fault ≡ Device };

    fn from(_fault: Fault) -> ReadFault {
        ReadFault::Device
    }
}

impl From<AllocError> for ReadFault {
    ghost from_gives = { λ _ fault. fault ≡ NoMemory };

    fn from(_error: AllocError) -> ReadFault {
        ReadFault::NoMemory
    }
}

impl<T: Drop> From<AllocFailed<T>> for ReadFault {
    ghost from_gives = { λ _ fault. fault ≡ NoMemory };

    fn from(_error: AllocFailed<T>) -> ReadFault {
        ReadFault::NoMemory
    }
}

impl From<Refusal> for ReadFault {
    ghost from_gives = { λ refusal fault. fault ≡ fault_of refusal };

    fn from(refusal: Refusal) -> ReadFault {
        match refusal {
            Refusal::NotThis => ReadFault::NotThis,
            Refusal::Damaged(sort, place) => ReadFault::Damaged(sort, place),
            Refusal::Unsupported(what, place) => ReadFault::Unsupported(what, place),
            Refusal::Limit(bound, number) => ReadFault::Limit(bound, number),
        }
    }
}
