//! Why a pattern doesn't read.

use std::alloc::{AllocError, AllocFailed};
use thiserror::Error;

/// There was no memory.
pub type NoMemory = AllocError;

/// Why a pattern's text doesn't read.
#[derive(Clone, Copy, Debug, PartialEq, Eq, Error)]
pub enum PatternFault {
    /// A `[` isn't closed: the first such one begins at this byte.
    #[error("the class that begins at byte {at} isn't closed")]
    UnclosedClass { at: usize },
    /// There was no memory.
    #[error("out of memory")]
    NoMemory,
}

impl From<AllocError> for PatternFault {
    ghost use Rattle.std.specs.Prelude.{◌≡◌};
    ghost use Rattle.rx_pattern.specs.declared.fault.PatternFault.TheVariants.{NoMemory};

    ghost from_gives = { λ _ fault. fault ≡ NoMemory };

    fn from(_: AllocError) -> Self {
        PatternFault::NoMemory
    }
}

impl<T: Drop> From<AllocFailed<T>> for PatternFault {
    ghost use Rattle.std.specs.Prelude.{◌≡◌};
    ghost use Rattle.rx_pattern.specs.declared.fault.PatternFault.TheVariants.{NoMemory};

    ghost from_gives = { λ _ fault. fault ≡ NoMemory };

    fn from(_: AllocFailed<T>) -> Self {
        PatternFault::NoMemory
    }
}
