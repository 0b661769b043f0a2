//! Why a file record was not read.

use thiserror::Error;

/// The first check that a stored record fails.
#[derive(Clone, Copy, Debug, PartialEq, Eq, Error)]
pub enum RecordFault {
    #[error("no file record begins here")]
    NotFile,
    #[error("stride {stride} doesn't end with the check number")]
    BadFixup { stride: usize },
    #[error("the field or attribute at byte {at} is wrong")]
    BadField { at: usize },
}
