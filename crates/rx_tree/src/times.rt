//! The times of a file.
use rx_time::Moment;

/// When a file's content was last modified, when what the file system keeps of the file was last changed, when it was last
/// read, and when it was made. None where the file system doesn't say it.
#[derive(Clone, Copy, Debug, PartialEq, Eq)]
pub struct Times {
    pub modified: Option<Moment>,
    pub changed: Option<Moment>,
    pub accessed: Option<Moment>,
    pub created: Option<Moment>,
}

/// The times of a file of which none is told.
pub const NO_TIMES: Times = Times {
    modified: None,
    changed: None,
    accessed: None,
    created: None,
};
