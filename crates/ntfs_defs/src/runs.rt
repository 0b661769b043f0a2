//! Runs of clusters.

/// A run of `len` clusters that begins at `cluster`; where that is None it is a hole.
#[derive(Clone, Copy, Debug, PartialEq, Eq)]
pub struct Run {
    pub len: u64,
    pub cluster: Option<u64>,
}

/// A run as the bytes of a run list say it: its header byte stands at `at` and the next one at `next`, it has `len`
/// clusters, and it begins `offset` clusters behind the begin of the last run that had an offset.
#[derive(Clone, Copy, Debug, PartialEq, Eq)]
pub struct WrittenRun {
    pub at: usize,
    pub next: usize,
    pub len: u64,
    pub offset: Option<i64>,
}
