//! Run lists: where the clusters of an attribute stand.
//!
//! A run list (the mapping pairs of a non-resident ATTRIBUTE_RECORD_HEADER) is a list of runs, each with a header byte that says
//! how many bytes its length and its offset have; the offset is signed and counts from the cluster of the run in front, and a run
//! without one is a hole. `decode_runs` answers the runs: how many clusters each has, and the first of them, which is None for a
//! hole; or the first check that fails, at the header byte of that run.
//!
//!     decode_runs(alloc, &[0x21, 0x18, 0x34, 0x56, 0x00], 1 << 40)?      // 0x18 clusters from 0x5634 on
#![tactic(auto)]

mod decode;
mod runs;
pub(crate) mod written;

pub use decode::decode_runs;
pub use runs::Runs;
