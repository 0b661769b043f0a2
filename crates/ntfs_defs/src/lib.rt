//! NTFS run lists: the written runs, the cluster of each virtual cluster, and what is wrong with a list.
//!
//! A run list says where the clusters of an attribute stand. The low half of a header byte is the number of length bytes that
//! follow it, the high half that of offset bytes; the length is unsigned, the offset is signed and relative to the last run
//! that had one; no offset is a hole; a header of 0 ends the list.
//!
//! The promised laws of `laws`: the runs have each virtual cluster where the list puts it, lengths sum up, each cluster lies on
//! the volume, and the damage that is told is the first.
//!
//!     21 18 34 56 00    0x18 clusters from cluster 0x5634 on
#![tactic(auto)]

mod fault;
pub mod laws;
mod runs;

pub use fault::RunFault;
pub use runs::{Run, WrittenRun};
