//! What an HFS+ volume says up to its forks and the leaf records of its trees.
//!
//! After Apple's TN1150, "HFS Plus Volume Format": the volume header, fork data, extents and overflow records, B-tree nodes and
//! the chain of leaves. Numbers have their highest byte first. A byte of a fork is counted through its eight extents and then
//! those of its overflow records by start block; the leaf records are those of the nodes on the chain of fLink, in order.
//!
//! The promised laws of `laws`: pieces are the fork, the leaf list is the chain, and what stops either is a damage that is there.
//!
//!     // the eight extents of a fork: blocks 10 and 20, a block each
//!     let fork = Fork::from_bytes(&header, 272);
#![tactic(auto)]

mod forks;
mod header;
pub mod laws;

pub use forks::{Extent, Fork, OverflowRecord};
pub use header::Header;
