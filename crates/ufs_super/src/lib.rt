//! Reads the superblock of a UFS volume.
//!
//! After FreeBSD's sys/ufs/ffs/fs.h, `struct fs`: 1,376 bytes that stand at byte 8,192 of a UFS1 and at byte 65,536 of a UFS2,
//! with the magic in the last four of them. `read_super` answers the fields that are read, or NotThis where neither magic fits
//! with the lowest byte first, or Damaged(SuperField) at the first field that has a value that it can't have. It takes no memory.
//! `look_for_super` answers the same, and keeps the ranges at which the definition looks: those where the magics of other file
//! systems stand, and the superblock.
//!
//!     let sup = read_super(&mut store, 0, len)?;
//!     block_size(&sup)        // a power of two from 4,096 to 65,536
#![tactic(auto)]

mod fields;
mod read;
mod sizes;

pub use fields::{inode_len, non_negative, stated_block_size, stated_fragment_size};
pub use read::{look_for_super, read_bytes, read_super};
pub use sizes::{
    allocated_len, block_count, block_size, content_len, fragment_size, pointer_len, span,
};
