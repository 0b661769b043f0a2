//! Finds where the streams of a UFS inode stand.
//!
//! After FreeBSD's sys/ufs/ufs/dinode.h: twelve pointers lead to the first blocks of a content, and three to blocks of pointers
//! of one, two and three levels; in UFS2 two more lead to the extended area. A pointer of 0 is a hole. One of the first twelve
//! blocks has no more fragments than it needs (the macro `blksize` of sys/ufs/ffs/fs.h). `blocks_of` answers the parts of an
//! inode, each with the slack of its last block, and the blocks of pointers that were visited, or Damaged(BlockPointer) at a
//! pointer that leaves the volume. `content_blocks` and `inode_parts` are its steps for readers that keep where they looked, and
//! count the runs of a volume, of which there may be 4,000,000.
//!
//!     let blocks = blocks_of(alloc, &mut store, &sup, &inode)?;
//!     blocks.parts.items()[0].pieces.items()     // where each byte of the content stands
#![tactic(auto)]

mod blocks;
mod laid;
mod parts;
mod step;
mod streams;
mod walk;

pub use blocks::{Blocks, blocks_of};
pub use laid::{Laid, Parted};
pub use parts::inode_parts;
pub use streams::content_blocks;
