//! Reads the inodes of a UFS volume.
//!
//! After FreeBSD's sys/ufs/ufs/dinode.h, `struct ufs1_dinode` of 128 bytes and `struct ufs2_dinode` of 256, and the macros
//! `ino_to_fsba` and `ino_to_fsbo` of sys/ufs/ffs/fs.h, which say where an inode stands. `read_inode` answers the inode of a
//! number, or Damaged(InodeNumber) at the entry that names it where the volume has none of that number, and tests it: it is
//! in use (else Damaged(DeadInode)), no snapshot (else Unsupported(Snapshot)), and its sizes are within what its pointers reach
//! (else Damaged(FileSize)). It takes no memory. `look_at_inode` answers the same, and keeps the range of the inode;
//! it reads the block of the inode table round it, and none for an inode that stands in the block that it read last.
//!
//!     let root = read_inode(&mut store, &sup, 2, 65_536)?;
//!     root.direct[0]        // the fragment at which the root's first block begins
#![tactic(auto)]

mod block;
mod fields;
mod place;
mod read;
mod tested;

pub use block::InodeBlock;
pub use read::{look_at_inode, read_inode};
