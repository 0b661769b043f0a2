//! What a UFS volume says up to its inodes, and where each byte of an inode's streams stands.
//!
//! After FreeBSD's headers: `struct fs` of sys/ufs/ffs/fs.h, `struct ufs1_dinode` and `struct ufs2_dinode` of
//! sys/ufs/ufs/dinode.h. A volume lies anywhere in an image and has its numbers in either order of bytes. A pointer counts
//! fragments from the volume's first byte; the first twelve blocks are direct, and one, two and three levels of blocks of
//! pointers map the rest.
//!
//! The promised law of `laws`: the pieces that a walk over the pointers finds cover a stream in order, are the longest, and put
//! each byte where it stands, and the slack is what the last block has behind the end. Fields, places of inodes and streams
//! worked out by hand are computed in `proofs/Rows`.
//!
//!     // block 12 of a file is the first that its first block of pointers maps
//!     block_pointer image sup stream 12 ≡ mapped_pointer 1 image sup (value_of stream.indirect 0) 0
#![tactic(auto)]

mod inode;
pub mod laws;
mod superblock;

pub use inode::Inode;
pub use superblock::Super;
