//! Reads a UFS volume, and makes its tree: FreeBSD's UFS1 and UFS2 with the lowest byte of each number first.
//!
//! `read_ufs` reads the superblock (`struct fs` of sys/ufs/ffs/fs.h), walks the directories for the names (`struct direct` of
//! sys/ufs/ufs/dir.h), and then makes a file of each inode that has names (`struct ufs1_dinode` and `struct ufs2_dinode` of
//! sys/ufs/ufs/dinode.h), by rising number. A file has its kind, mode, links, owner, group and times, its paths sorted by their
//! bytes, its content, and in UFS2 its extended area as the part `ext`. The inodes are read a block of their table at a time, as
//! the names are found; only the blocks of pointers and the directories' blocks are read besides. The guard of the tree is what
//! the definition of the volume looks at.
//!
//! An image of more than 2^46 bytes is refused where the volume has a sound superblock.
//!
//!     let tree = read_ufs(alloc, &mut store, 0, size, 0)?;     // a volume that is the whole image
//!     tree.files.items()[0]                                    // the root: inode 2, with the one name "/"
#![tactic(auto)]

mod file;
mod group;
mod paths;
mod rest;
mod second;
mod tree;
mod volume;

pub use volume::read_ufs;
