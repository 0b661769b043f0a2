//! What a UFS volume says: its directories and names, its files, its tree, and the bytes on which that rests.
//!
//! After FreeBSD's headers: `struct direct` of sys/ufs/ufs/dir.h. The names are walked from inode 2, directory by directory,
//! breadth first, through the used entries other than `.` and `..`; the files then stand by rising number, with their parts. The
//! guard is what the walk looks at: the magics, the superblock, each inode, the content of each directory, each block of
//! pointers.
//!
//! The promised law of `laws`: an image with the same bytes in the guard has the same tree and guard. Whole volumes are computed
//! in `proofs/Rows`.
//!
//!     // the file "a" of the root is inode 3
//!     record { number = 3; path = "/a"; directory = 2; offset = 24; .. }
#![tactic(auto)]

pub mod laws;
