//! The guard of a UFS volume in words.
//!
//! The guard is defined as what one looks at for the files of a volume (`guard_of`). `IsGuarded` says which bytes that are,
//! without a walk: the bytes by which kinds of volumes are known, the superblock, each inode that is reached, the content of each
//! directory, and each block of pointers (struct ufs2_dinode, di_ib) to which a pointer that is used leads.
//!
//! The promised law of `laws`: the guard of a volume that is read has these bytes, and no others.
//!
//!     // of a UFS2 with the file "a": bytes 3 to 10, 510, 511, 1,024 to 1,027, 9,564 to 9,567, the superblock, two
//!     // inodes, the root
//!     IsGuarded image volume sup 81_920
#![tactic(auto)]

pub mod laws;
