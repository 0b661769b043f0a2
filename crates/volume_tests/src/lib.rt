//! Tests of the parts of the file systems: moments, reads that are kept, pieces, and what is read of NTFS, HFS+ and UFS.
//!
//! They are of public calls, on what no clause says: that a call succeeds where memory is ample, and that its answer is what was
//! worked out by hand from the standards. The volumes are tables of bytes, each with its place, over zeros. They stand in a crate
//! of their own since a crate that has tests is proved once more with them.
//!
//!     let bytes: [u8; 4096] = with(VOLUME);       // a volume in memory
//!     read_header(&mut MemStore::of_image(alloc, &bytes)?, 0, 4096)
#![tactic(auto)]

#[cfg(test)]
mod boot_sectors;
#[cfg(test)]
mod bytes;
#[cfg(test)]
mod directories;
#[cfg(test)]
mod file_records;
#[cfg(test)]
mod hfs_forks;
#[cfg(test)]
mod hfs_headers;
#[cfg(test)]
mod hfs_leaves;
#[cfg(test)]
mod inodes;
#[cfg(test)]
mod kinds;
#[cfg(test)]
mod moments;
#[cfg(test)]
mod names;
#[cfg(test)]
mod reads;
#[cfg(test)]
mod streams;
#[cfg(test)]
mod superblocks;
#[cfg(test)]
mod trees;
#[cfg(test)]
mod ufs_volumes;
