//! What an HFS+ volume says: its folders and files, its tree, and the bytes on which that rests.
//!
//! After Apple's TN1150, "Catalog File" and "Hard Links": catalog records, folder chains, hard links (files of type `hlnk` and
//! creator `hfs+` that name a file in the private folder) and special files. The guard is the first 1,536 and the last 1,024
//! bytes and all blocks of the catalog and extents files.
//!
//! The promised laws of `laws`: an image of the same length with the same bytes in the guard has the same tree; each refusal is
//! true, a volume with a tree has nothing wrong, and one with nothing wrong has a tree.
//!
//!     // 40 blocks of 512 bytes, with the extents file in block 8 and the catalog in blocks 10 to 13 (`proofs/VolumeRows`)
//!     the guard is bytes 0 to 1,535, 4,096 to 4,607, 5,120 to 7,167 and 19,456 to 20,479
#![tactic(auto)]

pub mod laws;
