//! When a UFS volume is damaged: the rules of its structures, each with the place that is told where it is broken; what of it
//! isn't supported, and what is over a limit.
//!
//! `IsFalseAt` says when a volume is damaged, with a constructor for each rule: the superblock, inodes, pointers, and the sizes
//! and entries of directories, of what is reached from inode 2 through sound tables. It knows nothing of the order in which a
//! reader meets them.
//!
//! The promised laws of `laws`: what refuses a volume is wrong with it, nothing is wrong with one that has a tree, and one with
//! which nothing is wrong has a tree.
//!
//!     // "b" of the root names the root again
//!     Damaged(DirTwice, 81956)
#![tactic(auto)]

pub mod laws;
