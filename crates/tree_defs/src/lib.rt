//! The tree of an image: what the whole image says, and the bytes on which that rests.
//!
//! The image is one UFS volume (FreeBSD's sys/ufs/ffs/fs.h) whose numbers have the lowest byte first. `image_tree` is the tree of
//! that volume, or the refusal with which its reading ends; an image of more than 2^46 bytes is refused for its length, before
//! anything else. `image_guard` is the set of bytes on which the tree rests. `other_kind` says where an image has the magic of
//! NTFS or of HFS+, which have no tree here yet.
//!
//! The promised laws of `laws`: an image of the same length with the same bytes in the guard has the same tree or refusal, the
//! same guard and the same kind; and what refuses an image is true of it, as rules say it.
//!
//!     // an image of no bytes has the magic of no kind
//!     image_tree [] ≡ Err NotThis
#![tactic(auto)]

pub mod laws;
