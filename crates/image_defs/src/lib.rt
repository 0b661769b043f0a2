//! What an image says, as programs that ask for its bytes.
//!
//! A program (`Ask`) is done with a value, stopped with a fault, or looks at a range of the image and goes on with the bytes
//! there. What it gives on an image and the ranges at which it looks are two functions of it. So the law of the footprint is one
//! law, proved once for all programs: an image of the same length with the same bytes where the program looks gives the same.
//!
//! `through` goes on from item to item; `via` runs a program on bytes that stand elsewhere, as those of an NTFS record.
//!
//!     -- the four bytes at 1024, or a fault where they aren't these
//!     magic ← look 1024 4
//!     check (is_magic magic) NotThis
#![tactic(auto)]

pub mod laws;
