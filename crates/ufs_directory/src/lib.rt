//! The entries of one block of a UFS directory.
//!
//! After FreeBSD's sys/ufs/ufs/dir.h, `struct direct`: an entry has the number of an inode, its own length, a type, and the
//! length of its name, and then the name. A directory's content is a chain of entries, and none of them passes the 512 bytes in
//! which it begins. An entry whose inode is 0 or 1 is unused. `leading_entries` gives the entries that lead to files, and passes
//! over `.` and `..`; the first record that is no entry is damage at its place in the image (`Sort::DirEntry`).
//!
//!     // a block of 512 bytes that stands in the image from byte 8,192 on
//!     let entries = leading_entries(alloc, Order::Little, 8_192, &bytes)?;
//!     entries.items()[0].name     // b"a", after "." and ".."
#![tactic(auto)]

mod block;
mod entry;

pub use block::leading_entries;
pub use entry::Entry;
