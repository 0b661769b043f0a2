//! Walks the directories of a UFS volume, and gives the names of its files.
//!
//! After FreeBSD's sys/ufs/ufs/dir.h: from inode 2 (ROOTINO), directory by directory, breadth first, through the used entries
//! other than `.` and `..`. Each name has its path as it is printed, the inode that it is given to, and the entry that gives it;
//! an inode with no pointer but that to its first block is kept small.
//! A directory has one name (else Damaged(DirTwice)), its size is a multiple of 512 and it has no hole (else Damaged(DirSize)).
//! There are limits: 1,000,000 names, 2^30 bytes of all paths, 65,535 bytes of a path, 1,024 directories one in the other below the
//! root. The ranges at which the walk looks are kept: each inode, the content of each directory, and each block of pointers.
//!
//!     let walk = read_names(alloc, &mut store, &sup, &mut looked)?;
//!     walk.names[0].path      // "/", and behind it "/a", "/dir", .. and then "/dir/b"
#![tactic(auto)]

mod block;
mod directory;
mod entry;
mod kept;
mod levels;
mod name;
mod path;
mod places;
mod root;
mod seen;
mod sizes;
mod walk;

pub use kept::KeptInode;
pub use name::Name;
pub use root::read_names;
pub use walk::Walk;
