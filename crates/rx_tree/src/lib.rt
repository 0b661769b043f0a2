//! What a reader of an image finds: volumes, files, their names and parts, and the bytes that all this rests on.
//!
//! A `Tree` has the files of an image by rising id. A file has all its names, as printed paths sorted by their bytes, its mode,
//! links, owner and times where the file system says them, and its parts: the pieces of the image that hold its bytes
//! (`Pieces`), and the slack. The types keep their order and their bounds as invariants, so whoever holds a tree knows that all
//! of it lies in the image.
//!
//!     join_path(alloc, &directory, &name)?      // "/" and "a" give "/a", "/b" and "a" give "/b/a"
#![tactic(auto)]

mod file;
mod limits;
mod names;
mod part;
mod times;
mod tree;
mod volume;

pub use file::{FileEntry, FileId, Files, Kind};
pub use limits::{MAX_NAMES, MAX_PATH_BYTES, names_fit};
pub use names::{Names, PathFault, join_path};
pub use part::{Part, Parts, Role};
pub use times::{NO_TIMES, Times};
pub use tree::Tree;
pub use volume::{FsKind, Volume, Volumes};
