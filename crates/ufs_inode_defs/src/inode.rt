//! Inodes.

/// The place of an inode in the image, and the fields of it that are read. A field that a version lacks is 0. FreeBSD's
/// sys/ufs/ufs/dinode.h names them, with `di_` in front.
#[derive(Clone, Copy, Debug, PartialEq, Eq)]
pub struct Inode {
    pub at: u64,
    pub mode: u16,
    pub nlink: u16,
    pub uid: u32,
    pub gid: u32,
    /// The bytes of the content.
    pub size: u64,
    pub blocks: u64,
    /// Times in seconds since 1970.
    pub atime: i64,
    pub mtime: i64,
    pub ctime: i64,
    pub birth: i64,
    pub flags: u32,
    /// The bytes of the extended area.
    pub extsize: u32,
    /// Pointers to the blocks of the extended area, to the first blocks of the content, and to blocks of pointers of one, two
    /// and three levels.
    pub ext: [i64; 2],
    pub direct: [i64; 12],
    pub indirect: [i64; 3],
}
