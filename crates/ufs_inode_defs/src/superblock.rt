//! The superblock.
use bytes_defs::Order;

/// A volume of `len` bytes from byte `at` of the image on, and the fields of its superblock that are read. FreeBSD's
/// sys/ufs/ffs/fs.h names them, with `fs_` in front.
#[derive(Clone, Copy, Debug, PartialEq, Eq)]
pub struct Super {
    pub at: u64,
    pub len: u64,
    /// 1 for UFS1 and 2 for UFS2.
    pub version: u8,
    /// The order of the bytes of the volume's numbers.
    pub order: Order,
    /// The fragment in a group at which its inodes begin.
    pub iblkno: i32,
    /// The fragment in a group at which the block that describes the group begins.
    pub cblkno: i32,
    /// How the starts of groups move in UFS1.
    pub old_cgoffset: i32,
    pub old_cgmask: u32,
    /// The number of groups.
    pub ncg: u32,
    /// The bytes of a block.
    pub bsize: i32,
    /// The bytes of a fragment.
    pub fsize: i32,
    /// The fragments of a block.
    pub frag: i32,
    /// The pointers in a block of pointers.
    pub nindir: u32,
    /// The inodes in a block.
    pub inopb: u32,
    /// The inodes in a group.
    pub ipg: u32,
    /// The fragments in a group.
    pub fpg: i32,
}
