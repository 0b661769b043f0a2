//! The fields of an inode.
ghost use Rattle.std.specs.Prelude.{◌≡◌, ◌+◌, ◌≤◌, length};
ghost use Rattle.std.specs.Int.{w32, w64};
ghost use Rattle.bytes_defs.specs.Numbers.{signed_at};
ghost use Rattle.ufs_inode_defs.specs.Inode.{inode_1, inode_2};
ghost use Rattle.ufs_inode_defs.specs.Numbers.{signed_fields};

use bytes_defs::{Order, i32_at, i64_at, u16_at, u32_at, u64_at};
use ufs_inode_defs::Inode;

/// The `i32` at a place, as an `i64`.
fn short_at(order: Order, bytes: &[u8], at: usize) -> i64
    requires { at + 4 ≤ length bytes.now }
    ensures { result ≡ signed_at order w32 bytes.now at }
{
    i64::from(i32_at(order, bytes, at))
}

/// The pointers of a UFS1 inode to its first twelve blocks.
fn direct_1(order: Order, bytes: &[u8]) -> [i64; 12]
    requires { length bytes.now ≡ 128 }
    ensures { result ≡ signed_fields order w32 12 bytes.now 40 }
{
    [
        short_at(order, bytes, 40),
        short_at(order, bytes, 44),
        short_at(order, bytes, 48),
        short_at(order, bytes, 52),
        short_at(order, bytes, 56),
        short_at(order, bytes, 60),
        short_at(order, bytes, 64),
        short_at(order, bytes, 68),
        short_at(order, bytes, 72),
        short_at(order, bytes, 76),
        short_at(order, bytes, 80),
        short_at(order, bytes, 84),
    ]
}

/// The pointers of a UFS2 inode to its first twelve blocks.
fn direct_2(order: Order, bytes: &[u8]) -> [i64; 12]
    requires { length bytes.now ≡ 256 }
    ensures { result ≡ signed_fields order w64 12 bytes.now 112 }
{
    [
        i64_at(order, bytes, 112),
        i64_at(order, bytes, 120),
        i64_at(order, bytes, 128),
        i64_at(order, bytes, 136),
        i64_at(order, bytes, 144),
        i64_at(order, bytes, 152),
        i64_at(order, bytes, 160),
        i64_at(order, bytes, 168),
        i64_at(order, bytes, 176),
        i64_at(order, bytes, 184),
        i64_at(order, bytes, 192),
        i64_at(order, bytes, 200),
    ]
}

/// The UFS1 inode at a place that these bytes hold.
#[tactic(auto, unfolding(ufs_inode_defs::specs::Inode::inode_1))]
pub(crate) fn inode_1_from(order: Order, at: u64, bytes: &[u8]) -> Inode
    requires { length bytes.now ≡ 128 }
    ensures fields { result ≡ inode_1 order at bytes.now }
    ensures place { result.at ≡ at }
{
    Inode {
        at,
        mode: u16_at(order, bytes, 0),
        nlink: u16_at(order, bytes, 2),
        uid: u32_at(order, bytes, 112),
        gid: u32_at(order, bytes, 116),
        size: u64_at(order, bytes, 8),
        blocks: u64::from(u32_at(order, bytes, 104)),
        atime: short_at(order, bytes, 16),
        mtime: short_at(order, bytes, 24),
        ctime: short_at(order, bytes, 32),
        birth: 0,
        flags: u32_at(order, bytes, 100),
        extsize: 0,
        ext: [0, 0],
        direct: direct_1(order, bytes),
        indirect: [
            short_at(order, bytes, 88),
            short_at(order, bytes, 92),
            short_at(order, bytes, 96),
        ],
    }
}

/// The UFS2 inode at a place that these bytes hold.
#[tactic(auto, unfolding(ufs_inode_defs::specs::Inode::inode_2))]
pub(crate) fn inode_2_from(order: Order, at: u64, bytes: &[u8]) -> Inode
    requires { length bytes.now ≡ 256 }
    ensures fields { result ≡ inode_2 order at bytes.now }
    ensures place { result.at ≡ at }
{
    Inode {
        at,
        mode: u16_at(order, bytes, 0),
        nlink: u16_at(order, bytes, 2),
        uid: u32_at(order, bytes, 4),
        gid: u32_at(order, bytes, 8),
        size: u64_at(order, bytes, 16),
        blocks: u64_at(order, bytes, 24),
        atime: i64_at(order, bytes, 32),
        mtime: i64_at(order, bytes, 40),
        ctime: i64_at(order, bytes, 48),
        birth: i64_at(order, bytes, 56),
        flags: u32_at(order, bytes, 88),
        extsize: u32_at(order, bytes, 92),
        ext: [i64_at(order, bytes, 96), i64_at(order, bytes, 104)],
        direct: direct_2(order, bytes),
        indirect: [
            i64_at(order, bytes, 208),
            i64_at(order, bytes, 216),
            i64_at(order, bytes, 224),
        ],
    }
}
