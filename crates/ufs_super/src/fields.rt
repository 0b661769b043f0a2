//! The fields of a superblock, and what may be wrong with them.
ghost use Rattle.std.specs.Prelude.{◌≡◌, ◌≤◌, length, IfSome};
ghost use Rattle.ufs_inode_defs.specs.Layout as layout_spec;
ghost use Rattle.ufs_inode_defs.specs.Layout.{layout_of};
ghost use Rattle.ufs_inode_defs.specs.Numbers as numbers_spec;
ghost use Rattle.ufs_inode_defs.specs.Superblock as superblock_spec;
ghost use Rattle.ufs_inode_defs.specs.Superblock.{superblock_of};

use bytes_defs::{Order, i32_at, u32_at};
use ufs_inode_defs::Super;

/// What a signed field counts: nothing where it is below 0.
pub fn non_negative(field: i32) -> u32
    ensures { result ≡ numbers_spec.non_negative field }
{
    field.max(0) as u32
}

/// The bytes of a block that the superblock states, sound or not.
pub fn stated_block_size(sup: &Super) -> u32
    ensures { result ≡ superblock_spec.block_size sup.now }
{
    non_negative(sup.bsize)
}

/// The bytes of a fragment that the superblock states, sound or not.
pub fn stated_fragment_size(sup: &Super) -> u32
    ensures { result ≡ superblock_spec.fragment_size sup.now }
{
    non_negative(sup.fsize)
}

/// The bytes of a pointer in a version, of which 1 is UFS1: `ufs1_daddr_t` and `ufs2_daddr_t`.
pub(crate) fn pointer_len(version: u8) -> u32
    ensures { result ≡ layout_spec.pointer_len version }
{
    if version == 1 { 4 } else { 8 }
}

/// The bytes of an inode in a version, of which 1 is UFS1.
pub fn inode_len(version: u8) -> u32
    ensures { result ≡ (layout_of version).inode_len }
{
    if version == 1 { 128 } else { 256 }
}

/// The superblock of a version that these bytes of the volume of `len` bytes at `at` hold, in an order of its numbers' bytes.
#[tactic(auto, unfolding(ufs_inode_defs::specs::Superblock::superblock_of))]
pub(crate) fn super_from(at: u64, len: u64, version: u8, order: Order, bytes: &[u8]) -> Super
    requires { length bytes.now ≡ 1376 }
    ensures { result ≡ superblock_of (record { at = at; len = len }) version order bytes.now }
{
    Super {
        at,
        len,
        version,
        order,
        iblkno: i32_at(order, bytes, 16),
        cblkno: i32_at(order, bytes, 12),
        old_cgoffset: i32_at(order, bytes, 24),
        old_cgmask: u32_at(order, bytes, 28),
        ncg: u32_at(order, bytes, 44),
        bsize: i32_at(order, bytes, 48),
        fsize: i32_at(order, bytes, 52),
        frag: i32_at(order, bytes, 56),
        nindir: u32_at(order, bytes, 116),
        inopb: u32_at(order, bytes, 120),
        ipg: u32_at(order, bytes, 184),
        fpg: i32_at(order, bytes, 188),
    }
}

/// Whether blocks have so many bytes.
#[tactic(auto, unfolding(ufs_inode_defs::specs::Superblock::is_block_size))]
fn is_block_size(size: u32) -> bool
    ensures { result ≡ superblock_spec.is_block_size size }
{
    size.is_power_of_two() && (4096..=65536).contains(&size)
}

/// Whether fragments have so many bytes.
#[tactic(auto, unfolding(ufs_inode_defs::specs::Superblock::is_fragment_size))]
fn is_fragment_size(size: u32) -> bool
    ensures { result ≡ superblock_spec.is_fragment_size size }
{
    size.is_power_of_two() && size >= 512
}

/// Whether a block is so many fragments.
#[tactic(auto, unfolding(ufs_inode_defs::specs::Superblock::is_fragment_count))]
fn is_fragment_count(count: u32, fragment: u32, block: u32) -> bool
    ensures { result ≡ superblock_spec.is_fragment_count count fragment block }
{
    matches!(count, 1 | 2 | 4 | 8) && u64::from(count) * u64::from(fragment) == u64::from(block)
}

/// Whether so many inodes are some blocks of inodes.
#[tactic(auto, unfolding(ufs_inode_defs::specs::Superblock::is_inode_count))]
fn is_inode_count(inodes: u32, in_block: u32) -> bool
    ensures { result ≡ superblock_spec.is_inode_count inodes in_block }
{
    in_block != 0 && inodes >= 1 && inodes % in_block == 0
}

/// The place in the superblock of the field that is wrong, if one is.
#[tactic(auto, unfolding(ufs_inode_defs::specs::Superblock::wrong_field))]
pub(crate) fn wrong_field(sup: &Super) -> Option<u64>
    ensures place { result ≡ superblock_spec.wrong_field sup.now }
    ensures near { IfSome result (λ place. place ≤ 188) }
{
    if !is_block_size(stated_block_size(sup)) {
        return Some(48);
    }
    if !is_fragment_size(stated_fragment_size(sup)) {
        return Some(52);
    }
    if !is_fragment_count(
        non_negative(sup.frag),
        stated_fragment_size(sup),
        stated_block_size(sup),
    ) {
        return Some(56);
    }
    if sup.nindir != stated_block_size(sup) / pointer_len(sup.version) {
        return Some(116);
    }
    if sup.inopb != stated_block_size(sup) / inode_len(sup.version) {
        return Some(120);
    }
    if !is_inode_count(sup.ipg, sup.inopb) {
        return Some(184);
    }
    if sup.fpg < 1 {
        return Some(188);
    }
    if sup.ncg < 1 {
        return Some(44);
    }
    if sup.iblkno < 0 {
        return Some(16);
    }
    if sup.version == 1 && sup.old_cgoffset < 0 {
        return Some(24);
    }
    (u64::from(sup.ncg) * u64::from(sup.ipg) > 1 << 32).then_some(44)
}
