//! The sizes of blocks of a volume whose superblock has no wrong field, and the blocks of a stream.
ghost use Rattle.std.specs.Prelude.{◌≡◌, ◌≤◌, None};
ghost use Rattle.ufs_inode_defs.specs.Layout as layout_spec;
ghost use Rattle.ufs_inode_defs.specs.Stream as stream_spec;
ghost use Rattle.ufs_inode_defs.specs.Superblock as superblock_spec;
ghost use Rattle.ufs_inode_defs.specs.Superblock.{wrong_field};

use crate::fields;
use ufs_inode_defs::Super;

/// The bytes of a block.
#[tactic(auto, using(crate::proofs::SizeLaws::block_bounds))]
pub fn block_size(sup: &Super) -> u64
    requires { wrong_field sup.now ≡ None }
    ensures value { result ≡ superblock_spec.block_size sup.now }
    ensures some { 4096 ≤ result }
    ensures most { result ≤ 65536 }
{
    u64::from(fields::stated_block_size(sup))
}

/// The bytes of a fragment.
#[tactic(auto, using(crate::proofs::SizeLaws::fragment_bounds))]
pub fn fragment_size(sup: &Super) -> u64
    requires { wrong_field sup.now ≡ None }
    ensures value { result ≡ superblock_spec.fragment_size sup.now }
    ensures some { 512 ≤ result }
    ensures most { result ≤ 65536 }
{
    u64::from(fields::stated_fragment_size(sup))
}

/// The bytes of a pointer.
pub fn pointer_len(sup: &Super) -> u64
    ensures value { result ≡ layout_spec.pointer_len sup.now.version }
    ensures most { result ≤ 8 }
{
    u64::from(fields::pointer_len(sup.version))
}

/// The blocks that a pointer maps through so many levels of blocks of pointers.
#[tactic(auto, using(crate::proofs::SizeLaws::span_bounds))]
pub fn span(sup: &Super, level: u32) -> u64
    requires sound { wrong_field sup.now ≡ None }
    requires few { level ≤ 3 }
    ensures value { result ≡ stream_spec.span sup.now level }
    ensures most { result ≤ 4398046511104 }
{
    let pointers = u64::from(sup.nindir);
    match level {
        0 => 1,
        1 => pointers,
        2 => pointers * pointers,
        _ => pointers * (pointers * pointers),
    }
}

/// The blocks that so many bytes take up.
pub fn block_count(sup: &Super, size: u64) -> u64
    requires { wrong_field sup.now ≡ None }
    ensures { result ≡ stream_spec.block_count sup.now size }
{
    size.div_ceil(block_size(sup))
}

/// The bytes of a stream of `size` bytes in one of its blocks.
pub fn content_len(sup: &Super, size: u64, block: u64) -> u64
    requires { wrong_field sup.now ≡ None }
    ensures value { result ≡ stream_spec.content_len sup.now size block }
    ensures most { result ≤ 65536 }
{
    let unit = block_size(sup);
    unit.min(size.saturating_sub(block.saturating_mul(unit)))
}

/// The bytes that a block has on the disk: one of the first twelve has no more fragments than it needs.
#[tactic(auto, using(crate::proofs::SizeLaws::allocated_fits))]
pub fn allocated_len(sup: &Super, size: u64, block: u64) -> u64
    requires { wrong_field sup.now ≡ None }
    ensures value { result ≡ stream_spec.allocated_len sup.now size block }
    ensures most { result ≤ 131072 }
{
    if block < 12 {
        let unit = fragment_size(sup);
        content_len(sup, size, block).div_ceil(unit) * unit
    } else {
        block_size(sup)
    }
}
