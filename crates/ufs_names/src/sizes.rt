//! What an inode is, and the places of sizes.
ghost use Rattle.std.specs.Prelude.{◌≡◌, ◌≤◌};
ghost use Rattle.range_defs.specs.declared.TheConstants.{LONGEST_IMAGE};
ghost use Rattle.ufs_inode_defs.specs.Inode as inode_spec;
ghost use Rattle.ufs_inode_defs.specs.Superblock as superblock_spec;

use ufs_inode_defs::{Inode, Super};

/// Whether an inode is a directory.
pub(crate) fn is_directory(inode: &Inode) -> bool
    ensures { result ≡ inode_spec.is_directory inode.now }
{
    inode.mode & 0xF000 == 0x4000
}

/// The place in the image of an inode's size.
pub(crate) fn size_place(sup: &Super, inode: &Inode) -> u64
    requires { inode.now.at ≤ LONGEST_IMAGE }
    ensures { result ≡ inode_spec.size_place sup.now inode.now }
{
    inode.at + if sup.version == 1 { 8 } else { 16 }
}

/// The place in the image of the superblock.
pub(crate) fn super_place(sup: &Super) -> u64
    requires { sup.now.at ≤ LONGEST_IMAGE }
    ensures { result ≡ superblock_spec.super_place sup.now }
{
    sup.at + if sup.version == 1 { 8_192 } else { 65_536 }
}
