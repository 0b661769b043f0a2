//! Where inodes stand.
ghost use Rattle.std.specs.Prelude.{◌≡◌, ◌-◌, ◌*◌, ◌%◌, ◌^◌, ◌<◌, bit_and, None};
ghost use Rattle.ufs_inode_defs.specs.Layout.{layout_of};
ghost use Rattle.ufs_inode_defs.specs.Superblock as spec;
ghost use Rattle.ufs_inode_defs.specs.Superblock.{wrong_field};

use ufs_inode_defs::Super;
use ufs_super::{inode_len, non_negative, stated_fragment_size};

/// The product of two counts.
fn product(a: u32, b: u32) -> u64
    ensures { result ≡ a * b }
{
    u64::from(a) * u64::from(b)
}

/// The bytes of so many units.
fn scaled(count: u128, unit: u32) -> u128
    requires { count < 2 ^ 66 }
    ensures bytes { result ≡ count * unit }
    ensures bound { result < 2 ^ 98 }
{
    count * u128::from(unit)
}

/// The bits of a group's number that move it round in UFS1: those outside a mask.
fn moving_bits(group: u32, mask: u32) -> u32
    ensures { result ≡ bit_and group (4294967295 - mask) }
{
    group & !mask
}

/// The fragment at which a group begins: the macro `cgstart`. The groups of UFS1 are moved round.
fn group_start(sup: &Super, group: u32) -> u128
    ensures start { result ≡ spec.group_start sup.now group }
    ensures bound { result < 2 ^ 65 }
{
    let start = product(non_negative(sup.fpg), group);
    if sup.version != 1 {
        return u128::from(start);
    }
    let bits = moving_bits(group, sup.old_cgmask);
    u128::from(start) + u128::from(product(non_negative(sup.old_cgoffset), bits))
}

/// The bytes in front of an inode in its block of the table.
pub(crate) fn bytes_in_front(sup: &Super, number: u32) -> u64
    requires { wrong_field sup.now ≡ None }
    ensures { result ≡ (layout_of sup.now.version).inode_len * (number % sup.now.inopb) }
{
    product(inode_len(sup.version), number % sup.inopb)
}

/// The place of an inode in the image: the macros `ino_to_fsba` and `ino_to_fsbo`. It may pass 64 bits.
#[tactic(auto, unfolding(ufs_inode_defs::specs::Superblock::inode_place))]
pub(crate) fn inode_place(sup: &Super, number: u32) -> u128
    requires sound { wrong_field sup.now ≡ None }
    ensures place { result ≡ spec.inode_place sup.now number }
    ensures bound { result < 2 ^ 100 }
{
    let group = group_start(sup, number / sup.ipg);
    let blocks = product(non_negative(sup.frag), number % sup.ipg / sup.inopb);
    let fragment = group + u128::from(non_negative(sup.iblkno)) + u128::from(blocks);
    u128::from(sup.at)
        + scaled(fragment, stated_fragment_size(sup))
        + u128::from(bytes_in_front(sup, number))
}

/// Whether the volume has an inode of a number, and it lies in the volume.
#[tactic(auto, unfolding(ufs_inode_defs::specs::Superblock::has_inode))]
pub(crate) fn has_inode(sup: &Super, number: u32) -> bool
    requires sound { wrong_field sup.now ≡ None }
    ensures { result ≡ spec.has_inode sup.now number }
{
    let ends = inode_place(sup, number) + u128::from(inode_len(sup.version));
    u64::from(number) < u64::from(sup.ncg) * u64::from(sup.ipg)
        && ends <= u128::from(sup.at) + u128::from(sup.len)
}
