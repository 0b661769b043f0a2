//! The tests of an inode that is reached.
ghost use Rattle.std.specs.Prelude.{◌≡◌, ◌≢◌, ◌+◌, ◌*◌, ◌≤◌, Err, IfOk, List, ℕ};
ghost use Rattle.image_defs.specs.Ask.{Done, result_of};
ghost use Rattle.rx_store.specs.Answers.{Answers};
ghost use Rattle.ufs_inode_defs.specs.Inode as spec;
ghost use Rattle.ufs_inode_defs.specs.Inode.{sound_inode, tested_inode};

use rx_store::{ReadFault, Sort, What};
use ufs_inode_defs::{Inode, Super};
use ufs_super::stated_block_size;

/// Whether an inode is a snapshot: the flag `SF_SNAPSHOT` of sys/stat.h.
fn is_snapshot(inode: &Inode) -> bool
    ensures { result ≡ spec.is_snapshot inode.now }
{
    inode.flags & 0x0020_0000 != 0
}

/// The bytes that the pointers of an inode reach, for so many bytes in a block and so many pointers in one.
fn reach_of(block: u32, pointers: u32) -> u128
    ensures { result ≡ block * (12 + pointers + pointers * pointers + pointers * (pointers * pointers)) }
{
    let count = u128::from(pointers);
    u128::from(block) * (12 + count + count * count + count * (count * count))
}

/// The bytes that the pointers of an inode reach.
fn reach(sup: &Super) -> u128
    ensures { result ≡ spec.reach sup.now }
{
    reach_of(stated_block_size(sup), sup.nindir)
}

/// Whether an inode's content is longer than 2^62 bytes or than its pointers reach.
fn is_too_long(sup: &Super, inode: &Inode) -> bool
    ensures { result ≡ spec.is_too_long sup.now inode.now }
{
    inode.size > 1 << 62 || u128::from(inode.size) > reach(sup)
}

/// Whether an inode's extended area is longer than two blocks.
fn is_ext_too_long(sup: &Super, inode: &Inode) -> bool
    ensures { result ≡ spec.is_ext_too_long sup.now inode.now }
{
    u64::from(inode.extsize) > 2 * u64::from(stated_block_size(sup))
}

/// The place of an inode's size in the image.
fn size_place(sup: &Super, inode: &Inode) -> u64
    requires { inode.now.at + 128 ≤ 18446744073709551615 }
    ensures { result ≡ spec.size_place sup.now inode.now }
{
    inode.at + if sup.version == 1 { 8 } else { 16 }
}

/// The place of an inode's flags in the image.
fn flags_place(sup: &Super, inode: &Inode) -> u64
    requires { inode.now.at + 128 ≤ 18446744073709551615 }
    ensures { result ≡ spec.flags_place sup.now inode.now }
{
    inode.at + if sup.version == 1 { 100 } else { 88 }
}

/// An inode that passes the tests.
pub(crate) fn tested(sup: &Super, inode: Inode) -> Result<Inode, ReadFault>
    requires ends { inode.at + 128 ≤ 18446744073709551615 }
    ensures answer { (image : List ℕ) → Answers result (result_of image (tested_inode sup.now inode)) }
    ensures is { IfOk result (λ found. found ≡ inode) }
    ensures sound { IfOk result (λ found. sound_inode sup.now found ≡ Done tt) }
    ensures calm { result ≢ Err ReadFault.Device }
    ensures lean { result ≢ Err ReadFault.NoMemory }
{
    if inode.mode == 0 {
        return Err(ReadFault::Damaged(Sort::DeadInode, inode.at));
    }
    if is_snapshot(&inode) {
        return Err(ReadFault::Unsupported(What::Snapshot, flags_place(sup, &inode)));
    }
    if is_too_long(sup, &inode) {
        return Err(ReadFault::Damaged(Sort::FileSize, size_place(sup, &inode)));
    }
    if is_ext_too_long(sup, &inode) {
        return Err(ReadFault::Damaged(Sort::FileSize, inode.at + 92));
    }
    Ok(inode)
}
