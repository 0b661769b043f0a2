//! The reads of inodes.
ghost use Rattle.std.specs.Prelude.{◌≡◌, ◌≢◌, Err, None, ◌+◌, ◌-◌, ◌^◌, ◌<◌, ◌≤◌, false, true, IfErr, IfOk, IfSome, IsNone, IsSome, OnOk};
ghost use Rattle.bytes_defs.specs.Bytes.{part};
ghost use Rattle.disk_defs.specs.Count.{IsCountedIn};
ghost use Rattle.disk_defs.specs.Disk.{size_of, told_image};
ghost use Rattle.disk_defs.specs.declared.Area.TheVariants.{Image};
ghost use Rattle.image_defs.specs.Ask.{Done, result_of};
ghost use Rattle.image_reads.specs.Steps.{IsNoRefusal, KeptWithin, ReadsAs};
ghost use Rattle.rx_store.specs.Answers.{Answers};
ghost use Rattle.rx_store.specs.ReadFaults.{IsReadCounted};
ghost use Rattle.ufs_inode_defs.specs.Inode.{inode_of, sound_inode, inode_named};
ghost use Rattle.ufs_inode_defs.specs.Layout.{layout_of};
ghost use Rattle.ufs_inode_defs.specs.Superblock as spec;
ghost use Rattle.ufs_inode_defs.specs.Superblock.{wrong_field};
ghost use Rattle.ufs_inode.specs.Block.{HasRange, IsBlockOf};

use crate::block::InodeBlock;
use crate::fields::{inode_1_from, inode_2_from};
use crate::place::{bytes_in_front, has_inode, inode_place};
use crate::tested::tested;
use image_reads::keep;
use range_defs::Range;
use rx_store::{Fault, ReadFault, Sort, Store};
use ufs_inode_defs::{Inode, Super};
use ufs_super::{inode_len, read_bytes, stated_block_size};

/// The inode that stands at a place, sound or not.
fn stored_inode<S: Store>(store: &mut S, sup: &Super, at: u64) -> Result<Inode, Fault>
    requires inside { at + (layout_of sup.now.version).inode_len ≤ size_of Image (S.state store.old) }
    ensures told { IfOk result (λ inode. IfSome (told_image (S.state store.old)) (λ image. inode ≡ inode_of sup.now at (part image at (layout_of sup.now.version).inode_len))) }
    ensures place { IfOk result (λ inode. inode.at ≡ at) }
    ensures same { S.state store.new ≡ S.state store.old }
    ensures counted { IsCountedIn Image result (S.faults store.old) (S.faults store.new) }
{
    if sup.version == 1 {
        let bytes = read_bytes::<128, S>(store, at)?;
        return Ok(inode_1_from(sup.order, at, &bytes));
    }
    let bytes = read_bytes::<256, S>(store, at)?;
    Ok(inode_2_from(sup.order, at, &bytes))
}

/// The place of the inode of a number, where the volume has one.
fn known_place(sup: &Super, number: u32) -> Option<u64>
    requires sound { wrong_field sup.now ≡ None }
    requires fits { sup.now.at + sup.now.len < 2 ^ 64 }
    ensures none { IsNone result → spec.has_inode sup.now number ≡ false }
    ensures has { IsSome result → spec.has_inode sup.now number ≡ true }
    ensures place { IfSome result (λ at. at ≡ spec.inode_place sup.now number) }
    ensures ends { IfSome result (λ at. at + (layout_of sup.now.version).inode_len ≤ sup.now.at + sup.now.len) }
    ensures room { IfSome result (λ at. at + 128 ≤ 18446744073709551615) }
{
    if has_inode(sup, number) {
        Some(inode_place(sup, number) as u64)
    } else {
        None
    }
}

/// The inode of a number that an entry at a place names, where it passes the tests.
pub fn read_inode<S: Store>(
    store: &mut S,
    sup: &Super,
    number: u32,
    entry: u64,
) -> Result<Inode, ReadFault>
    requires sound { wrong_field sup.now ≡ None }
    requires inside { sup.now.at + sup.now.len ≤ size_of Image (S.state store.old) }
    ensures told { IfSome (told_image (S.state store.old)) (λ image. Answers result (result_of image (inode_named sup.now number entry))) }
    ensures place { IfOk result (λ inode. inode.at ≡ spec.inode_place sup.now number) }
    ensures within { OnOk result (spec.has_inode sup.now number ≡ true) }
    ensures ends { IfOk result (λ inode. inode.at + (layout_of sup.now.version).inode_len ≤ sup.now.at + sup.now.len) }
    ensures tested { IfOk result (λ inode. sound_inode sup.now inode ≡ Done tt) }
    ensures lean { result ≢ Err ReadFault.NoMemory }
    ensures same { S.state store.new ≡ S.state store.old }
    ensures counted { IsReadCounted Image result (S.faults store.old) (S.faults store.new) }
{
    let Some(at) = known_place(sup, number) else {
        return Err(ReadFault::Damaged(Sort::InodeNumber, entry));
    };
    let inode = stored_inode(store, sup, at)?;
    tested(sup, inode)
}

/// Has a block hold the inode of a number, which stands at a place. Where it doesn't, the block of the inode table round the place
/// is read, as far as it lies in the volume.
fn hold_inode<S: Store>(
    store: &mut S,
    sup: &Super,
    number: u32,
    at: u64,
    block: &mut InodeBlock,
) -> Result<(), ReadFault>
    requires sound { wrong_field sup.now ≡ None }
    requires inside { sup.now.at + sup.now.len ≤ size_of Image (S.state store.old) }
    requires has { spec.has_inode sup.now number ≡ true }
    requires stands { at ≡ spec.inode_place sup.now number }
    requires block { IsBlockOf (told_image (S.state store.old)) block.old }
    ensures calm { IfErr result IsNoRefusal }
    ensures holds { OnOk result (HasRange block.new at (layout_of sup.now.version).inode_len) }
    ensures block { IsBlockOf (told_image (S.state store.new)) block.new }
    ensures same { S.state store.new ≡ S.state store.old }
    ensures counted { IsReadCounted Image result (S.faults store.old) (S.faults store.new) }
{
    if block.has(at, u64::from(inode_len(sup.version))) {
        return Ok(());
    }
    let begin = at - bytes_in_front(sup, number);
    let len = u64::from(stated_block_size(sup)).min(sup.at + sup.len - begin);
    block.read(store, begin, len as usize)
}

/// The inode at a place in a block that holds it, sound or not.
fn held_inode(sup: &Super, at: u64, block: &InodeBlock) -> Inode
    requires { HasRange block.now at (layout_of sup.now.version).inode_len }
    ensures is { result ≡ inode_of sup.now at (part block.now.bytes.items (at - block.now.at) (layout_of sup.now.version).inode_len) }
    ensures place { result.at ≡ at }
{
    if sup.version == 1 {
        inode_1_from(sup.order, at, block.range(at, 128))
    } else {
        inode_2_from(sup.order, at, block.range(at, 256))
    }
}

/// The same as `read_inode`, through the block of the inode table that was read last.
fn inode_through<S: Store>(
    store: &mut S,
    sup: &Super,
    number: u32,
    entry: u64,
    block: &mut InodeBlock,
) -> Result<Inode, ReadFault>
    requires sound { wrong_field sup.now ≡ None }
    requires inside { sup.now.at + sup.now.len ≤ size_of Image (S.state store.old) }
    requires block { IsBlockOf (told_image (S.state store.old)) block.old }
    ensures told { IfSome (told_image (S.state store.old)) (λ image. Answers result (result_of image (inode_named sup.now number entry))) }
    ensures place { IfOk result (λ inode. inode.at ≡ spec.inode_place sup.now number) }
    ensures within { OnOk result (spec.has_inode sup.now number ≡ true) }
    ensures ends { IfOk result (λ inode. inode.at + (layout_of sup.now.version).inode_len ≤ sup.now.at + sup.now.len) }
    ensures tested { IfOk result (λ inode. sound_inode sup.now inode ≡ Done tt) }
    ensures block { IsBlockOf (told_image (S.state store.new)) block.new }
    ensures same { S.state store.new ≡ S.state store.old }
    ensures counted { IsReadCounted Image result (S.faults store.old) (S.faults store.new) }
{
    let Some(at) = known_place(sup, number) else {
        return Err(ReadFault::Damaged(Sort::InodeNumber, entry));
    };
    hold_inode(store, sup, number, at, block)?;
    tested(sup, held_inode(sup, at, block))
}

/// The same as `read_inode`, with the range of the inode kept. An inode that stands in the block that was read last costs no call.
pub fn look_at_inode<S: Store>(
    store: &mut S,
    sup: &Super,
    number: u32,
    entry: u64,
    block: &mut InodeBlock,
    looked: &mut Vec<Range>,
) -> Result<Inode, ReadFault>
    requires sound { wrong_field sup.now ≡ None }
    requires inside { sup.now.at + sup.now.len ≤ size_of Image (S.state store.old) }
    requires block { IsBlockOf (told_image (S.state store.old)) block.old }
    ensures reads { ReadsAs (told_image (S.state store.old)) (inode_named sup.now number entry) looked.old.items looked.new.items result }
    ensures place { IfOk result (λ inode. inode.at ≡ spec.inode_place sup.now number) }
    ensures within { OnOk result (spec.has_inode sup.now number ≡ true) }
    ensures ends { IfOk result (λ inode. inode.at + (layout_of sup.now.version).inode_len ≤ sup.now.at + sup.now.len) }
    ensures tested { IfOk result (λ inode. sound_inode sup.now inode ≡ Done tt) }
    ensures kept { OnOk result (KeptWithin (sup.now.at + sup.now.len) looked.old.items looked.new.items) }
    ensures block { IsBlockOf (told_image (S.state store.new)) block.new }
    ensures same { S.state store.new ≡ S.state store.old }
    ensures counted { IsReadCounted Image result (S.faults store.old) (S.faults store.new) }
{
    let inode = inode_through(store, sup, number, entry, block)?;
    let range = Range {
        at: inode.at,
        len: u64::from(inode_len(sup.version)),
    };
    keep(looked, range)?;
    Ok(inode)
}
