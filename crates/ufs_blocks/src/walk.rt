//! The walk over the pointers of a stream.
ghost use Rattle.std.specs.Prelude.{◌≡◌, ◌≢◌, ◌+◌, ◌*◌, ◌^◌, ◌≤◌, None, Err, IfOk, OnOk, length};
ghost use Rattle.bytes_defs.specs.Numbers.{signed_at};
ghost use Rattle.disk_defs.specs.Disk.{size_of, told_image};
ghost use Rattle.disk_defs.specs.declared.Area.TheVariants.{Image};
ghost use Rattle.image_reads.specs.Steps.{KeptWithin, ReadsAs};
ghost use Rattle.range_defs.specs.declared.TheConstants.{LONGEST_IMAGE};
ghost use Rattle.rx_store.specs.ReadFaults.{IsReadCounted};
ghost use Rattle.ufs_blocks.specs.UnderWay.{HasGone, IsUnderWay, Settles};
ghost use Rattle.ufs_inode_defs.specs.Blocks as blocks_spec;
ghost use Rattle.ufs_inode_defs.specs.Layout as layout_spec;
ghost use Rattle.ufs_inode_defs.specs.Layout.{layout_of};
ghost use Rattle.ufs_inode_defs.specs.Stream as stream_spec;
ghost use Rattle.ufs_inode_defs.specs.Superblock.{wrong_field};

use crate::laid::{Laid, Pointer};
use crate::step::{counted_runs, led, with_block, with_hole, with_visit};
use bytes_defs::{i32_at, i64_at};
use image_reads::bytes_at;
use range_defs::Range;
use rx_store::{ReadFault, Store};
use std::alloc::Global;
use ufs_inode_defs::Super;
use ufs_super::{allocated_len, block_count, block_size, pointer_len, span};

/// What a direct pointer maps: a block.
pub(crate) fn direct_block(
    sup: &Super,
    size: u64,
    laid: Laid,
    pointer: &Pointer,
) -> Result<Laid, ReadFault>
    requires sound { wrong_field sup.now ≡ None }
    requires near { sup.now.at + sup.now.len ≤ LONGEST_IMAGE }
    requires short { size ≤ 2 ^ 62 }
    requires way { IsUnderWay sup.now size laid }
    ensures settles { Settles result (blocks_spec.mapped_blocks 0 sup.now size laid pointer.now) }
    ensures way_after { IfOk result (IsUnderWay sup.now size) }
    ensures gone { IfOk result (HasGone sup.now size 1 laid) }
    ensures calm { result ≢ Err ReadFault.Device }
{
    if block_count(sup, size) <= laid.block {
        return Ok(laid);
    }
    match led(sup, pointer, allocated_len(sup, size, laid.block))? {
        None => counted_runs(with_hole(sup, size, 1, laid)?),
        Some(place) => counted_runs(with_block(sup, size, place, laid)?),
    }
}

/// The pointer of a number in the bytes of a block of pointers at a place.
fn pointer_of(sup: &Super, place: u64, bytes: &[u8], number: u64) -> Pointer
    requires inside { number * layout_spec.pointer_len sup.now.version + layout_spec.pointer_len sup.now.version ≤ length bytes.now }
    requires near { place + length bytes.now ≤ LONGEST_IMAGE }
    ensures at { result.at ≡ place + number * layout_spec.pointer_len sup.now.version }
    ensures value { result.value ≡ signed_at sup.now.order (layout_of sup.now.version).pointer bytes.now (number * layout_spec.pointer_len sup.now.version) }
{
    let skip = number * pointer_len(sup);
    let value = if sup.version == 1 {
        i64::from(i32_at(sup.order, bytes, skip as usize))
    } else {
        i64_at(sup.order, bytes, skip as usize)
    };
    Pointer {
        at: place + skip,
        value,
    }
}

/// What a pointer maps through so many levels of blocks of pointers: its blocks in order.
pub(crate) fn mapped_blocks<S: Store>(
    alloc: Global,
    store: &mut S,
    sup: &Super,
    size: u64,
    level: u32,
    laid: Laid,
    pointer: &Pointer,
    looked: &mut Vec<Range>,
) -> Result<Laid, ReadFault>
    requires sound { wrong_field sup.now ≡ None }
    requires inside { sup.now.at + sup.now.len ≤ size_of Image (S.state store.old) }
    requires near { sup.now.at + sup.now.len ≤ LONGEST_IMAGE }
    requires short { size ≤ 2 ^ 62 }
    requires few { level ≤ 3 }
    requires way { IsUnderWay sup.now size laid }
    ensures reads { ReadsAs (told_image (S.state store.old)) (blocks_spec.mapped_blocks level sup.now size laid pointer.now) looked.old.items looked.new.items result }
    ensures way_after { IfOk result (IsUnderWay sup.now size) }
    ensures gone { IfOk result (HasGone sup.now size (stream_spec.span sup.now level) laid) }
    ensures kept_within { OnOk result (KeptWithin (sup.now.at + sup.now.len) looked.old.items looked.new.items) }
    ensures same { S.state store.new ≡ S.state store.old }
    ensures counted { IsReadCounted Image result (S.faults store.old) (S.faults store.new) }
{
    if level == 0 {
        return direct_block(sup, size, laid, pointer);
    }
    if block_count(sup, size) <= laid.block {
        return Ok(laid);
    }
    let Some(place) = led(sup, pointer, block_size(sup))? else {
        return counted_runs(with_hole(sup, size, span(sup, level), laid)?);
    };
    let mut laid = with_visit(laid)?;
    let bytes = bytes_at(alloc, store, place, block_size(sup), looked)?;
    for number in 0..u64::from(sup.nindir) {
        let pointer = pointer_of(sup, place, &bytes, number);
        laid = mapped_blocks(alloc, store, sup, size, level - 1, laid, &pointer, looked)?;
    }
    Ok(laid)
}
