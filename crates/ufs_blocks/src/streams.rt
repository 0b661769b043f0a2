//! The streams of an inode.
ghost use Rattle.std.specs.Prelude.{◌≡◌, ◌≢◌, ◌+◌, ◌*◌, ◌^◌, ◌<◌, ◌≤◌, ℕ, true, None, Err, IfOk, IfSome, OnOk, List, get_or, length, pos};
ghost use Rattle.disk_defs.specs.Disk.{size_of, told_image};
ghost use Rattle.disk_defs.specs.declared.Area.TheVariants.{Image};
ghost use Rattle.image_defs.specs.Ask.{Done};
ghost use Rattle.image_defs.specs.Through.{through};
ghost use Rattle.image_reads.specs.Steps.{KeptWithin, ReadsAs};
ghost use Rattle.piece_defs.specs.Covering.{covers_from};
ghost use Rattle.piece_defs.specs.Places.{AreWithin};
ghost use Rattle.range_defs.specs.Places.{IsRangeList};
ghost use Rattle.range_defs.specs.declared.TheConstants.{LONGEST_IMAGE};
ghost use Rattle.rx_store.specs.ReadFaults.{IsReadCounted};
ghost use Rattle.rx_tree.specs.PartPieces.{ArePlain};
ghost use Rattle.rx_tree.specs.Within.{AreRangesWithin};
ghost use Rattle.ufs_blocks.specs.Placed.{DoBlocksLieWithin};
ghost use Rattle.ufs_blocks.specs.UnderWay.{HasGone, IsUnderWay, Settles};
ghost use Rattle.ufs_inode_defs.specs.BlockPlace.{AreStreamPieces, slack_of};
ghost use Rattle.ufs_inode_defs.specs.Blocks as blocks_spec;
ghost use Rattle.ufs_inode_defs.specs.Blocks.{most_runs, runs_of, stream_blocks};
ghost use Rattle.ufs_inode_defs.specs.Inode.{sound_inode};
ghost use Rattle.ufs_inode_defs.specs.Layout as layout_spec;
ghost use Rattle.ufs_inode_defs.specs.Layout.{layout_of};
ghost use Rattle.ufs_inode_defs.specs.Stream as stream_spec;
ghost use Rattle.ufs_inode_defs.specs.Stream.{content_stream, extended_stream, pointers_from};
ghost use Rattle.ufs_inode_defs.specs.Superblock.{wrong_field};

use crate::laid::{Laid, Pointer};
use crate::walk::{direct_block, mapped_blocks};
use range_defs::Range;
use rx_store::{ReadFault, Store};
use std::alloc::Global;
use ufs_inode_defs::{Inode, Super};
use ufs_super::pointer_len;

/// Nothing yet, where so many runs were counted before.
fn none_laid(alloc: Global, before: u64) -> Laid
    ensures { result ≡ blocks_spec.none_laid before }
{
    Laid {
        block: 0,
        pieces: Vec::new(alloc),
        slack: Vec::new(alloc),
        visited: 0,
        before,
    }
}

/// The pointer of a number among these, of which the first stands at `at` and each has `len` bytes.
fn pointer_in(at: u64, len: u64, values: &[i64], number: usize) -> Pointer
    requires inside { number < length values.now }
    requires few { length values.now ≤ 12 }
    requires narrow { len ≤ 8 }
    requires stands { at < 2 ^ 63 }
    ensures at { result.at ≡ at + number * len }
    ensures value { result.value ≡ get_or values.now number (pos 0) }
{
    Pointer {
        at: at + number as u64 * len,
        value: values[number],
    }
}

/// What direct pointers map, of which the first stands at `at` and each has `len` bytes.
fn direct_blocks(
    sup: &Super,
    size: u64,
    at: u64,
    len: u64,
    values: &[i64],
    mut laid: Laid,
) -> Result<Laid, ReadFault>
    requires sound { wrong_field sup.now ≡ None }
    requires near { sup.now.at + sup.now.len ≤ LONGEST_IMAGE }
    requires short { size ≤ 2 ^ 62 }
    requires way { IsUnderWay sup.now size laid }
    requires few { length values.now ≤ 12 }
    requires narrow { len ≤ 8 }
    requires stands { at < 2 ^ 63 }
    ensures settles { Settles result (through (blocks_spec.mapped_blocks 0 sup.now size) laid (pointers_from at len values.now)) }
    ensures way_after { IfOk result (IsUnderWay sup.now size) }
    ensures gone { IfOk result (HasGone sup.now size (length values.now) laid) }
    ensures calm { result ≢ Err ReadFault.Device }
{
    for number in 0..values.len() {
        let pointer = pointer_in(at, len, values, number);
        laid = direct_block(sup, size, laid, &pointer)?;
    }
    Ok(laid)
}

/// What three pointers map through one, two and three levels of blocks of pointers, of which the first stands at `at`.
fn rising_blocks<S: Store>(
    alloc: Global,
    store: &mut S,
    sup: &Super,
    size: u64,
    at: u64,
    values: &[i64],
    laid: Laid,
    looked: &mut Vec<Range>,
) -> Result<Laid, ReadFault>
    requires sound { wrong_field sup.now ≡ None }
    requires inside { sup.now.at + sup.now.len ≤ size_of Image (S.state store.old) }
    requires near { sup.now.at + sup.now.len ≤ LONGEST_IMAGE }
    requires short { size ≤ 2 ^ 62 }
    requires way { IsUnderWay sup.now size laid }
    requires three { length values.now ≡ 3 }
    requires stands { at < 2 ^ 63 }
    ensures reads { ReadsAs (told_image (S.state store.old)) (blocks_spec.rising_blocks 1 sup.now size laid (pointers_from at (layout_spec.pointer_len sup.now.version) values.now)) looked.old.items looked.new.items result }
    ensures way_after { IfOk result (IsUnderWay sup.now size) }
    ensures gone { IfOk result (HasGone sup.now size (stream_spec.span sup.now 1 + stream_spec.span sup.now 2 + stream_spec.span sup.now 3) laid) }
    ensures kept_within { OnOk result (KeptWithin (sup.now.at + sup.now.len) looked.old.items looked.new.items) }
    ensures same { S.state store.new ≡ S.state store.old }
    ensures counted { IsReadCounted Image result (S.faults store.old) (S.faults store.new) }
{
    let len = pointer_len(sup);
    let first = pointer_in(at, len, values, 0);
    let second = pointer_in(at, len, values, 1);
    let third = pointer_in(at, len, values, 2);
    let single = mapped_blocks(alloc, store, sup, size, 1, laid, &first, looked)?;
    let double = mapped_blocks(alloc, store, sup, size, 2, single, &second, looked)?;
    let triple = mapped_blocks(alloc, store, sup, size, 3, double, &third, looked)?;
    Ok(triple)
}

/// Where the pointers to the first blocks and those to blocks of pointers begin in an inode.
fn pointer_places(sup: &Super) -> (u64, u64)
    ensures direct { result.0 ≡ (layout_of sup.now.version).direct_at }
    ensures indirect { result.1 ≡ (layout_of sup.now.version).indirect_at }
    ensures small { result.0 + result.1 ≤ 512 }
{
    if sup.version == 1 {
        (40, 88)
    } else {
        (112, 208)
    }
}

/// The blocks of an inode's content, where so many runs were counted before.
pub fn content_blocks<S: Store>(
    alloc: Global,
    store: &mut S,
    sup: &Super,
    inode: &Inode,
    runs: u64,
    looked: &mut Vec<Range>,
) -> Result<Laid, ReadFault>
    requires sound { wrong_field sup.now ≡ None }
    requires good { sound_inode sup.now inode.now ≡ Done tt }
    requires stands { inode.now.at ≤ LONGEST_IMAGE }
    requires inside { sup.now.at + sup.now.len ≤ size_of Image (S.state store.old) }
    requires near { sup.now.at + sup.now.len ≤ LONGEST_IMAGE }
    requires few { runs ≤ most_runs }
    ensures reads { ReadsAs (told_image (S.state store.old)) (stream_blocks sup.now (content_stream sup.now inode.now) runs) looked.old.items looked.new.items result }
    ensures few_after { IfOk result (λ laid. runs_of laid ≤ most_runs) }
    ensures covered { IfOk result (λ laid. covers_from 0 inode.now.size laid.pieces ≡ true) }
    ensures plain { IfOk result (λ laid. ArePlain laid.pieces) }
    ensures within { IfOk result (λ laid. AreWithin (sup.now.at + sup.now.len) laid.pieces) }
    ensures blocks_lie_within { IfOk result (λ laid. DoBlocksLieWithin sup.now inode.now.size laid.pieces) }
    ensures slack { IfOk result (λ laid. IsRangeList laid.slack) }
    ensures slack_within { IfOk result (λ laid. AreRangesWithin (sup.now.at + sup.now.len) laid.slack) }
    ensures placed { IfOk result (λ laid. IfSome (told_image (S.state store.old)) (λ image. AreStreamPieces image sup.now (content_stream sup.now inode.now) laid.pieces)) }
    ensures behind { IfOk result (λ laid. IfSome (told_image (S.state store.old)) (λ image. laid.slack ≡ slack_of image sup.now (content_stream sup.now inode.now))) }
    ensures kept_within { OnOk result (KeptWithin (sup.now.at + sup.now.len) looked.old.items looked.new.items) }
    ensures same { S.state store.new ≡ S.state store.old }
    ensures counted { IsReadCounted Image result (S.faults store.old) (S.faults store.new) }
{
    let (direct_at, indirect_at) = pointer_places(sup);
    let none = none_laid(alloc, runs);
    let at = inode.at + direct_at;
    let direct = direct_blocks(sup, inode.size, at, pointer_len(sup), &inode.direct, none)?;
    let rising_at = inode.at + indirect_at;
    let laid = rising_blocks(
        alloc,
        store,
        sup,
        inode.size,
        rising_at,
        &inode.indirect,
        direct,
        looked,
    )?;
    Ok(laid)
}

/// The blocks of an inode's extended area, where so many runs were counted before.
pub(crate) fn extended_blocks(
    alloc: Global,
    sup: &Super,
    inode: &Inode,
    runs: u64,
) -> Result<Laid, ReadFault>
    requires sound { wrong_field sup.now ≡ None }
    requires good { sound_inode sup.now inode.now ≡ Done tt }
    requires stands { inode.now.at ≤ LONGEST_IMAGE }
    requires near { sup.now.at + sup.now.len ≤ LONGEST_IMAGE }
    requires few { runs ≤ most_runs }
    ensures settles { Settles result (stream_blocks sup.now (extended_stream inode.now) runs) }
    ensures few_after { IfOk result (λ laid. runs_of laid ≤ most_runs) }
    ensures covered { IfOk result (λ laid. covers_from 0 inode.now.extsize laid.pieces ≡ true) }
    ensures plain { IfOk result (λ laid. ArePlain laid.pieces) }
    ensures within { IfOk result (λ laid. AreWithin (sup.now.at + sup.now.len) laid.pieces) }
    ensures slack { IfOk result (λ laid. IsRangeList laid.slack) }
    ensures slack_within { IfOk result (λ laid. AreRangesWithin (sup.now.at + sup.now.len) laid.slack) }
    ensures placed { IfOk result (λ laid. (image : List ℕ) → AreStreamPieces image sup.now (extended_stream inode.now) laid.pieces × (laid.slack ≡ slack_of image sup.now (extended_stream inode.now))) }
    ensures calm { result ≢ Err ReadFault.Device }
{
    let none = none_laid(alloc, runs);
    let size = u64::from(inode.extsize);
    let laid = direct_blocks(sup, size, inode.at + 96, 8, &inode.ext, none)?;
    Ok(laid)
}
