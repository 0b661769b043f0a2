//! The names that the entries of a directory give.
ghost use Rattle.std.specs.Prelude.{◌≡◌, ◌+◌, ◌%◌, ◌≤◌, None, IfOk, OnOk};
ghost use Rattle.disk_defs.specs.Disk.{size_of, told_image};
ghost use Rattle.disk_defs.specs.declared.Area.TheVariants.{Image};
ghost use Rattle.image_reads.specs.Steps.{ReadsAs, KeptWithin};
ghost use Rattle.piece_defs.specs.Places.{AreWithin};
ghost use Rattle.range_defs.specs.declared.TheConstants.{LONGEST_IMAGE};
ghost use Rattle.rx_store.specs.ReadFaults.{IsReadCounted};
ghost use Rattle.ufs_blocks.specs.Placed.{DoBlocksLieWithin};
ghost use Rattle.ufs_inode.specs.Block.{IsBlockOf};
ghost use Rattle.ufs_inode_defs.specs.Superblock.{wrong_field};
ghost use Rattle.ufs_volume_defs.specs.Names as names_spec;
ghost use Rattle.ufs_names.specs.Walked as walk_spec;
ghost use Rattle.ufs_names.specs.Walked.{IsNamed, IsWalked};

use crate::block::block_names;
use crate::name::Name;
use crate::places::{are_placed, placed_block};
use crate::seen::Seen;
use crate::sizes::size_place;
use crate::walk::Walk;
use rx_ranges::Piece;
use rx_store::{ReadFault, Sort, Store};
use std::alloc::Global;
use ufs_blocks::content_blocks;
use ufs_inode_defs::Super;
use ufs_super::block_count;

/// The names that the blocks of a directory with these pieces give, behind those that were found. All their places are tested before
/// one block is read. No list of blocks is made, since an image may map one block for billions of them.
fn blocks_names<S: Store>(
    alloc: Global,
    store: &mut S,
    sup: &Super,
    directory: &Name,
    mut walk: Walk,
    pieces: &[Piece],
    seen: &mut Seen,
) -> Result<Walk, ReadFault>
    requires sound { wrong_field sup.now ≡ None }
    requires inside { sup.now.at + sup.now.len ≤ size_of Image (S.state store.old) }
    requires near { sup.now.at + sup.now.len ≤ LONGEST_IMAGE }
    requires named { IsNamed sup.now directory.now }
    requires whole { directory.now.inode.size % 512 ≡ 0 }
    requires within { AreWithin LONGEST_IMAGE pieces.now }
    requires lie { DoBlocksLieWithin sup.now directory.now.inode.size pieces.now }
    requires walked { IsWalked sup.now walk }
    requires inodes { IsBlockOf (told_image (S.state store.old)) seen.old.inodes }
    ensures reads { ReadsAs (told_image (S.state store.old)) (walk_spec.blocks_names sup.now directory.now walk pieces.now) seen.old.looked.items seen.new.looked.items result }
    ensures walked { IfOk result (IsWalked sup.now) }
    ensures kept { OnOk result (KeptWithin (sup.now.at + sup.now.len) seen.old.looked.items seen.new.looked.items) }
    ensures inodes { OnOk result (IsBlockOf (told_image (S.state store.new)) seen.new.inodes) }
    ensures same { S.state store.new ≡ S.state store.old }
    ensures counted { IsReadCounted Image result (S.faults store.old) (S.faults store.new) }
{
    let inode = directory.inode.inode();
    are_placed(sup, &inode, pieces)?;
    let mut passed = 0;
    for index in 0..block_count(sup, inode.size) {
        let block = placed_block(sup, &inode, pieces, &mut passed, index)?;
        walk = block_names(alloc, store, sup, directory, walk, &block, seen)?;
    }
    Ok(walk)
}

/// The names that the entries of a directory give, behind those that were found.
pub(crate) fn directory_names<S: Store>(
    alloc: Global,
    store: &mut S,
    sup: &Super,
    walk: Walk,
    directory: &Name,
    seen: &mut Seen,
) -> Result<Walk, ReadFault>
    requires sound { wrong_field sup.now ≡ None }
    requires inside { sup.now.at + sup.now.len ≤ size_of Image (S.state store.old) }
    requires near { sup.now.at + sup.now.len ≤ LONGEST_IMAGE }
    requires named { IsNamed sup.now directory.now }
    requires walked { IsWalked sup.now walk }
    requires inodes { IsBlockOf (told_image (S.state store.old)) seen.old.inodes }
    ensures reads { ReadsAs (told_image (S.state store.old)) (names_spec.directory_names sup.now walk directory.now) seen.old.looked.items seen.new.looked.items result }
    ensures walked { IfOk result (IsWalked sup.now) }
    ensures kept { OnOk result (KeptWithin (sup.now.at + sup.now.len) seen.old.looked.items seen.new.looked.items) }
    ensures inodes { OnOk result (IsBlockOf (told_image (S.state store.new)) seen.new.inodes) }
    ensures same { S.state store.new ≡ S.state store.old }
    ensures counted { IsReadCounted Image result (S.faults store.old) (S.faults store.new) }
{
    let inode = directory.inode.inode();
    if inode.size % 512 != 0 {
        return Err(ReadFault::Damaged(Sort::DirSize, size_place(sup, &inode)));
    }
    let laid = content_blocks(alloc, store, sup, &inode, walk.runs, &mut seen.looked)?;
    let runs = laid.before + laid.pieces.len() as u64 + laid.visited;
    let walk = walk.with_runs(runs);
    blocks_names(alloc, store, sup, directory, walk, &laid.pieces, seen)
}
