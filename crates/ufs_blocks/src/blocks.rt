//! The blocks of an inode.
ghost use Rattle.std.specs.Prelude.{◌≡◌, ◌+◌, ◌≤◌, None, IfOk, IfSome};
ghost use Rattle.disk_defs.specs.Disk.{size_of, told_image};
ghost use Rattle.disk_defs.specs.declared.Area.TheVariants.{Image};
ghost use Rattle.image_defs.specs.Ask.{Done};
ghost use Rattle.rx_store.specs.Answers.{Answers};
ghost use Rattle.rx_store.specs.ReadFaults.{IsReadCounted};
ghost use Rattle.ufs_blocks.specs.Found.{blocks_found};
ghost use Rattle.ufs_blocks.specs.Placed.{ArePartsOf};
ghost use Rattle.ufs_inode_defs.specs.Inode.{sound_inode};
ghost use Rattle.ufs_inode_defs.specs.Superblock.{wrong_field};
ghost use Rattle.ufs_volume_defs.specs.Files.{sections_of};

use crate::laid::Parted;
use crate::parts::inode_parts;
use range_defs::LONGEST_IMAGE;
use rx_ranges::RangeList;
use rx_store::{Area, Bound, ReadFault, Store};
use rx_tree::Parts;
use std::alloc::Global;
use std::marker::Model;
use ufs_inode_defs::{Inode, Super};

/// The parts of an inode, and the bytes of the blocks of pointers that lead to its blocks.
#[derive(Debug, Drop)]
pub struct Blocks {
    pub parts: Parts,
    pub indirect: RangeList,
}

impl Model for Blocks {
    ghost use Rattle.ufs_blocks.specs.Found.{FoundBlocks};

    ghost Value = { FoundBlocks };

    ghost view = { λ b. record { parts = b.parts; indirect = b.indirect } };
}

/// The blocks of an inode: the content and the extended area as parts, each with the slack of its last block, and the blocks of
/// pointers. An image of more than 2^46 bytes is refused.
pub fn blocks_of<S: Store>(
    alloc: Global,
    store: &mut S,
    sup: &Super,
    inode: &Inode,
) -> Result<Blocks, ReadFault>
    requires sound { wrong_field sup.now ≡ None }
    requires good { sound_inode sup.now inode.now ≡ Done tt }
    requires inside { sup.now.at + sup.now.len ≤ size_of Image (S.state store.old) }
    requires stands { inode.now.at ≤ sup.now.at + sup.now.len }
    ensures told { IfSome (told_image (S.state store.old)) (λ image. Answers result (blocks_found image sup.now inode.now)) }
    ensures placed { IfOk result (λ blocks. IfSome (told_image (S.state store.old)) (λ image. ArePartsOf image sup.now (sections_of sup.now inode.now) blocks.parts)) }
    ensures same { S.state store.new ≡ S.state store.old }
    ensures counted { IsReadCounted Image result (S.faults store.old) (S.faults store.new) }
{
    if store.len(Area::Image)? > LONGEST_IMAGE {
        return Err(ReadFault::Limit(Bound::Image, LONGEST_IMAGE));
    }
    let mut looked = Vec::new(alloc);
    let Parted { parts, runs: _ } = inode_parts(alloc, store, sup, inode, 0, &mut looked)?;
    let indirect = RangeList::from_ranges(alloc, looked)?;
    Ok(Blocks {
        parts: Parts::from_vec(parts),
        indirect,
    })
}
