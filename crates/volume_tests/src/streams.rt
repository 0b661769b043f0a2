//! The blocks of a file behind its twelfth, in a UFS2, and in fragments, in a UFS1.
use crate::bytes::{Written, put, with};
use crate::ufs_volumes::ufs2;
use range_defs::Range;
use rx_ranges::{Piece, PieceKind};
use rx_store::{MemStore, ReadFault, Sort};
use std::alloc::Global;
use std::test::Fail;
use ufs_blocks::{Blocks, blocks_of};
use ufs_inode::read_inode;
use ufs_super::read_super;

/// A UFS1 of 64 fragments of 1,024 bytes, four to a block, whose inodes begin at fragment 18. Inode 3 has one byte, in fragment 28.
const FRAGMENTS: &[Written] = &[
    // struct fs at 8,192
    (8208, &[18]),
    (8236, &[1, 0, 0, 0, 0, 16, 0, 0, 0, 4, 0, 0, 4]),
    (8308, &[0, 4, 0, 0, 32]),
    (8376, &[32, 0, 0, 0, 64]),
    (9564, &[0x54, 0x19, 0x01]),
    // struct ufs1_dinode of inode 3, at 18,432 + 3 * 128: mode 0100644, size 1, fragment 28
    (18_816, &[0xA4, 0x81]),
    (18_824, &[1]),
    (18_856, &[28]),
];

/// The blocks of inode 3 of a volume that is the whole image.
fn blocks_in(alloc: Global, volume: &[u8]) -> Result<Blocks, ReadFault> {
    let mut store = MemStore::of_image(alloc, volume)?;
    let sup = read_super(&mut store, 0, volume.len() as u64)?;
    let inode = read_inode(&mut store, &sup, 3, 0)?;
    blocks_of(alloc, &mut store, &sup, &inode)
}

#[test]
fn blocks_behind_the_twelfth_are_found(rt: HostRuntime) -> Result<(), Fail> {
    let blocks = blocks_in(rt.alloc(), &ufs2())?;
    let parts = blocks.parts.items();
    assert_eq!(rt; parts.len(), 1);
    let content = &parts[0];
    assert_eq!(rt; content.size, 393_217);
    let pieces = content.pieces.items();
    assert_eq!(rt; pieces.len(), 13);
    let last = Piece {
        from: 393_216,
        len: 1,
        kind: PieceKind::Disk,
        at: 163_840,
    };
    assert_eq!(rt; pieces[12], last);
    let slack = [Range {
        at: 163_841,
        len: 32_767,
    }];
    assert_eq!(rt; content.slack.items(), slack.as_slice());
    let indirect = [Range {
        at: 131_072,
        len: 32_768,
    }];
    assert_eq!(rt; blocks.indirect.items(), indirect.as_slice());
    Ok(())
}

#[test]
fn a_ufs1_has_slack_up_to_the_end_of_the_fragment(rt: HostRuntime) -> Result<(), Fail> {
    let volume: [u8; 65_536] = with(FRAGMENTS);
    let blocks = blocks_in(rt.alloc(), &volume)?;
    let parts = blocks.parts.items();
    assert_eq!(rt; parts.len(), 1);
    let content = &parts[0];
    let slack = [Range {
        at: 28_673,
        len: 1_023,
    }];
    assert_eq!(rt; content.slack.items(), slack.as_slice());
    Ok(())
}

#[test]
fn a_pointer_out_of_the_volume_is_damage(rt: HostRuntime) -> Result<(), Fail> {
    for (at, byte, place) in [(82_807, 0x80, 82_800), (131_072, 41, 131_072)] {
        let mut volume = ufs2();
        put(&mut volume, at, &[byte]);
        assert_eq!(rt;
            blocks_in(rt.alloc(), &volume).err(),
            Some(ReadFault::Damaged(Sort::BlockPointer, place))
        );
    }
    Ok(())
}
