//! Forks of HFS+, on a volume whose extents file was written by hand.
ghost use Rattle.std.specs.Prelude.{◌≡◌, ◌+◌, ◌≤◌};
ghost use Rattle.hfs_defs.specs.Header.{IsSoundHeader};

use crate::bytes::{Written, put, with};
use hfs_defs::{Extent, Fork, Header};
use hfs_extents::{ForkPieces, Overflow, fork_pieces};
use range_defs::Range;
use rx_ranges::{Piece, PieceKind};
use rx_store::{MemStore, ReadFault, Sort, What};
use std::alloc::Global;
use std::test::Fail;

const NONE: Extent = Extent { start: 0, count: 0 };

fn one_block(start: u32) -> Extent {
    Extent { start, count: 1 }
}

/// A fork of these blocks, one extent after the other.
fn fork(logical_size: u64, total_blocks: u32, extents: [Extent; 8]) -> Fork {
    Fork {
        logical_size,
        total_blocks,
        extents,
    }
}

/// A fork of two extents.
fn fork_of_two(logical_size: u64, total_blocks: u32, first: Extent, second: Extent) -> Fork {
    fork(
        logical_size,
        total_blocks,
        [first, second, NONE, NONE, NONE, NONE, NONE, NONE],
    )
}

/// A fork of so many blocks of 512 bytes, the first eight of them no two side by side: 20, 22, and so on up to 34.
fn scattered(blocks: u32) -> Fork {
    fork(
        512 * u64::from(blocks),
        blocks,
        [
            one_block(20),
            one_block(22),
            one_block(24),
            one_block(26),
            one_block(28),
            one_block(30),
            one_block(32),
            one_block(34),
        ],
    )
}

/// A volume at 0 with blocks of so many bytes, whose extents file has 2,048 bytes in blocks 4 to 7.
fn header(block_size: u32, total_blocks: u32, len: u64) -> Header
    ensures at { result.at ≡ 0 }
    ensures len { result.len ≡ len }
{
    let file = Extent { start: 4, count: 4 };
    let extents = fork(2048, 4, [file, NONE, NONE, NONE, NONE, NONE, NONE, NONE]);
    let empty = fork(0, 0, [NONE; 8]);
    Header {
        at: 0,
        len,
        signature: 0x482B,
        version: 4,
        block_size,
        total_blocks,
        allocation: empty,
        extents,
        catalog: empty,
        attributes: empty,
        startup: empty,
    }
}

/// The image of a volume of eight blocks of 512 bytes. Its extents file has two nodes of 1,024 bytes; the second has eight overflow
/// records of data forks, from byte 3,086 on: of the length of a key each, a file, a first block, and an extent of one block, or two
/// extents, or none.
const IMAGE: &[Written] = &[
    (2056, &[1]),
    (2075, &[1]),
    (2080, &[4]),
    (3080, &[255, 0, 0, 8]),
    (
        3087,
        &[10, 0, 0, 0, 0, 0, 40, 0, 0, 0, 8, 0, 0, 0, 36, 0, 0, 0, 1],
    ),
    (3109, &[38, 0, 0, 0, 1]),
    (
        3163,
        &[10, 0, 0, 0, 0, 0, 41, 0, 0, 0, 9, 0, 0, 0, 50, 0, 0, 0, 1],
    ),
    (
        3239,
        &[10, 0, 0, 0, 0, 0, 41, 0, 0, 0, 8, 0, 0, 0, 60, 0, 0, 0, 1],
    ),
    (3315, &[10, 0, 0, 0, 0, 0, 42, 0, 0, 0, 8]),
    (
        3391,
        &[10, 0, 0, 0, 0, 0, 42, 0, 0, 0, 8, 0, 0, 0, 50, 0, 0, 0, 1],
    ),
    (
        3467,
        &[10, 0, 0, 0, 0, 0, 43, 0, 0, 0, 8, 0, 0, 0, 50, 0, 0, 0, 1],
    ),
    (3543, &[10, 0, 0, 0, 0, 0, 43, 0, 0, 0, 8]),
    (
        3619,
        &[10, 0, 0, 0, 0, 0, 3, 0, 0, 0, 8, 0, 0, 0, 50, 0, 0, 0, 1],
    ),
    (
        4078,
        &[
            2, 110, 2, 34, 1, 214, 1, 138, 1, 62, 0, 242, 0, 166, 0, 90, 0, 14,
        ],
    ),
];

/// What is read of the overflow records of a volume of 4,096 bytes.
fn read(alloc: Global, image: &[u8; 4096], header: &Header) -> Result<Overflow, ReadFault>
    requires sound { IsSoundHeader header.now }
    requires small { header.now.at + header.now.len ≤ 4096 }
{
    let mut store = MemStore::of_image(alloc, image)?;
    Overflow::read(alloc, &mut store, header)
}

/// What is found of a fork of a file, whose fork data stand at 77.
fn found(
    alloc: Global,
    header: &Header,
    overflow: &Overflow,
    file: (u32, u8),
    fork: &Fork,
) -> Result<ForkPieces, ReadFault>
    requires sound { IsSoundHeader header.now }
    requires small { header.now.at + header.now.len ≤ 4096000 }
{
    fork_pieces(alloc, header, overflow, file.0, file.1, fork, 77)
}

#[test]
fn bytes_stand_in_the_blocks(rt: HostRuntime) -> Result<(), Fail> {
    let small = header(512, 8, 4096);
    assert_eq!(rt; small.wrong_field(), None);
    let overflow = read(rt.alloc(), &with(IMAGE), &small)?;
    let volume = header(4096, 1000, 4_096_000);
    assert_eq!(rt; volume.wrong_field(), None);
    let two = fork_of_two(5000, 2, one_block(10), one_block(20));
    let laid = found(rt.alloc(), &volume, &overflow, (99, 0), &two)?;
    let pieces = [
        Piece {
            from: 0,
            len: 4096,
            kind: PieceKind::Disk,
            at: 40960,
        },
        Piece {
            from: 4096,
            len: 904,
            kind: PieceKind::Disk,
            at: 81920,
        },
    ];
    assert_eq!(rt; laid.pieces.items(), pieces.as_slice());
    let slack = [Range {
        at: 82824,
        len: 3192,
    }];
    assert_eq!(rt; laid.slack.items(), slack.as_slice());
    let last = Extent {
        start: 999,
        count: 2,
    };
    let wrong = [
        (
            fork_of_two(5000, 3, one_block(10), one_block(20)),
            ReadFault::Damaged(Sort::ForkSum, 77),
        ),
        (
            fork_of_two(5000, 2, last, NONE),
            ReadFault::Damaged(Sort::ForkExtent, 93),
        ),
        (
            fork_of_two(1, 0, NONE, NONE),
            ReadFault::Damaged(Sort::ForkSum, 77),
        ),
    ];
    for (fork, fault) in &wrong {
        let refused = found(rt.alloc(), &volume, &overflow, (99, 0), fork).err();
        assert_eq!(rt; refused, Some(*fault));
    }
    Ok(())
}

#[test]
fn blocks_without_bytes_are_slack(rt: HostRuntime) -> Result<(), Fail> {
    let small = header(512, 8, 4096);
    assert_eq!(rt; small.wrong_field(), None);
    let overflow = read(rt.alloc(), &with(IMAGE), &small)?;
    let blocks = fork_of_two(0, 2, one_block(1), one_block(2));
    let laid = found(rt.alloc(), &small, &overflow, (99, 0), &blocks)?;
    assert_eq!(rt; laid.pieces.items().len(), 0);
    let slack = [Range { at: 512, len: 1024 }];
    assert_eq!(rt; laid.slack.items(), slack.as_slice());
    Ok(())
}

/// Files, the types of their forks, the blocks of these, and which they are, or none where the records have not as many.
const FORKS: &[((u32, u8), u32, Option<&[u64]>)] = &[
    ((40, 0), 10, Some(&[20, 22, 24, 26, 28, 30, 32, 34, 36, 38])),
    // records that aren't in order, and an empty one before its other
    ((41, 0), 10, Some(&[20, 22, 24, 26, 28, 30, 32, 34, 60, 50])),
    ((42, 0), 9, Some(&[20, 22, 24, 26, 28, 30, 32, 34, 50])),
    ((43, 0), 9, None),
    ((44, 0), 10, None),
    ((40, 255), 10, None),
    // the extents file itself, which has none
    ((3, 0), 9, None),
    ((3, 0), 8, Some(&[20, 22, 24, 26, 28, 30, 32, 34])),
];

#[test]
fn overflow_records_go_on(rt: HostRuntime) -> Result<(), Fail> {
    let small = header(512, 8, 4096);
    assert_eq!(rt; small.wrong_field(), None);
    let overflow = read(rt.alloc(), &with(IMAGE), &small)?;
    let volume = header(512, 100, 51200);
    assert_eq!(rt; volume.wrong_field(), None);
    for (file, blocks, wanted) in FORKS {
        match (
            found(rt.alloc(), &volume, &overflow, *file, &scattered(*blocks)),
            wanted,
        ) {
            (Ok(laid), Some(wanted)) => {
                assert_eq!(rt; laid.pieces.items().len(), wanted.len());
                for (piece, block) in laid.pieces.items().iter().zip(*wanted) {
                    assert_eq!(rt; piece.at / 512, *block);
                }
            }
            (Err(fault), None) => assert_eq!(rt; fault, ReadFault::Damaged(Sort::ForkSum, 77)),
            _ => panic!(rt; "other blocks"),
        }
    }
    Ok(())
}

#[test]
fn a_record_of_another_form_is_damage(rt: HostRuntime) -> Result<(), Fail> {
    let mut small = header(512, 8, 4096);
    assert_eq!(rt; small.wrong_field(), None);
    let mut changed = with(IMAGE);
    put(&mut changed, 3391, &[9]);
    assert_eq!(rt;
        read(rt.alloc(), &changed, &small).err(),
        Some(ReadFault::Damaged(Sort::ExtentsRecord, 3390))
    );
    small.extents.total_blocks = 5;
    assert_eq!(rt; small.wrong_field(), None);
    assert_eq!(rt;
        read(rt.alloc(), &with(IMAGE), &small).err(),
        Some(ReadFault::Unsupported(What::ExtentsFork, 1216))
    );
    Ok(())
}

#[test]
fn a_device_that_fails_is_counted(rt: HostRuntime) -> Result<(), Fail> {
    let small = header(512, 8, 4096);
    assert_eq!(rt; small.wrong_field(), None);
    let image: [u8; 4096] = with(IMAGE);
    let mut store = MemStore::of_image(rt.alloc(), &image)?;
    store.fail_at(vec![in rt.alloc(); 1, 3]?);
    assert_eq!(rt;
        [
            Overflow::read(rt.alloc(), &mut store, &small).err(),
            Overflow::read(rt.alloc(), &mut store, &small).err(),
            Overflow::read(rt.alloc(), &mut store, &small).err()
        ],
        [Some(ReadFault::Device), Some(ReadFault::Device), None]
    );
    assert_eq!(rt; store.faults(), 2);
    Ok(())
}
