//! The leaf records of a small tree file in two pieces, a chain that comes back on itself, one that leaves the file, and a device that
//! fails at each call.
ghost use Rattle.std.specs.Prelude.{◌≡◌, IfOk};
ghost use Rattle.disk_defs.specs.Disk.{size_of};
ghost use Rattle.disk_defs.specs.declared.Area.TheVariants.{Image};
ghost use Rattle.piece_defs.specs.Places.{AreWithin};

use crate::bytes::{Written, put, with};
use hfs_btree::Leaves;
use rx_ranges::{Piece, PieceKind, Pieces};
use rx_store::{MemStore, ReadFault, Sort, Store};
use std::alloc::{AllocError, Global};
use std::test::Fail;

/// The first 540 bytes of the file stand from byte 2,000 of the image on, the 1,508 bytes behind them from byte 100 on.
const PIECES: [Piece; 2] = [
    Piece {
        from: 0,
        len: 540,
        kind: PieceKind::Disk,
        at: 2000,
    },
    Piece {
        from: 540,
        len: 1508,
        kind: PieceKind::Disk,
        at: 100,
    },
];

/// An image with a tree file of four nodes of 512 bytes. Node 1 has two records, the first of which lies in both pieces; node
/// 2 has none; node 3 has one.
const IMAGE: &[Written] = &[
    // the header node: its kind, the first leaf node, the bytes of a node
    (2008, &[1]),
    (2027, &[1]),
    (2032, &[2]),
    // node 1: the next one, its kind, two records of 20 and 6 bytes with keys of 4 and 2 bytes, and their offsets
    (2515, &[2, 0, 0, 0, 0, 255, 0, 0, 2, 0, 0, 0, 4]),
    (107, &[2]),
    (579, &[40, 0, 34, 0, 14]),
    // node 2: the next one, its kind, and the offset of its free space
    (587, &[3, 0, 0, 0, 0, 255]),
    (1095, &[14]),
    // node 3: its kind, a record of 6 bytes with a key of 3, and its offsets
    (1104, &[255, 0, 0, 1, 0, 0, 0, 3]),
    (1605, &[20, 0, 14]),
];

/// The pieces of the file.
fn pieces(alloc: Global) -> Result<Pieces, AllocError>
    ensures { IfOk result (λ pieces. pieces ≡ PIECES) }
{
    Ok(Pieces::from_vec(Vec::from_slice(alloc, &PIECES)?))
}

/// The node, number, place and length of the next record.
fn next<S: Store>(
    store: &mut S,
    leaves: &mut Leaves,
) -> Result<Option<(u32, u16, u64, usize)>, ReadFault>
    requires { AreWithin (size_of Image (S.state store.old)) leaves.old.pieces }
    ensures same { S.state store.new ≡ S.state store.old }
    ensures pieces { leaves.new.pieces ≡ leaves.old.pieces }
{
    match leaves.next(store)? {
        Some(record) => Ok(Some((record.node, record.index, record.at, record.bytes.len()))),
        None => Ok(None),
    }
}

const FIRST: Option<(u32, u16, u64, usize)> = Some((1, 0, 2526, 20));

const SECOND: Option<(u32, u16, u64, usize)> = Some((1, 1, 106, 6));

const THIRD: Option<(u32, u16, u64, usize)> = Some((3, 0, 1110, 6));

#[test]
fn records_are_those_of_the_chain(rt: HostRuntime) -> Result<(), Fail> {
    let bytes: [u8; 4096] = with(IMAGE);
    let mut store = MemStore::of_image(rt.alloc(), &bytes)?;
    let mut leaves = Leaves::start(rt.alloc(), &mut store, pieces(rt.alloc())?, 2048, 9)?;
    let found = [
        next(&mut store, &mut leaves),
        next(&mut store, &mut leaves),
        next(&mut store, &mut leaves),
        next(&mut store, &mut leaves),
        next(&mut store, &mut leaves),
    ];
    assert_eq!(rt;
        found,
        [Ok(FIRST), Ok(SECOND), Ok(THIRD), Ok(None), Ok(None)]
    );
    Ok(())
}

#[test]
fn a_chain_that_comes_back_ends(rt: HostRuntime) -> Result<(), Fail> {
    let mut bytes: [u8; 4096] = with(IMAGE);
    put(&mut bytes, 1099, &[3]);
    let mut store = MemStore::of_image(rt.alloc(), &bytes)?;
    let mut leaves = Leaves::start(rt.alloc(), &mut store, pieces(rt.alloc())?, 2048, 9)?;
    let back = Err(ReadFault::Damaged(Sort::NodeLink, 9));
    let found = [
        next(&mut store, &mut leaves),
        next(&mut store, &mut leaves),
        next(&mut store, &mut leaves),
        next(&mut store, &mut leaves),
        next(&mut store, &mut leaves),
        next(&mut store, &mut leaves),
    ];
    assert_eq!(rt;
        found,
        [Ok(FIRST), Ok(SECOND), Ok(THIRD), Ok(THIRD), back, back]
    );
    Ok(())
}

#[test]
fn a_chain_that_leaves_the_file_ends(rt: HostRuntime) -> Result<(), Fail> {
    let mut bytes: [u8; 4096] = with(IMAGE);
    put(&mut bytes, 2515, &[4]);
    let mut store = MemStore::of_image(rt.alloc(), &bytes)?;
    let mut leaves = Leaves::start(rt.alloc(), &mut store, pieces(rt.alloc())?, 2048, 9)?;
    let out = Err(ReadFault::Damaged(Sort::NodeLink, 2512));
    let found = [
        next(&mut store, &mut leaves),
        next(&mut store, &mut leaves),
        next(&mut store, &mut leaves),
    ];
    assert_eq!(rt; found, [Ok(FIRST), Ok(SECOND), out]);
    Ok(())
}

#[test]
fn a_device_that_fails_loses_no_record(rt: HostRuntime) -> Result<(), Fail> {
    let bytes: [u8; 4096] = with(IMAGE);
    let mut store = MemStore::of_image(rt.alloc(), &bytes)?;
    store.fail_at(vec![in rt.alloc(); 1]?);
    let failed = Leaves::start(rt.alloc(), &mut store, pieces(rt.alloc())?, 2048, 9);
    assert_eq!(rt; failed.err(), Some(ReadFault::Device));
    let mut leaves = Leaves::start(rt.alloc(), &mut store, pieces(rt.alloc())?, 2048, 9)?;
    store.fail_at(vec![in rt.alloc(); 3, 5, 8, 10]?);
    let device = Err(ReadFault::Device);
    let found = [
        next(&mut store, &mut leaves),
        next(&mut store, &mut leaves),
        next(&mut store, &mut leaves),
        next(&mut store, &mut leaves),
        next(&mut store, &mut leaves),
        next(&mut store, &mut leaves),
        next(&mut store, &mut leaves),
    ];
    assert_eq!(rt;
        found,
        [
            device,
            device,
            Ok(FIRST),
            Ok(SECOND),
            device,
            device,
            Ok(THIRD)
        ]
    );
    assert_eq!(rt; store.faults(), 5);
    Ok(())
}
