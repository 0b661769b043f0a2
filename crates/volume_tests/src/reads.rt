//! Reads of a store that are kept, a content that is read across its pieces, and pieces that are put one behind the other.
ghost use Rattle.std.specs.Prelude.{◌≡◌};

use image_reads::{bytes_at, look_at};
use piece_reads::{put, read_pieces};
use range_defs::Range;
use rx_ranges::{Piece, PieceKind};
use rx_store::{Fault, MemStore, ReadFault};
use std::test::Fail;

#[test]
fn reads_are_kept_and_joined(rt: HostRuntime) -> Result<(), Fail> {
    let mut store = MemStore::of_image(rt.alloc(), &[1, 2, 3, 4])?;
    let mut looked = Vec::new(rt.alloc());
    let mut two = [0; 2];
    look_at(&mut store, 1, &mut two, &mut looked)?;
    assert_eq!(rt; two, [2, 3]);
    let one = bytes_at(rt.alloc(), &mut store, 3, 1, &mut looked)?;
    assert_eq!(rt; one.as_slice(), [4].as_slice());
    let three = bytes_at(rt.alloc(), &mut store, 0, 3, &mut looked)?;
    assert_eq!(rt; three.as_slice(), [1, 2, 3].as_slice());
    let kept = [Range { at: 1, len: 3 }, Range { at: 0, len: 3 }];
    assert_eq!(rt; looked.as_slice(), kept.as_slice());
    Ok(())
}

#[test]
fn a_device_that_fails_is_told(rt: HostRuntime) -> Result<(), Fail> {
    let mut store = MemStore::of_image(rt.alloc(), &[1, 2, 3, 4])?;
    store.fail_at(vec![in rt.alloc(); 1]?);
    let mut looked = Vec::new(rt.alloc());
    let found = bytes_at(rt.alloc(), &mut store, 0, 3, &mut looked);
    assert_eq!(rt; found.err(), Some(ReadFault::Device));
    assert!(rt; looked.as_slice().is_empty());
    Ok(())
}

fn piece(from: u64, len: u64, kind: PieceKind, at: u64) -> Piece
    ensures { result ≡ record { from = from; len = len; kind = kind; at = at } }
{
    Piece {
        from,
        len,
        kind,
        at,
    }
}

#[test]
fn a_content_is_read_across_its_pieces(rt: HostRuntime) -> Result<(), Fail> {
    let mut store = MemStore::of_image(rt.alloc(), b"abcdef")?;
    let pieces = [
        piece(0, 3, PieceKind::Disk, 2),
        piece(3, 2, PieceKind::Zero, 0),
        piece(5, 2, PieceKind::Disk, 0),
    ];
    let mut read = [1; 5];
    assert_eq!(rt; read_pieces(&mut store, &pieces, 7, 1, &mut read), Ok(()));
    assert_eq!(rt; read.as_slice(), b"de\x00\x00a".as_slice());
    store.fail_at(vec![in rt.alloc(); 4]?);
    assert_eq!(rt;
        read_pieces(&mut store, &pieces, 7, 1, &mut read),
        Err(Fault)
    );
    assert_eq!(rt; store.faults(), 1);
    Ok(())
}

#[test]
fn a_piece_that_goes_on_makes_the_last_one_longer(rt: HostRuntime) -> Result<(), Fail> {
    let mut pieces = Vec::new(rt.alloc());
    put(&mut pieces, piece(0, 3, PieceKind::Disk, 2))?;
    put(&mut pieces, piece(3, 4, PieceKind::Disk, 5))?;
    assert_eq!(rt;
        pieces.as_slice(),
        [piece(0, 7, PieceKind::Disk, 2)].as_slice()
    );
    Ok(())
}
