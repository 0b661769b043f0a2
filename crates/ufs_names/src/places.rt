//! Where the blocks of a directory stand.
ghost use Rattle.std.specs.Prelude.{◌≡◌, ◌+◌, ◌*◌, ◌^◌, ◌≤◌, ◌<◌, ◌≢◌, Err, IfOk, None, nat_lt};
ghost use Rattle.image_defs.specs.Results.{with_value};
ghost use Rattle.piece_defs.specs.Places as places_spec;
ghost use Rattle.piece_defs.specs.Places.{AreWithin, IsWithin, place_through};
ghost use Rattle.range_defs.specs.declared.TheConstants.{LONGEST_IMAGE};
ghost use Rattle.rx_store.specs.Answers.{Answers};
ghost use Rattle.ufs_inode_defs.specs.Stream as stream_spec;
ghost use Rattle.ufs_inode_defs.specs.Superblock as superblock_spec;
ghost use Rattle.ufs_inode_defs.specs.Superblock.{wrong_field};
ghost use Rattle.ufs_blocks.specs.Placed.{DoBlocksLieWithin};
ghost use Rattle.ufs_volume_defs.specs.Names as names_spec;
ghost use Rattle.ufs_names.specs.Walked.{LiesIn};
ghost use Rattle.ufs_names.specs.Passed.{HasPassed, IsInFront};

use crate::entry::Block;
use crate::sizes::size_place;
use rx_ranges::{Piece, PieceKind};
use rx_store::{ReadFault, Sort};
use ufs_inode_defs::{Inode, Super};
use ufs_super::{block_count, block_size};

/// Whether a byte of a content stands in front of a piece's end.
fn is_in_front(byte: u64, piece: &Piece) -> bool
    ensures { result ≡ nat_lt byte (piece.now.from + piece.now.len) }
{
    byte < piece.from || byte - piece.from < piece.len
}

/// Where a piece puts a byte in front of its end.
fn place_in(piece: &Piece, byte: u64) -> Option<u64>
    requires within { IsWithin LONGEST_IMAGE piece.now.kind piece.now.at piece.now.len }
    requires front { byte < piece.now.from + piece.now.len }
    ensures { result ≡ places_spec.place_in piece.now byte }
{
    match piece.kind {
        PieceKind::Disk => Some(piece.at + byte.saturating_sub(piece.from)),
        PieceKind::Zero => None,
    }
}

/// How many pieces end in front of a byte, of which some are known to do so.
fn passed_by(pieces: &[Piece], mut passed: usize, byte: u64) -> usize
    requires { HasPassed pieces.now passed byte }
    ensures passed { HasPassed pieces.now result byte }
    ensures front { IsInFront pieces.now result byte }
{
    while passed < pieces.len() && !is_in_front(byte, &pieces[passed]) {
        passed += 1;
    }
    passed
}

/// Where pieces put a byte, of which so many end in front of it.
fn place_behind(pieces: &[Piece], passed: usize, byte: u64) -> Option<u64>
    requires within { AreWithin LONGEST_IMAGE pieces.now }
    requires passed { HasPassed pieces.now passed byte }
    requires front { IsInFront pieces.now passed byte }
    ensures { result ≡ place_through pieces.now byte }
{
    if passed < pieces.len() {
        place_in(&pieces[passed], byte)
    } else {
        None
    }
}

/// The block of a directory with these pieces at an index: it is no hole. The pieces that end in front of it are passed.
pub(crate) fn placed_block(
    sup: &Super,
    inode: &Inode,
    pieces: &[Piece],
    passed: &mut usize,
    index: u64,
) -> Result<Block, ReadFault>
    requires sound { wrong_field sup.now ≡ None }
    requires stands { inode.now.at ≤ LONGEST_IMAGE }
    requires within { AreWithin LONGEST_IMAGE pieces.now }
    requires lie { DoBlocksLieWithin sup.now inode.now.size pieces.now }
    requires fits { inode.now.size < 2 ^ 64 }
    requires begins { index < stream_spec.block_count sup.now inode.now.size }
    requires passed { HasPassed pieces.now passed.old (index * superblock_spec.block_size sup.now) }
    ensures placed { Answers result (names_spec.placed_block sup.now inode.now index (place_through pieces.now (index * superblock_spec.block_size sup.now))) }
    ensures lies { IfOk result (LiesIn sup.now inode.now.size) }
    ensures passed { HasPassed pieces.now passed.new (index * superblock_spec.block_size sup.now) }
    ensures calm { result ≢ Err ReadFault.Device }
{
    let byte = index * block_size(sup);
    *passed = passed_by(pieces, *passed, byte);
    match place_behind(pieces, *passed, byte) {
        Some(at) => Ok(Block { index, at }),
        None => Err(ReadFault::Damaged(Sort::DirSize, size_place(sup, inode))),
    }
}

/// Whether each block of a directory with these pieces has a place: none of them is a hole.
pub(crate) fn are_placed(sup: &Super, inode: &Inode, pieces: &[Piece]) -> Result<(), ReadFault>
    requires sound { wrong_field sup.now ≡ None }
    requires stands { inode.now.at ≤ LONGEST_IMAGE }
    requires within { AreWithin LONGEST_IMAGE pieces.now }
    requires lie { DoBlocksLieWithin sup.now inode.now.size pieces.now }
    ensures placed { Answers result (with_value (λ blocks. tt) (names_spec.directory_blocks sup.now inode.now pieces.now)) }
    ensures calm { result ≢ Err ReadFault.Device }
{
    let mut passed = 0;
    for index in 0..block_count(sup, inode.size) {
        placed_block(sup, inode, pieces, &mut passed, index)?;
    }
    Ok(())
}
