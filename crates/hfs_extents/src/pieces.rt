//! The pieces of a content in extents, and what the extents have behind it.
ghost use Rattle.std.specs.Prelude.{◌≡◌, ◌+◌, ◌*◌, ◌^◌, ◌<◌, ◌≤◌, ◌++◌, [], All, IfOk};
ghost use Rattle.hfs_defs.specs.Forks as spec;
ghost use Rattle.hfs_defs.specs.Forks.{blocks_in, rests_from, range_in_front};
ghost use Rattle.hfs_extents.specs.Extents.{EndsIn, EndsBy, LiesInImage, put_some};
ghost use Rattle.piece_defs.specs.Places.{AreWithin};
ghost use Rattle.range_defs.specs.declared.TheConstants.{LONGEST_IMAGE};

use hfs_defs::{Extent, Header};
use piece_reads::put;
use range_defs::Range;
use rx_ranges::{Piece, PieceKind, Pieces, RangeList};
use std::alloc::{AllocError, Global};

/// Puts a piece of the disk behind others, unless it is empty: the last one grows where the new one goes on.
#[tactic(auto, using(crate::proofs::PieceLaws::disk_fits))]
fn push_piece(pieces: &mut Vec<Piece>, piece: Piece) -> Result<(), AllocError>
    requires within { AreWithin LONGEST_IMAGE pieces.old.items }
    requires disk { piece.kind ≡ PieceKind.Disk }
    requires piece_within { piece.at + piece.len ≤ LONGEST_IMAGE }
    ensures { IfOk result (λ _. pieces.new.items ≡ put_some pieces.old.items piece) }
{
    if piece.len > 0 {
        put(pieces, piece)?;
    }
    Ok(())
}

/// Puts a range behind others, unless it is empty.
fn push_range(ranges: &mut Vec<Range>, range: Range) -> Result<(), AllocError>
    ensures { IfOk result (λ _. ranges.new.items ≡ ranges.old.items ++ range_in_front range []) }
{
    if range.len > 0 {
        ranges.push(range)?;
    }
    Ok(())
}

/// The bytes of an extent.
fn extent_bytes(header: &Header, extent: Extent) -> u64
    ensures { result ≡ spec.extent_bytes header.now extent }
{
    u64::from(extent.count) * u64::from(header.block_size)
}

/// The piece of a content of `size` bytes that an extent has, of which byte `from` is the first of the extent.
fn extent_piece(header: &Header, size: u64, from: u64, extent: Extent) -> Piece
    requires lies { LiesInImage header.now }
    requires inside { EndsIn header.now.total_blocks extent }
    requires some { 0 < extent.count }
    ensures value { result ≡ spec.extent_piece header.now size from extent }
    ensures within { result.at + result.len ≤ header.now.at + header.now.len }
{
    Piece {
        from,
        len: extent_bytes(header, extent).min(size.saturating_sub(from)),
        kind: PieceKind::Disk,
        at: header.at + u64::from(extent.start) * u64::from(header.block_size),
    }
}

/// The pieces of a content of `size` bytes in extents.
#[tactic(auto, unfolding(hfs_defs::specs::Forks::pieces_of))]
pub(crate) fn pieces_of(
    alloc: Global,
    header: &Header,
    size: u64,
    extents: &[Extent],
) -> Result<Pieces, AllocError>
    requires lies { LiesInImage header.now }
    requires inside { All (EndsIn header.now.total_blocks) extents.now }
    requires few { blocks_in extents.now * header.now.block_size < 2 ^ 64 }
    ensures value { IfOk result (λ pieces. pieces ≡ spec.pieces_of header.now size extents.now) }
    ensures within { IfOk result (λ pieces. AreWithin (header.now.at + header.now.len) pieces) }
{
    let mut pieces = Vec::new(alloc);
    let mut from = 0;
    for extent in extents {
        if extent.count == 0 {
            continue;
        }
        push_piece(&mut pieces, extent_piece(header, size, from, *extent))?;
        from += extent_bytes(header, *extent);
    }
    Ok(Pieces::from_vec(pieces))
}

/// What an extent has behind a content of `size` bytes, of which byte `from` is the first of the extent.
fn extent_rest(header: &Header, size: u64, from: u64, extent: Extent) -> Range
    requires lies { LiesInImage header.now }
    requires inside { EndsIn header.now.total_blocks extent }
    requires some { 0 < extent.count }
    ensures value { result ≡ spec.extent_rest header.now size from extent }
    ensures within { result.at + result.len ≤ header.now.at + header.now.len }
{
    let piece = extent_piece(header, size, from, extent);
    Range {
        at: piece.at + piece.len,
        len: extent_bytes(header, extent) - piece.len,
    }
}

/// What extents have behind a content of `size` bytes.
fn rests_of(
    alloc: Global,
    header: &Header,
    size: u64,
    extents: &[Extent],
) -> Result<Vec<Range>, AllocError>
    requires lies { LiesInImage header.now }
    requires inside { All (EndsIn header.now.total_blocks) extents.now }
    requires few { blocks_in extents.now * header.now.block_size < 2 ^ 64 }
    ensures value { IfOk result (λ rests. rests.items ≡ rests_from header.now size 0 extents.now) }
    ensures within { IfOk result (λ rests. All (EndsBy (header.now.at + header.now.len)) rests.items) }
{
    let mut rests = Vec::new(alloc);
    let mut from = 0;
    for extent in extents {
        if extent.count == 0 {
            continue;
        }
        push_range(&mut rests, extent_rest(header, size, from, *extent))?;
        from += extent_bytes(header, *extent);
    }
    Ok(rests)
}

/// The slack of a content of `size` bytes in extents.
#[tactic(auto, unfolding(hfs_defs::specs::Forks::slack_of))]
pub(crate) fn slack_of(
    alloc: Global,
    header: &Header,
    size: u64,
    extents: &[Extent],
) -> Result<RangeList, AllocError>
    requires lies { LiesInImage header.now }
    requires inside { All (EndsIn header.now.total_blocks) extents.now }
    requires few { blocks_in extents.now * header.now.block_size < 2 ^ 64 }
    ensures { IfOk result (λ slack. slack ≡ spec.slack_of header.now size extents.now) }
{
    RangeList::from_ranges(alloc, rests_of(alloc, header, size, extents)?)
}
