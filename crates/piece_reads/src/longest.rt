//! Pieces that are put one behind the other, each as long as possible.
ghost use Rattle.std.specs.Prelude.{◌≡◌, ◌+◌, ◌^◌, ◌<◌, true, All, IfOk};
ghost use Rattle.piece_defs.specs.Covering as covering_spec;
ghost use Rattle.piece_defs.specs.Places.{AreWithin, IsWithin};
ghost use Rattle.piece_defs.specs.Put as put_spec;
ghost use Rattle.range_defs.specs.declared.TheConstants.{LONGEST_IMAGE};

use rx_ranges::{Piece, PieceKind};
use std::alloc::AllocError;

/// Whether a piece goes on where another ends.
fn is_contiguous(piece: &Piece, next: &Piece) -> bool
    requires { IsWithin LONGEST_IMAGE piece.now.kind piece.now.at piece.now.len }
    ensures { result ≡ covering_spec.is_contiguous piece.now next.now }
{
    match (piece.kind, next.kind) {
        (PieceKind::Disk, PieceKind::Disk) => piece.at + piece.len == next.at,
        (PieceKind::Zero, PieceKind::Zero) => true,
        _ => false,
    }
}

/// Puts a piece behind others: the last one grows where the new one goes on.
pub fn put(pieces: &mut Vec<Piece>, piece: Piece) -> Result<(), AllocError>
    requires within { AreWithin LONGEST_IMAGE pieces.old.items }
    requires fits { All (λ last. covering_spec.is_contiguous last piece ≡ true → last.len + piece.len < 2 ^ 64) pieces.old.items }
    ensures { IfOk result (λ _. pieces.new.items ≡ put_spec.put pieces.old.items piece) }
{
    let count = pieces.len();
    if count > 0 && is_contiguous(&pieces[count - 1], &piece) {
        pieces[count - 1].len += piece.len;
        return Ok(());
    }
    pieces.push(piece)?;
    Ok(())
}
