//! Reads through the pieces of a file, and makes them.
//!
//! `read_pieces` reads a range of a content: its bytes on the disk from the image, and those of a hole as zeros, in one read for
//! each piece on the disk that the range meets. It takes no memory. `put` adds a piece behind others, so that each is as long as
//! possible.
//!
//!     // the content "cde", two bytes of a hole and "ab", in three pieces over the image "abcdef"
//!     read_pieces(&mut store, &pieces, 7, 1, &mut buffer)?;     // the five bytes from byte 1 on: "de", two zeros and "a"
//!     put(&mut pieces, piece)?;                                 // the last piece grows where this one goes on
#![tactic(auto)]

ghost use Rattle.std.specs.Prelude.{◌≡◌, ◌+◌, ◌≤◌, length, OnOk, IfSome};
ghost use Rattle.disk_defs.specs.Count.{IsCountedIn};
ghost use Rattle.disk_defs.specs.Disk.{size_of, told_image};
ghost use Rattle.disk_defs.specs.declared.Area.TheVariants.{Image};
ghost use Rattle.bytes_defs.specs.Bytes.{part};
ghost use Rattle.piece_defs.specs.Joined.{AreInARow};
ghost use Rattle.piece_defs.specs.Places.{bytes_of_kind, bytes_through, IsWithin, AreWithin};

mod longest;

pub use longest::put;
use rx_ranges::{Piece, PieceKind};
use rx_store::{Area, Fault, Store};

/// Reads bytes of a piece, from `skip` bytes behind its begin on.
#[tactic(auto, using(piece_defs::proofs::ByteLaws::part_reads))]
fn read_piece<S: Store>(store: &mut S, piece: Piece, skip: u64, buf: &mut [u8]) -> Result<(), Fault>
    requires within { IsWithin (size_of Image (S.state store.old)) piece.kind piece.at piece.len }
    requires inside { skip + length buf.old ≤ piece.len }
    ensures bytes { OnOk result (IfSome (told_image (S.state store.old))
        (λ image. buf.new ≡ part (bytes_of_kind image piece.kind piece.at piece.len) skip (length buf.new))) }
    ensures same { S.state store.new ≡ S.state store.old }
    ensures counted { IsCountedIn Image result (S.faults store.old) (S.faults store.new) }
{
    match piece.kind {
        PieceKind::Disk => store.read_at(Area::Image, piece.at + skip, buf),
        PieceKind::Zero => {
            buf.fill(0);
            Ok(())
        }
    }
}

/// Reads the bytes of a content of `size` bytes from a place on, as its pieces have them.
pub fn read_pieces<S: Store>(
    store: &mut S,
    pieces: &[Piece],
    size: u64,
    from: u64,
    buf: &mut [u8],
) -> Result<(), Fault>
    requires within { AreWithin (size_of Image (S.state store.old)) pieces.now }
    requires covered { AreInARow 0 size pieces.now }
    requires inside { from + length buf.old ≤ size }
    ensures bytes { OnOk result (IfSome (told_image (S.state store.old))
        (λ image. buf.new ≡ part (bytes_through image pieces.now) from (length buf.new))) }
    ensures same { S.state store.new ≡ S.state store.old }
    ensures counted { IsCountedIn Image result (S.faults store.old) (S.faults store.new) }
{
    let mut done = 0;
    let mut skip = from;
    let mut passed = 0;
    while passed < pieces.len() && skip >= pieces[passed].len {
        skip -= pieces[passed].len;
        passed += 1;
    }
    'reading: while passed < pieces.len() && done < buf.len() {
        let piece = pieces[passed];
        let count = (piece.len - skip).min((buf.len() - done) as u64) as usize;
        read_piece(store, piece, skip, &mut buf[done..done + count])?;
        done += count;
        skip = 0;
        passed += 1;
    }
    Ok(())
}
