//! Where the bytes of a content stand, and the pieces that say it.
//!
//! A byte of a file's content stands at a place of the image, or is a zero of a hole: `place : ℕ → Option ℕ`, beside the size.
//! Pieces say the same: they cover the bytes from 0 to the size in order, none can be joined with the next, and each has each
//! of its bytes where that stands (`ArePiecesAt`). There is one such list of pieces for each content.
//!
//!     // bytes 0 to 4,095 of the content stand at 40,960, and the next 904 at 81,920
//!     [Piece { from: 0, len: 4096, kind: Disk, at: 40_960 }, Piece { from: 4096, len: 904, kind: Disk, at: 81_920 }]
#![tactic(auto)]

pub mod laws;
