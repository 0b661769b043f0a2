//! Finds where the forks of an HFS+ volume stand.
//!
//! After Apple's TN1150, "Fork Data Structure" and "Extents Overflow File": a fork has eight extents, and those of its overflow
//! records by their first block. `Overflow::read` reads the overflow records of a volume from the leaf records of its extents
//! file, which has its eight extents alone. `fork_pieces` gives the pieces of a fork's bytes, which say where each byte stands,
//! and its slack, the bytes of its blocks behind them; or the damage: an extent that passes the volume's end (ForkExtent), or
//! blocks that aren't those of the fork (ForkSum).
//!
//!     let overflow = Overflow::read(alloc, &mut store, &header)?;
//!     let laid = fork_pieces(alloc, &header, &overflow, file, fork_type, &fork, place)?;
//!     laid.pieces.items()     // in the order of the bytes, as long as possible
#![tactic(auto)]

mod extents;
mod fork;
mod index;
mod overflow;
mod pieces;
mod records;

pub use fork::ForkPieces;
pub use overflow::{Overflow, fork_pieces};
