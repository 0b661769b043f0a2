//! Reads a journal and writes the first one of a plan.
//!
//! The form is that of `journal_defs`. `read_journal` answers the plan and the marks of a journal that stands open; NotOpen
//! where it doesn't; and Bad with the place of the first check that fails. A journal's counts are tested against its size
//! before memory is taken for them, and it is read through a window of 65,536 bytes. `journal_piece` fills a buffer with the
//! bytes of a plan's first journal from a place on, so that it is written in pieces; `journal_piece_from` does so for a piece
//! behind another, whose cursor tells where the listing goes on.
//!
//!     let state = read_journal(alloc, &mut store)?;
//!     state.fits(image_len)?;
//!     if !state.complete() { .. }     // a group, or the whole, isn't marked yet
#![tactic(auto)]

mod decode;
mod fault;
mod fields;
mod listing;
mod open;
mod piece;
mod ranges;
mod read;
mod state;
mod window;

pub use fault::JournalFault;
pub use open::stands_open;
pub use piece::{Cursor, journal_len, journal_piece, journal_piece_from};
pub use read::read_journal;
pub use state::{JournalState, Marks};
