//! Printed text, ranges of an image, pieces of files, claims of rules and the plan that they make.
//!
//! `RangeList` is a set of bytes as a sorted list of ranges that aren't empty and don't touch; `FillMap` says which rule fills
//! which byte with what. Both keep the canonical list of what they say, and each call's contract speaks of one byte at a time.
//! A range ends at most at byte 2^63.
//!
//!     let set = RangeList::from_ranges(alloc, vec![in alloc; Range { at: 10, len: 5 }, Range { at: 14, len: 6 }]?)?;
//!     set.items()         // [Range { at: 10, len: 10 }]
#![tactic(auto)]

mod fills;
mod items;
pub mod laws;
pub(crate) mod laying;
mod pieces;
mod plan;
mod ranges;
mod text;

pub use fills::FillMap;
pub use items::Items;
pub use pieces::{Piece, PieceKind, Pieces};
pub use plan::{
    ListKind, Listed, Listing, MAX_LISTED, MAX_LISTING_BYTES, MAX_RANGES, MAX_RULE, Plan,
};
pub use ranges::RangeList;
pub use text::{MAX_PATH, NoMemory, Text};
