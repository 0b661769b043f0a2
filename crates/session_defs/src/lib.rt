//! The calls that carry out a plan, one a turn, and what they leave.
//!
//! A plan is carried out through its journal. `script plan` is the list of all calls on the store: the journal is cut, written
//! with a closed gate, and opened once it is on the disk; then each group of 64 ranges is filled, synced and marked, and at the
//! end the last mark is set. `rest_of plan groups last` are the calls that are left where a journal was found open with some
//! marks: those of the groups that aren't marked, and the last ones. A write has at most 65,536 bytes. The promised laws (`laws`)
//! say what both areas hold when all calls were made, and that a call writes to the image only once the journal is open, and only
//! the fill of planned ranges.
//!
//!     cut 0 · sync · write gate 0x00 · sync · write the rest · sync · write gate 0x4F · sync
//!     for each group: write each range · sync · write its mark
//!     sync · write the last mark · sync
#![tactic(auto)]

pub mod laws;

/// The most bytes that one call writes.
pub const PIECE: usize = 65_536;

/// What a turn of a session did.
#[derive(Clone, Copy, Debug, PartialEq, Eq)]
pub enum Turn {
    /// The journal was cut to no byte.
    Cleared,
    /// Its gate was written, closed.
    Armed,
    /// A piece of the journal behind the gate was written.
    Wrote,
    /// Its gate was opened.
    Opened,
    /// A piece of a range of the image was filled.
    Filled,
    /// The group with this number, counted from 0, was marked as filled.
    Marked(u32),
    /// The last mark was set.
    Closed,
    /// Both areas were synced.
    Synced,
    /// There was nothing left to do.
    Finished,
}

/// Why a turn did nothing.
#[derive(Clone, Copy, Debug, PartialEq, Eq)]
pub enum TurnFault {
    /// The call on the store failed. The session is over.
    Device,
    /// The session had ended before.
    Over,
}
