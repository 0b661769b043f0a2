//! The form of a journal, and the checks that an open one has to pass.
//!
//! A journal holds a plan and a mark for each group of 64 ranges that is filled. `journal_bytes gate plan marks last` is the list
//! of its bytes: a header of 40, each range in 24, each line of the listing, a mark byte for each group and one last mark. It
//! stands open where it has at least 41 bytes and its gate, byte 0, is 0x4F. `bad_at` is the place of the first check that an
//! open journal fails; the promised laws (`laws`) say that it passes all of them exactly where it is the journal of some plan,
//! and of one alone.
//!
//!     // the journal of a plan without ranges and lines, of an image of 262,144 bytes, all of whose marks are set
//!     4F 44 46 52 4A 20 76 31  00 00 04 00 00 00 00 00  00 00 00 00  00 00 00 00
//!     01 00 00 00 00 00 00 00  00 00 00 00 00 00 00 00  44
#![tactic(auto)]

pub mod laws;

/// The gate of an open journal.
pub const OPEN_GATE: u8 = 0x4F;

/// A mark that is set. Each other byte is a mark that is unset.
pub const SET_MARK: u8 = 0x44;

/// The bytes of a journal's header.
pub const HEADER_LEN: u64 = 40;

/// The bytes of a range in a journal.
pub const RANGE_LEN: u64 = 24;

/// How many ranges a group has; the last one may have fewer.
pub const GROUP_RANGES: u64 = 64;
