//! The plan: which bytes are filled with what, and which files are listed.
use crate::fills::FillMap;
use crate::items::Items;
use crate::text::Text;

/// The greatest number of a rule.
pub const MAX_RULE: u32 = 1_000;

/// The most ranges that a plan may have.
pub const MAX_RANGES: usize = 1_000_000;

/// The most lines that a listing may have.
pub const MAX_LISTED: usize = 1_000_000;

/// The most bytes that a listing may have in a journal: for each line 7, and those of its path.
pub const MAX_LISTING_BYTES: u64 = 1_080_741_824;

/// Why a file is listed.
#[derive(Clone, Copy, Debug, PartialEq, Eq)]
pub enum ListKind {
    /// A rule settled it.
    File,
    /// No rule settled it, and it touches a planned byte.
    Alias,
}

/// A line of the listing: a name of a file. The rule of an Alias is 0.
#[derive(Debug, Drop)]
pub struct Listed {
    pub kind: ListKind,
    pub rule: u32,
    pub path: Text,
}

/// The listing of a plan.
pub type Listing = Items<Listed>;

/// What is to be filled in an image of `image_len` bytes, and what is listed.
#[derive(Debug, Drop)]
pub struct Plan {
    pub image_len: u64,
    pub ranges: FillMap,
    pub listing: Listing,
}
