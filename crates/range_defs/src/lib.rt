//! Places of an image: ranges of bytes, and claims of rules on them.
//!
//! A `Range` is `len` bytes from byte `at` on; a `Claim` is a range that a rule takes, with the byte that it fills in. The
//! definitions speak of one byte at a time: whether ranges cover it (`covers`), and which rule and fill claims give it
//! (`painted`: the least rule). A set of bytes has one canonical list, that of its longest ranges; so has a filling.
//!
//!     // bytes 86,016 to 86,018, which rule 1 fills with 0x58
//!     let claim = Claim { range: Range { at: 86_016, len: 3 }, rule: 1, fill: 0x58 };
#![tactic(auto)]

/// The bytes of the longest image: 2^46.
pub const LONGEST_IMAGE: u64 = 70_368_744_177_664;

/// Where a range ends at most, so that sums of its bytes fit 64 bits: 2^63.
pub const REACH: u64 = 9_223_372_036_854_775_808;

/// The bytes from `at` on, `len` of them. Both are in bytes, and `at` counts from the image's first byte.
#[derive(Clone, Copy, Debug, PartialEq, Eq)]
pub struct Range {
    pub at: u64,
    pub len: u64,
}

/// A rule's claim on a range, and the byte with which the rule fills it.
#[derive(Clone, Copy, Debug, PartialEq, Eq)]
pub struct Claim {
    pub range: Range,
    pub rule: u32,
    pub fill: u8,
}
