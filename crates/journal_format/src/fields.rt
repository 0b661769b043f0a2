//! The fields of a journal, and their checks as tables: each place with whether its check holds.
ghost use Rattle.std.specs.Prelude.{◌≡◌, ◌+◌, ◌*◌, ◌≤◌, ◌&&◌, ◌==◌, codes, nat_le, length};
ghost use Rattle.std.specs.Str.{bytes_eq};
ghost use Rattle.bytes_defs.specs.Bytes.{part};
ghost use Rattle.journal_defs.specs.Checks as spec;
ghost use Rattle.journal_defs.specs.Form.{group_count};
ghost use Rattle.journal_defs.specs.Reading.{claim_in};
ghost use Rattle.journal_format.specs.Header.{header_in};

use bytes_defs::{Order, u32_at, u64_at};
use journal_defs::{HEADER_LEN, RANGE_LEN};
use range_defs::{Claim, LONGEST_IMAGE, Range};
use rx_ranges::{MAX_LISTED, MAX_LISTING_BYTES, MAX_RANGES};

/// The numbers of a header.
#[derive(Clone, Copy, Debug)]
pub(crate) struct Header {
    pub(crate) image_len: u64,
    pub(crate) ranges: u32,
    pub(crate) lines: u32,
    pub(crate) body_len: u64,
    pub(crate) listing_len: u64,
}

impl Header {
    /// The numbers of the header that these bytes begin with.
    pub(crate) fn of(bytes: &[u8]) -> Header
        requires { 40 ≤ length bytes.now }
        ensures { result ≡ header_in bytes.now }
    {
        Header {
            image_len: u64_at(Order::Little, bytes, 8),
            ranges: u32_at(Order::Little, bytes, 16),
            lines: u32_at(Order::Little, bytes, 20),
            body_len: u64_at(Order::Little, bytes, 24),
            listing_len: u64_at(Order::Little, bytes, 32),
        }
    }

    /// How many groups its ranges have, and so marks behind the listing.
    pub(crate) fn groups(&self) -> u64
        ensures { result ≡ group_count self.now.ranges }
    {
        (u64::from(self.ranges) + 63) / 64
    }

    /// Where the listing begins.
    pub(crate) fn listing(&self) -> u64
        ensures { result ≡ 40 + 24 * self.now.ranges }
    {
        HEADER_LEN + RANGE_LEN * u64::from(self.ranges)
    }

    /// Where the listing ends.
    pub(crate) fn listing_end(&self) -> u64
        requires { self.now.listing_len ≤ MAX_LISTING_BYTES }
        ensures { result ≡ 40 + 24 * self.now.ranges + self.now.listing_len }
    {
        self.listing() + self.listing_len
    }

    /// Whether the listing isn't too long, and ranges, listing and marks make the body.
    fn makes_body(&self) -> bool
        ensures { result ≡ (nat_le self.now.listing_len MAX_LISTING_BYTES
            && (24 * self.now.ranges + self.now.listing_len + (group_count self.now.ranges + 1) == self.now.body_len)) }
    {
        self.listing_len <= MAX_LISTING_BYTES
            && RANGE_LEN * u64::from(self.ranges) + self.listing_len + (self.groups() + 1)
                == self.body_len
    }
}

/// Whether a header has the text behind its gate.
#[tactic(auto, unfolding(bytes_defs::specs::Bytes::part))]
fn has_text(bytes: &[u8]) -> bool
    requires { 8 ≤ length bytes.now }
    ensures { result ≡ bytes_eq (part bytes.now 1 7) (codes "DFRJ v1") }
{
    &bytes[1..8] == b"DFRJ v1".as_slice()
}

/// The place of the first check that fails.
#[tactic(auto, unfolding(journal_defs::specs::Checks::first_failing))]
pub(crate) fn first_failing(checks: &[(u64, bool)]) -> Option<u64>
    ensures { result ≡ spec.first_failing checks.now }
{
    for check in checks {
        if !check.1 {
            return Some(check.0);
        }
    }
    None
}

/// The checks of a header of a journal of `len` bytes.
#[tactic(auto, unfolding(journal_defs::specs::Checks::header_checks))]
pub(crate) fn header_checks(bytes: &[u8], len: u64) -> [(u64, bool); 6]
    requires header { 40 ≤ length bytes.now }
    requires long { 40 ≤ len }
    ensures { result ≡ spec.header_checks bytes.now len }
{
    let header = Header::of(bytes);
    [
        (1, has_text(bytes)),
        (8, header.image_len <= LONGEST_IMAGE),
        (16, header.ranges as usize <= MAX_RANGES),
        (20, header.lines as usize <= MAX_LISTED),
        (24, header.body_len == len - HEADER_LEN),
        (32, header.makes_body()),
    ]
}

/// The range in its bytes.
pub(crate) fn claim_of(bytes: &[u8]) -> Claim
    requires { 24 ≤ length bytes.now }
    ensures { result ≡ claim_in bytes.now 0 }
{
    Claim {
        range: Range {
            at: u64_at(Order::Little, bytes, 0),
            len: u64_at(Order::Little, bytes, 8),
        },
        rule: u32_at(Order::Little, bytes, 16),
        fill: bytes[20],
    }
}
