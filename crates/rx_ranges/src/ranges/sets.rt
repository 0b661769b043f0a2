//! What is in one of two sets, in the first alone, and in a range. Each call goes through its lists once.
ghost use Rattle.std.specs.Prelude.{◌≡◌, ◌&&◌, ◌||◌, ℕ, All, IfOk, not, nat_lt};
ghost use Rattle.rx_ranges.specs.Hull as spec;
ghost use Rattle.range_defs.specs.Places.{covers, in_range, IsRangeList, EndsInReach};

use super::{RangeList, end, push_range};
use crate::items::Items;
use crate::text::NoMemory;
use range_defs::{REACH, Range};
use std::alloc::Global;

impl RangeList {
    /// The bytes of either set: what it leaves free is what both leave free.
    pub fn union(&self, alloc: Global, other: &RangeList) -> Result<RangeList, NoMemory>
        ensures bytes { IfOk result (λ list. (byte : ℕ) → covers list byte ≡ (covers self.now byte || covers other.now byte)) }
        ensures kept { IfOk result IsRangeList }
    {
        let mine = gaps(alloc, self.items())?;
        let theirs = gaps(alloc, other.items())?;
        let neither = shared(alloc, &mine, &theirs)?;
        Ok(RangeList {
            ranges: Items::from_vec(gaps(alloc, &neither)?),
        })
    }

    /// The bytes of this set that the other one lacks.
    pub fn subtract(&self, alloc: Global, other: &RangeList) -> Result<RangeList, NoMemory>
        ensures bytes { IfOk result (λ list. (byte : ℕ) → covers list byte ≡ (covers self.now byte && not (covers other.now byte))) }
        ensures kept { IfOk result IsRangeList }
    {
        let outside = gaps(alloc, other.items())?;
        Ok(RangeList {
            ranges: Items::from_vec(shared(alloc, self.items(), &outside)?),
        })
    }

    /// The bytes of the set that lie in a range, which may end anywhere.
    pub fn cut(&self, alloc: Global, range: Range) -> Result<RangeList, NoMemory>
        ensures bytes { IfOk result (λ list. (byte : ℕ) → covers list byte ≡ (covers self.now byte && in_range range byte)) }
        ensures kept { IfOk result IsRangeList }
    {
        let mut inside = Vec::new(alloc);
        push_range(&mut inside, reached(range))?;
        Ok(RangeList {
            ranges: Items::from_vec(shared(alloc, self.items(), &inside)?),
        })
    }
}

/// The ranges in reach that a set leaves free.
fn gaps(alloc: Global, ranges: &[Range]) -> Result<Vec<Range>, NoMemory>
    requires kept { IsRangeList ranges.now }
    requires reach { All EndsInReach ranges.now }
    ensures bytes { IfOk result (λ out. (byte : ℕ) → covers out.items byte ≡ (nat_lt byte REACH && not (covers ranges.now byte))) }
    ensures kept_after { IfOk result (λ out. IsRangeList out.items) }
    ensures reach_after { IfOk result (λ out. All EndsInReach out.items) }
{
    let mut out = Vec::new(alloc);
    let mut from = 0;
    for range in ranges {
        let len = range.at - from;
        push_range(&mut out, Range { at: from, len })?;
        from = end(*range);
    }
    let len = REACH - from;
    push_range(&mut out, Range { at: from, len })?;
    Ok(out)
}

/// What two sets share.
fn shared(alloc: Global, a: &[Range], b: &[Range]) -> Result<Vec<Range>, NoMemory>
    requires kept_a { IsRangeList a.now }
    requires kept_b { IsRangeList b.now }
    requires reach_a { All EndsInReach a.now }
    requires reach_b { All EndsInReach b.now }
    ensures bytes { IfOk result (λ out. (byte : ℕ) → covers out.items byte ≡ (covers a.now byte && covers b.now byte)) }
    ensures kept { IfOk result (λ out. IsRangeList out.items) }
    ensures reach { IfOk result (λ out. All EndsInReach out.items) }
{
    let mut out = Vec::new(alloc);
    let mut left = 0;
    let mut right = 0;
    while left < a.len() && right < b.len() {
        let mine = a[left];
        let theirs = b[right];
        push_range(&mut out, overlap(mine, theirs))?;
        if end(mine) <= end(theirs) {
            left += 1;
        } else {
            right += 1;
        }
    }
    Ok(out)
}

/// The range that two ranges share, which may be empty.
fn overlap(a: Range, b: Range) -> Range
    requires reach_a { EndsInReach a }
    requires reach_b { EndsInReach b }
    ensures { result ≡ spec.overlap a b }
{
    let at = a.at.max(b.at);
    Range {
        at,
        len: end(a).min(end(b)).saturating_sub(at),
    }
}

/// A range's bytes in reach.
fn reached(range: Range) -> Range
    ensures reach { EndsInReach result }
    ensures bytes { (byte : ℕ) → in_range result byte ≡ (in_range range byte && nat_lt byte REACH) }
{
    let at = range.at.min(REACH);
    Range {
        at,
        len: range.len.min(REACH - at),
    }
}
